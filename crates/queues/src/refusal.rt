//! Why a call on the queues was refused.

/// What was handed in is looked at before the state of the queues, so that the first of these that applies is given.
/// A refused call leaves the links and the blocks as they were.
#[derive(Clone, Copy, PartialEq, Eq, Debug)]
pub enum QueueRefusal {
    /// The queue's number is 8 or more.
    NoSuchQueue,
    /// The slice has more or fewer blocks than the links.
    BlockCount,
    /// Every block holds an element.
    NoFreeBlock,
    /// The queue holds no element.
    Empty,
}
