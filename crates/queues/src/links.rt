//! The links of eight queues over one set of `B` blocks.

ghost use Rattle.std.specs.Prelude.{◌≡◌, ◌*◌, ◌^◌, ◌<◌};
ghost use Rattle.queues.specs.Linked.{Apart, Covered, Ended, Inside, list_at, sum_of_counts};

use crate::block_list::BlockList;
use crate::queue::QUEUES;

mod calls;

/// The queues and the free list: each of the blocks stands in one place of one of them.
// Links are numbers of blocks in an array: queue memory has a fixed size, with no heap.
#[derive(Clone, Copy)]
pub struct Links<const B: usize> {
    /// The block behind each block.
    next: [usize; B],
    queues: [BlockList; QUEUES],
    free: BlockList,
    ghost addressed: { B * 8 < 2 ^ 64 },
    ghost inside: { Inside B next (list_at queues free) },
    ghost apart: { Apart next (list_at queues free) },
    ghost covered: { Covered B next (list_at queues free) },
    ghost ended: { Ended next (list_at queues free) },
    ghost whole: { sum_of_counts queues free ≡ B },
}
