//! The number of a queue that there is.

ghost use Rattle.std.specs.Prelude.{◌<◌};

use crate::refusal::QueueRefusal;

/// How many queues there are.
pub const QUEUES: usize = 8;

/// One of the queues, by its number.
#[derive(Clone, Copy)]
pub(crate) struct Queue {
    pub(crate) number: usize,
    ghost below: { number < 8 },
}

impl TryFrom<usize> for Queue {
    ghost use Rattle.queues.specs.Queue.{Finds};

    type Error = QueueRefusal;

    ghost try_from_gives = { Finds };

    /// Refuses a queue that there is not.
    fn try_from(number: usize) -> Result<Self, QueueRefusal> {
        if number < QUEUES {
            Ok(Queue { number })
        } else {
            Err(QueueRefusal::NoSuchQueue)
        }
    }
}
