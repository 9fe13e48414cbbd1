//! What is done with the queues.

ghost use Rattle.std.specs.Prelude.{◌≡◌, ◌<◌, length, IfOk};
ghost use Rattle.queues.specs.Calls.{fits, head_call, join_call, len_call, outcome, read_call, take_call};
ghost use Rattle.queues.specs.Moves.{Appends, Heads, Releases};
ghost use Rattle.queues.specs.Queue.{Checks};
ghost use Rattle.queues.specs.Queues.{Starts, blocks_of, unused, view};
ghost use Rattle.queues.specs.Runs.{FirstInFirstOut};

use super::Links;
use crate::block_list::BlockList;
use crate::queue::{QUEUES, Queue};
use crate::refusal::QueueRefusal;
use std::array;

/// Refuses what is handed in to links of `own` blocks: first the queue, then the number of blocks.
fn check(own: usize, blocks: usize, queue: usize) -> Result<Queue, QueueRefusal>
    ensures { Checks (fits own blocks queue) queue result }
{
    let queue = Queue::try_from(queue)?;
    if blocks == own {
        Ok(queue)
    } else {
        Err(QueueRefusal::BlockCount)
    }
}

impl<const B: usize> Links<B> {
    /// Empty queues, and every block free, by rising number.
    pub fn new() -> Self
        ensures { view result ≡ unused B }
    {
        let empty = BlockList {
            head: 0,
            tail: 0,
            count: 0,
        };
        Links {
            next: array::from_fn(|block| block + 1),
            queues: [empty; QUEUES],
            free: BlockList {
                head: 0,
                tail: B.saturating_sub(1),
                count: B,
            },
        }
    }

    /// Links for these blocks, as `new` makes them: whatever joins and takes follow, in whatever order, the first to join a
    /// queue is the first to be taken from it.
    pub fn over<T: Copy>(blocks: &[T]) -> Result<Self, QueueRefusal>
        ensures links { Starts B (length blocks.now) result }
        ensures law { FirstInFirstOut B T }
    {
        if blocks.len() != B {
            return Err(QueueRefusal::BlockCount);
        }
        Ok(Links::new())
    }

    /// How many elements the queue holds.
    fn size(&self, queue: Queue) -> usize
        ensures { result ≡ length (blocks_of self.now queue.number) }
    {
        self.queues[queue.number].count
    }

    /// The block at the head of the queue.
    fn first(&self, queue: Queue) -> Option<usize>
        ensures { Heads B (view self.now) queue.number result }
    {
        self.queues[queue.number].first()
    }

    /// Moves the first free block to the tail of the queue.
    fn append(&mut self, queue: Queue) -> Option<usize>
        ensures { Appends B (view self.old) (view self.new) queue.number result }
    {
        let block = self.free.pop(&self.next)?;
        self.queues[queue.number].push(&mut self.next, block);
        Some(block)
    }

    /// Moves the head of the queue to the tail of the free list, so that it is the last to be used again.
    fn release(&mut self, queue: Queue) -> Option<usize>
        ensures { Releases B (view self.old) (view self.new) queue.number result }
    {
        let block = self.queues[queue.number].pop(&self.next)?;
        self.free.push(&mut self.next, block);
        Some(block)
    }

    /// How many elements the queue holds.
    pub fn len(&self, queue: usize) -> Result<usize, QueueRefusal>
        ensures { result ≡ len_call (view self.now) queue }
    {
        let queue = Queue::try_from(queue)?;
        Ok(self.size(queue))
    }

    /// How many blocks are free.
    pub fn free_blocks(&self) -> usize
        ensures { result ≡ length (view self.now).free }
    {
        self.free.count
    }

    /// The number of the block at the head of the queue.
    pub fn head_block(&self, queue: usize) -> Result<usize, QueueRefusal>
        ensures number { result ≡ head_call (view self.now) queue }
        ensures inside { IfOk result (λ b. b < B) }
    {
        let queue = Queue::try_from(queue)?;
        self.first(queue).ok_or(QueueRefusal::Empty)
    }

    /// Puts the element into the first free block, at the tail of the queue, and says how many stand ahead of it there.
    pub fn join<T: Copy>(
        &mut self,
        blocks: &mut [T],
        queue: usize,
        element: T,
    ) -> Result<usize, QueueRefusal>
        ensures { outcome result (view self.new) blocks.new ≡ join_call B (view self.old) blocks.old queue element }
    {
        let queue = check(B, blocks.len(), queue)?;
        let ahead = self.size(queue);
        let block = self.append(queue).ok_or(QueueRefusal::NoFreeBlock)?;
        blocks[block] = element;
        Ok(ahead)
    }

    /// The element at the head of the queue, which stays there.
    pub fn read<T: Copy>(&self, blocks: &[T], queue: usize) -> Result<T, QueueRefusal>
        ensures { result ≡ read_call B (view self.now) blocks.now queue }
    {
        let queue = check(B, blocks.len(), queue)?;
        let head = self.first(queue).ok_or(QueueRefusal::Empty)?;
        Ok(blocks[head])
    }

    /// Takes the element at the head out of the queue. Its block is the last of the free ones then, and keeps its
    /// contents until it is used again.
    pub fn take<T: Copy>(&mut self, blocks: &[T], queue: usize) -> Result<T, QueueRefusal>
        ensures { outcome result (view self.new) blocks.now ≡ take_call B (view self.old) blocks.now queue }
    {
        let queue = check(B, blocks.len(), queue)?;
        let block = self.release(queue).ok_or(QueueRefusal::Empty)?;
        Ok(blocks[block])
    }
}
