//! A linked list of blocks.

/// Where a linked list of blocks begins and ends, and how many blocks it has. `next` of the links has the block behind
/// each block. `head` and `tail` mean something only where `count` is not 0.
#[derive(Clone, Copy)]
pub(crate) struct BlockList {
    pub(crate) head: usize,
    pub(crate) tail: usize,
    pub(crate) count: usize,
}

impl BlockList {
    ghost use Rattle.std.specs.Prelude.{◌≡◌, ◌+◌, ◌^◌, ◌<◌, length};
    ghost use Rattle.queues.specs.BlockList.{Pops, first_of, linked, pushed};

    /// The block at the head.
    pub(crate) fn first(&self) -> Option<usize>
        ensures { result ≡ first_of self.now }
    {
        (self.count > 0).then_some(self.head)
    }

    /// Takes the block at the head out of the list, and says which it is.
    pub(crate) fn pop(&mut self, next: &[usize]) -> Option<usize>
        requires { 0 < self.old.count → self.old.head < length next.now }
        ensures { Pops next.now self.old self.new result }
    {
        let block = self.first()?;
        self.head = next[block];
        self.count -= 1;
        Some(block)
    }

    /// Puts a block behind the last, or makes it the first of an empty list.
    pub(crate) fn push(&mut self, next: &mut [usize], block: usize)
        requires last { 0 < self.old.count → self.old.tail < length next.old }
        requires room { self.old.count + 1 < 2 ^ 64 }
        ensures list { self.new ≡ pushed self.old block }
        ensures next { next.new ≡ linked self.old next.old block }
    {
        if self.count == 0 {
            self.head = block;
        } else {
            next[self.tail] = block;
        }
        self.tail = block;
        self.count += 1;
    }
}
