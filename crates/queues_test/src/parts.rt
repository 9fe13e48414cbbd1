//! Queues whose blocks are a part of a larger memory: what lies outside the part is untouched.

ghost use Rattle.std.specs.Prelude.{◌≡◌, ◌*◌};
ghost use Rattle.queues.specs.Calls.{join_call, outcome};
ghost use Rattle.queues.specs.Queues.{view};
ghost use Rattle.queues_test.specs.Parts.{Untouched, join_part, part_end, take_part};

use queues::{Links, QueueRefusal};

/// Where the `blocks` blocks from `start` on end, in a memory that has them.
fn end_of_part(blocks: usize, start: usize, memory: usize) -> Result<usize, QueueRefusal>
    ensures { result ≡ part_end blocks start memory }
{
    start
        .checked_add(blocks)
        .filter(|&end| end <= memory)
        .ok_or(QueueRefusal::BlockCount)
}

/// Joins a queue whose blocks are those of the memory from `start` on.
pub fn join_part<T: Copy, const B: usize>(
    links: &mut Links<B>,
    memory: &mut [T],
    start: usize,
    queue: usize,
    element: T,
) -> Result<usize, QueueRefusal>
    ensures done { outcome result (view links.new) memory.new ≡ join_part B start (view links.old) memory.old queue element }
    ensures untouched { Untouched B start memory.old memory.new }
{
    let end = end_of_part(B, start, memory.len())?;
    links.join(&mut memory[start..end], queue, element)
}

/// Takes the head of a queue whose blocks are those of the memory from `start` on.
pub fn take_part<T: Copy, const B: usize>(
    links: &mut Links<B>,
    memory: &[T],
    start: usize,
    queue: usize,
) -> Result<T, QueueRefusal>
    ensures answer { result ≡ (take_part B start (view links.old) memory.now queue).answer }
    ensures queues { view links.new ≡ (take_part B start (view links.old) memory.now queue).queues }
{
    let end = end_of_part(B, start, memory.len())?;
    links.take(&memory[start..end], queue)
}

/// How many ports share a cell memory.
pub const PORTS: usize = 8;

/// How many blocks of it each has.
pub const BLOCKS: usize = 16;

/// Joins a queue of a port, whose blocks are 16 × `port` to 16 × `port` + 15 of the 128 of the cell memory.
pub fn join_port(
    links: &mut Links<BLOCKS>,
    cells: &mut [u32; 128],
    port: usize,
    queue: usize,
    cell: u32,
) -> Result<usize, QueueRefusal>
    ensures done { outcome result (view links.new) cells.new ≡ join_part 16 (port * 16) (view links.old) cells.old queue cell }
    ensures untouched { Untouched 16 (port * 16) cells.old cells.new }
{
    if port >= PORTS {
        return Err(QueueRefusal::BlockCount);
    }
    join_part(links, cells, port * BLOCKS, queue, cell)
}

/// Joins a queue of the notes, whose blocks are all 64 of the note memory.
pub fn join_note(
    links: &mut Links<64>,
    notes: &mut [u32; 64],
    queue: usize,
    note: u32,
) -> Result<usize, QueueRefusal>
    ensures { outcome result (view links.new) notes.new ≡ join_call 64 (view links.old) notes.old queue note }
{
    links.join(notes, queue, note)
}
