//! The memory that is lent to a switch of two ports, and cells to put into it.

use cells::{CELL_BYTES, Cell};
use law::{Block, Note};

/// Cell memory, note memory and slot bytes.
#[derive(Clone, Copy)]
pub struct Memory {
    pub blocks: [Block; 32],
    pub notes: [Note; 64],
    pub bytes: [u8; 106],
}

impl Memory {
    pub fn new() -> Self {
        Memory {
            blocks: [Block::EMPTY; 32],
            notes: [Note::EMPTY; 64],
            bytes: [0; 106],
        }
    }
}

/// A cell with these first four bytes, and another byte in all other places.
pub fn cell(head: [u8; 4], fill: u8) -> Cell {
    let mut cell = [fill; CELL_BYTES];
    cell[..4].copy_from_slice(&head);
    cell
}

/// The idle cell.
pub fn idle_cell() -> Cell {
    cell([0, 0, 0, 1], 0x00)
}

/// A cell of the circuit 2345.
pub fn cell_2345(fill: u8) -> Cell {
    cell([0x00, 0x12, 0x34, 0x56], fill)
}

/// A cell of the circuit 0999.
pub fn cell_0999(fill: u8) -> Cell {
    cell([0x00, 0x10, 0x99, 0x90], fill)
}
