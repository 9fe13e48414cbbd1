//! Cells of a port in 16 blocks in the middle of 128, and notes in 64 blocks, run on an example.
#![tactic(auto)]

mod parts;

use parts::{join_note, join_port, take_part};
use queues::Links;
use std::io;

/// How many blocks hold something else than `blank`.
fn written(memory: &[u32], blank: u32) -> usize {
    memory.iter().filter(|&&x| x != blank).count()
}

/// Cells join and leave queues of port 1, until its 16 blocks are full.
fn cells(rt: &HostRuntime) -> io::Result<()> {
    let mut links = Links::new();
    let mut cells = [7; 128];
    for (queue, cell) in [(3, 70), (5, 80), (3, 90), (8, 95)] {
        match join_port(&mut links, &mut cells, 1, queue, cell) {
            Ok(ahead) => println!(rt; "cell {cell} joins queue {queue}, {ahead} ahead")?,
            Err(why) => println!(rt; "cell {cell} does not join queue {queue}: {why:?}")?,
        }
    }
    for queue in [3, 5, 3, 3] {
        match take_part(&mut links, &cells, 16, queue) {
            Ok(cell) => println!(rt; "queue {queue} gives cell {cell}")?,
            Err(why) => println!(rt; "queue {queue} gives nothing: {why:?}")?,
        }
    }
    for cell in 100..118 {
        if let Err(why) = join_port(&mut links, &mut cells, 1, 0, cell) {
            println!(rt; "cell {cell} does not join queue 0: {why:?}")?;
        }
    }
    println!(rt; "written before port 1: {}", written(&cells[0..16], 7))?;
    println!(rt; "written of port 1: {}", written(&cells[16..32], 7))?;
    println!(rt; "written behind port 1: {}", written(&cells[32..128], 7))
}

/// Notes join one queue until the 64 blocks are full.
fn notes(rt: &HostRuntime) -> io::Result<()> {
    let mut notes = [0; 64];
    let mut links = match Links::over(&notes) {
        Ok(links) => links,
        Err(why) => return println!(rt; "no links for the notes: {why:?}"),
    };
    for note in 1..67 {
        if let Err(why) = join_note(&mut links, &mut notes, 7, note) {
            println!(rt; "note {note} does not join queue 7: {why:?}")?;
        }
    }
    match links.take(&notes, 7) {
        Ok(note) => println!(rt; "queue 7 gives note {note}"),
        Err(why) => println!(rt; "queue 7 gives nothing: {why:?}"),
    }
}

fn main(rt: HostRuntime) -> io::Result<()> {
    cells(&rt)?;
    notes(&rt)
}
