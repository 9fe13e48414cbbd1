//! A slot from open to close.

use crate::memory::{cell_0999, cell_2345, idle_cell};
use crate::scene::Scene;
use crate::sending::Sending;
use crate::steps::route;
use crate::two_ports::TwoPorts;
use law::{Block, Note};
use refusals::Refusal;
use std::io::Write;
use switch::ArrivalTicket;

/// One cell through the switch, and at each call its refusals first.
pub fn slot_from_open_to_close<W: Write + Drop>(scene: &mut Scene<W>) -> Result<(), Refusal> {
    scene.begin("a slot from open to close");
    let mut two = TwoPorts::new(7, 1)?;
    two.set_route(0, route(0x2345, 1, 0xBEEF))?;
    let ticket = scene.opened(&mut two)?;
    let _ = scene.opened(&mut two);
    arrivals(scene, &mut two, &ticket);
    looks(scene, &two);
    lines_before(scene, &two);
    let sending = scene.decided(two, ticket)?;
    let Ok(mut sending) = scene.unclosed("close", sending.close()) else {
        return Ok(());
    };
    departures(scene, &mut sending);
    notes_taken(scene, &mut sending);
    let two = scene.closed(sending);
    lines_after(scene, two)
}

fn arrivals<W: Write + Drop>(scene: &mut Scene<W>, two: &mut TwoPorts, ticket: &ArrivalTicket) {
    let cell = cell_2345(0x6A);
    let mut few = [Block::EMPTY; 31];
    scene.arrived("arrive at input 2, 52 bytes", two, ticket, 2, &cell[0..52]);
    scene.out.told(
        "arrive at input 0, 52 bytes, 31 cell blocks",
        &two.arrive(ticket, 0, &cell[0..52], &mut few),
    );
    scene.out.told(
        "arrive at input 0: 2345, 31 cell blocks",
        &two.arrive(ticket, 0, &cell, &mut few),
    );
    scene.arrived("arrive at input 0: 0999", two, ticket, 0, &cell_0999(0x6A));
    scene.arrived("arrive at input 0: 2345", two, ticket, 0, &cell);
    scene.arrived("arrive at input 0: 0999", two, ticket, 0, &cell_0999(0x6A));
    scene.arrived("arrive at input 1: idle", two, ticket, 1, &idle_cell());
    scene.arrived("arrive at input 1: idle", two, ticket, 1, &idle_cell());
}

fn looks<W: Write + Drop>(scene: &mut Scene<W>, two: &TwoPorts) {
    let mut bytes = [0xFF; 53];
    let mut short = [0xFF; 52];
    let mut few = [Block::EMPTY; 31];
    scene.out.done(
        "look at input 0, output 2, 31 cell blocks",
        two.look(0, 2, &mut few, &mut bytes),
    );
    scene.out.done(
        "look at input 0, output 1, 31 cell blocks, 52 bytes",
        two.look(0, 1, &mut few, &mut short),
    );
    scene.out.done(
        "look at input 0, output 1, 52 bytes",
        two.look(0, 1, &mut scene.memory.blocks, &mut short),
    );
    scene.out.done(
        "look at input 0, output 0, 52 bytes",
        two.look(0, 0, &mut scene.memory.blocks, &mut short),
    );
    scene.out.done(
        "look at input 0, output 0",
        two.look(0, 0, &mut scene.memory.blocks, &mut bytes),
    );
    scene.out.bytes("the bytes looked into", &bytes);
    scene.out.done(
        "look at input 0, output 1",
        two.look(0, 1, &mut scene.memory.blocks, &mut bytes),
    );
    scene.out.bytes("the bytes looked into", &bytes);
    scene
        .out
        .bytes("the cell in its block", &scene.memory.blocks[0].cell);
}

fn lines_before<W: Write + Drop>(scene: &mut Scene<W>, two: &TwoPorts) {
    let idle = idle_cell();
    let short = [0; 52];
    let few = [0; 105];
    scene.out.line("line of output 2, 105 slot bytes", two.line(2, &few, &idle));
    scene.out.line(
        "line of output 1, 105 slot bytes, idle cell of 52",
        two.line(1, &few, &short),
    );
    scene.out.line(
        "line of output 1, idle cell of 52",
        two.line(1, &scene.memory.bytes, &short),
    );
    scene.line(two, 1);
}

/// The departure, its refusals first, and the note of it.
fn departures<W: Write + Drop>(scene: &mut Scene<W>, sending: &mut Sending) {
    let few = [Block::EMPTY; 31];
    let mut few_notes = [Note::EMPTY; 63];
    let mut few_bytes = [0; 105];
    scene.out.told(
        "depart, 31 cell blocks, 63 note blocks, 105 slot bytes",
        &sending.depart_with(&few, &mut few_notes, &mut few_bytes),
    );
    scene.out.told(
        "depart, 63 note blocks, 105 slot bytes",
        &sending.depart_with(&scene.memory.blocks, &mut few_notes, &mut few_bytes),
    );
    scene.out.told(
        "depart, 105 slot bytes",
        &sending.depart_with(
            &scene.memory.blocks,
            &mut scene.memory.notes,
            &mut few_bytes,
        ),
    );
    scene.line(sending.two(), 1);
    scene.departed(sending);
    scene.line(sending.two(), 1);
    scene.line(sending.two(), 0);
    scene.departed(sending);
    scene.out.told(
        "depart, 31 cell blocks",
        &sending.depart_with(&few, &mut scene.memory.notes, &mut scene.memory.bytes),
    );
}

fn notes_taken<W: Write + Drop>(scene: &mut Scene<W>, sending: &mut Sending) {
    let few_notes = [Note::EMPTY; 63];
    scene.out.told(
        "take a note of output 2, 63 note blocks",
        &sending.take_note(2, &few_notes),
    );
    scene.out.told(
        "take a note of output 0, 63 note blocks",
        &sending.take_note(0, &few_notes),
    );
    scene.note_taken("take a note of output 0", sending, 0);
    scene.note_taken("take a note of output 1", sending, 1);
    scene.note_taken("take a note of output 1", sending, 1);
}

/// What was sent stays on the line until the next decision.
fn lines_after<W: Write + Drop>(scene: &mut Scene<W>, mut two: TwoPorts) -> Result<(), Refusal> {
    scene.line(&two, 1);
    let ticket = scene.opened(&mut two)?;
    scene.line(&two, 1);
    let mut bytes = [0; 53];
    scene.out.done(
        "look at input 0, output 1",
        two.look(0, 1, &mut scene.memory.blocks, &mut bytes),
    );
    let sending = scene.decided(two, ticket)?;
    scene.line(sending.two(), 1);
    let _ = scene.closed(sending);
    Ok(())
}
