//! Tickets of other switches.

use crate::memory::cell_2345;
use crate::scene::Scene;
use crate::sending::{Sending, Undecided};
use crate::steps::route;
use crate::two_ports::TwoPorts;
use law::Block;
use refusals::Refusal;
use std::io::Write;
use switch::ArrivalTicket;

/// The arrival ticket of a switch with this mark and first slot.
fn ticket_of(mark: u32, first: u32) -> Result<ArrivalTicket, Refusal> {
    let mut two = TwoPorts::new(mark, first)?;
    two.open()
}

/// A ticket fits by its mark, its slot and its stage, and by nothing else.
pub fn tickets_of_others<W: Write + Drop>(scene: &mut Scene<W>) -> Result<(), Refusal> {
    scene.begin("tickets of other switches");
    let mut two = TwoPorts::new(7, 1)?;
    two.set_route(0, route(0x2345, 1, 0xBEEF))?;
    arrivals(scene, &mut two)?;
    let two = undecided(scene, two)?;
    let mut other = TwoPorts::new(8, 1)?;
    let ticket = ticket_of(7, 1)?;
    let mut sending = scene.decided(two, ticket)?;
    late(scene, &mut sending);
    let Ok(mut sending) = elsewhere(scene, sending, &mut other) else {
        return Ok(());
    };
    scene.departed(&mut sending);
    let _ = scene.closed(sending);
    Ok(())
}

fn arrivals<W: Write + Drop>(scene: &mut Scene<W>, two: &mut TwoPorts) -> Result<(), Refusal> {
    let cell = cell_2345(0x6A);
    let same = ticket_of(7, 1)?;
    scene.arrived("arrive, no slot open", two, &same, 0, &cell);
    let ticket = scene.opened(two)?;
    let marked = ticket_of(8, 1)?;
    let numbered = ticket_of(7, 2)?;
    let answer = two.arrive(&marked, 0, &cell, &mut [Block::EMPTY; 31]);
    scene
        .out
        .told("arrive, ticket of mark 8, 31 cell blocks", &answer);
    scene.arrived("arrive, ticket of mark 8", two, &marked, 0, &cell);
    scene.arrived("arrive, ticket of slot 2", two, &numbered, 0, &cell);
    scene.arrived("arrive", two, &ticket, 0, &cell);
    scene.arrived("arrive, ticket of mark 8", two, &marked, 0, &cell);
    scene.arrived(
        "arrive, another switch's ticket of mark 7, slot 1",
        two,
        &same,
        0,
        &cell,
    );
    Ok(())
}

/// A decision under a ticket of another mark is refused, and the ticket that comes back serves its own switch.
fn undecided<W: Write + Drop>(scene: &mut Scene<W>, two: TwoPorts) -> Result<TwoPorts, Refusal> {
    let mut other = TwoPorts::new(8, 1)?;
    let ticket = other.open()?;
    // Each arm goes on in another way, with the scene.
    match Sending::decide(two, ticket) {
        Ok(sending) => Ok(scene.closed(sending)),
        Err(refused) => handed_back(scene, refused, other),
    }
}

fn handed_back<W: Write + Drop>(
    scene: &mut Scene<W>,
    refused: Undecided,
    other: TwoPorts,
) -> Result<TwoPorts, Refusal> {
    let Undecided {
        two,
        ticket,
        refusal,
    } = refused;
    scene.out.refused("decide, ticket of mark 8", refusal);
    let sending = scene.decided(other, ticket)?;
    let _ = scene.closed(sending);
    Ok(two)
}

/// Once the slot is decided no arrival ticket fits.
fn late<W: Write + Drop>(scene: &mut Scene<W>, sending: &mut Sending) {
    if let Ok(ticket) = ticket_of(7, 1) {
        let answer = sending.arrive(&ticket, 1, &cell_2345(0x6A), &mut scene.memory.blocks);
        scene
            .out
            .told("arrive, ticket of mark 7, slot 1, slot decided", &answer);
    }
}

/// The grant ticket at another switch, which hands it back.
fn elsewhere<W: Write + Drop>(
    scene: &mut Scene<W>,
    sending: Sending,
    other: &mut TwoPorts,
) -> Result<Sending, TwoPorts> {
    let answer = other.depart(
        sending.ticket(),
        &[Block::EMPTY; 31],
        &mut scene.memory.notes,
        &mut scene.memory.bytes,
    );
    scene
        .out
        .told("depart at the switch of mark 8, 31 cell blocks", &answer);
    let answer = other.depart(
        sending.ticket(),
        &scene.memory.blocks,
        &mut scene.memory.notes,
        &mut scene.memory.bytes,
    );
    scene.out.told("depart at the switch of mark 8", &answer);
    scene.unclosed("close at the switch of mark 8", sending.close_at(other))
}
