//! Routes that change while cells wait.

use crate::memory::cell_2345;
use crate::scene::Scene;
use crate::steps::route;
use crate::two_ports::TwoPorts;
use refusals::Refusal;
use std::io::Write;
use switch::ArrivalTicket;

/// A cell leaves by the route that it had when it was accepted.
pub fn routes_changed<W: Write + Drop>(scene: &mut Scene<W>) -> Result<(), Refusal> {
    scene.begin("routes changed while cells wait");
    let mut two = TwoPorts::new(7, 1)?;
    scene.out.done(
        "set at input 0: 2345 to output 1 as AAAA",
        two.set_route(0, route(0x2345, 1, 0xAAAA)),
    );
    let ticket = scene.opened(&mut two)?;
    let cell = cell_2345(0x01);
    scene.arrived("arrive at input 0: 2345", &mut two, &ticket, 0, &cell);
    scene.out.done(
        "set at input 0: 2345 to output 0 as BBBB",
        two.set_route(0, route(0x2345, 0, 0xBBBB)),
    );
    let two = sent_on(scene, two, ticket, 1)?;
    removed(scene, two)
}

/// A second cell goes by the new route, which is removed while it waits; a third finds none.
fn removed<W: Write + Drop>(scene: &mut Scene<W>, mut two: TwoPorts) -> Result<(), Refusal> {
    let ticket = scene.opened(&mut two)?;
    let cell = cell_2345(0x02);
    scene.arrived("arrive at input 0: 2345", &mut two, &ticket, 0, &cell);
    scene
        .out
        .done("remove at input 0: 2345", two.remove_route(0, 0x2345));
    let mut two = sent_on(scene, two, ticket, 0)?;
    let ticket = scene.opened(&mut two)?;
    let cell = cell_2345(0x03);
    scene.arrived("arrive at input 0: 2345", &mut two, &ticket, 0, &cell);
    Ok(())
}

/// Decides, sends one cell, shows it and its note, and closes.
fn sent_on<W: Write + Drop>(
    scene: &mut Scene<W>,
    two: TwoPorts,
    ticket: ArrivalTicket,
    output: u8,
) -> Result<TwoPorts, Refusal> {
    let mut sending = scene.decided(two, ticket)?;
    scene.departed(&mut sending);
    scene.line(sending.two(), output);
    scene.note_taken("take a note of that output", &mut sending, output);
    Ok(scene.closed(sending))
}
