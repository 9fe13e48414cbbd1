//! Sixteen blocks for the cells of an input.

use crate::memory::{cell_0999, cell_2345};
use crate::scene::Scene;
use crate::steps::{passed, route};
use crate::two_ports::TwoPorts;
use refusals::Refusal;
use std::io::Write;

/// Two inputs send to one output in every slot, until input 0 has 16 cells: the seventeenth is refused, and accepted after
/// one departure.
pub fn seventeenth_cell<W: Write + Drop>(scene: &mut Scene<W>) -> Result<(), Refusal> {
    scene.begin("the seventeenth waiting cell");
    let mut two = TwoPorts::new(7, 1)?;
    two.set_route(0, route(0x2345, 1, 0xBEEF))?;
    two.set_route(1, route(0x2345, 1, 0xCAFE))?;
    writeln!(
        scene.out,
        "in every slot a cell arrives at input 0 and one at input 1, both for output 1"
    );
    let slots = 29;
    for _ in 0..slots {
        two = passed(two, &mut scene.memory)?;
    }
    writeln!(scene.out, "{slots} slots later:");
    let two = crowded(scene, two)?;
    let two = crowded(scene, two)?;
    let two = crowded(scene, two)?;
    let _ = crowded(scene, two)?;
    Ok(())
}

/// Such a slot, told call by call: a cell without a route is refused for that, full or not.
fn crowded<W: Write + Drop>(scene: &mut Scene<W>, mut two: TwoPorts) -> Result<TwoPorts, Refusal> {
    let ticket = scene.opened(&mut two)?;
    let unrouted = cell_0999(0x6A);
    let cell = cell_2345(0x6A);
    scene.arrived("arrive at input 0: 0999", &mut two, &ticket, 0, &unrouted);
    scene.arrived("arrive at input 0: 2345", &mut two, &ticket, 0, &cell);
    scene.arrived("arrive at input 1: 2345", &mut two, &ticket, 1, &cell);
    let mut sending = scene.decided(two, ticket)?;
    scene.departed(&mut sending);
    Ok(scene.closed(sending))
}
