//! The routes of an input.

use crate::memory::cell_2345;
use crate::scene::Scene;
use crate::steps::route;
use crate::two_ports::TwoPorts;
use refusals::Refusal;
use std::io::Write;

/// Sets and removes routes, up to the 32 that an input can have.
pub fn routes<W: Write + Drop>(scene: &mut Scene<W>) -> Result<(), Refusal> {
    scene.begin("routes");
    let out = &mut scene.out;
    let mut two = TwoPorts::new(7, 1)?;
    out.done(
        "set at input 2: 2345 to output 0 as 1111",
        two.set_route(2, route(0x2345, 0, 0x1111)),
    );
    out.done(
        "set at input 0: 2345 to output 2 as 1111",
        two.set_route(0, route(0x2345, 2, 0x1111)),
    );
    out.done(
        "set at input 0: 2345 to output 0 as 1111",
        two.set_route(0, route(0x2345, 0, 0x1111)),
    );
    out.done("remove at input 0: 2346", two.remove_route(0, 0x2346));
    out.done("remove at input 2: 2346", two.remove_route(2, 0x2346));
    let more = more_routes(&mut two);
    writeln!(
        out,
        "set at input 0: 0100 to 011E to output 1: done {more} times"
    );
    out.done(
        "set at input 0: 2346 to output 1 as 2222",
        two.set_route(0, route(0x2346, 1, 0x2222)),
    );
    out.done(
        "set at input 0: 2346 to output 2 as 2222",
        two.set_route(0, route(0x2346, 2, 0x2222)),
    );
    out.done(
        "set at input 0: 2345 to output 1 as BEEF",
        two.set_route(0, route(0x2345, 1, 0xBEEF)),
    );
    out.done(
        "set at input 1: 2346 to output 1 as 2222",
        two.set_route(1, route(0x2346, 1, 0x2222)),
    );
    out.done("remove at input 0: 0100", two.remove_route(0, 0x0100));
    out.done("remove at input 0: 0100", two.remove_route(0, 0x0100));
    out.done(
        "set at input 0: 2346 to output 1 as 2222",
        two.set_route(0, route(0x2346, 1, 0x2222)),
    );
    let ticket = scene.opened(&mut two)?;
    let cell = cell_2345(0x6A);
    scene.arrived("arrive at input 0: 2345", &mut two, &ticket, 0, &cell);
    Ok(())
}

/// Sets 31 more routes at input 0, and counts those that were set.
fn more_routes(two: &mut TwoPorts) -> u8 {
    let mut set = 0;
    for k in 0..31u8 {
        if two
            .set_route(0, route(0x0100 + u16::from(k), 1, 0x0200))
            .is_ok()
        {
            set = k + 1;
        }
    }
    set
}
