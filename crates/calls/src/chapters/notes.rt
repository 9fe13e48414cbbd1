//! Sixty-four blocks for notes.

use crate::scene::Scene;
use crate::sending::Sending;
use crate::steps::{filled, passed, route};
use crate::two_ports::TwoPorts;
use refusals::Refusal;
use std::io::Write;

/// Two cells leave in every slot and no note is taken: after 32 slots nothing can leave until a note is taken.
pub fn notes_filling_up<W: Write + Drop>(scene: &mut Scene<W>) -> Result<(), Refusal> {
    scene.begin("notes filling up");
    let mut two = TwoPorts::new(7, 1)?;
    two.set_route(0, route(0x2345, 0, 0xAAAA))?;
    two.set_route(1, route(0x2345, 1, 0xBBBB))?;
    for _ in 0..32 {
        two = passed(two, &mut scene.memory)?;
    }
    writeln!(
        scene.out,
        "32 slots in which input 0 sent to output 0 and input 1 to output 1, no note taken"
    );
    let ticket = filled(&mut two, &mut scene.memory)?;
    let sending = scene.decided(two, ticket)?;
    let Ok(sending) = taken(scene, sending) else {
        return Ok(());
    };
    let _ = scene.closed(sending);
    Ok(())
}

/// Departures that wait for room.
fn taken<W: Write + Drop>(scene: &mut Scene<W>, mut sending: Sending) -> Result<Sending, TwoPorts> {
    scene.departed(&mut sending);
    let mut sending = scene.unclosed("close", sending.close())?;
    scene.note_taken("take a note of output 1", &mut sending, 1);
    scene.departed(&mut sending);
    scene.departed(&mut sending);
    scene.note_taken("take a note of output 1", &mut sending, 1);
    scene.departed(&mut sending);
    scene.departed(&mut sending);
    Ok(sending)
}
