//! The last slot number.

use crate::scene::Scene;
use crate::two_ports::TwoPorts;
use refusals::Refusal;
use std::io::Write;

/// The slot 4,294,967,295 can be opened, and none after it.
pub fn last_slot_number<W: Write + Drop>(scene: &mut Scene<W>) -> Result<(), Refusal> {
    scene.begin("the last slot number");
    let mut two = TwoPorts::new(7, 4294967295)?;
    let ticket = scene.opened(&mut two)?;
    scene.out.told("open", &two.open());
    let sending = scene.decided(two, ticket)?;
    let mut two = scene.closed(sending);
    scene.out.told("open", &two.open());
    Ok(())
}
