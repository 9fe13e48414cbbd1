//! Drives the switch through every call and every refusal, chapter by chapter, and writes what each call answered.
#![tactic(auto)]

mod chapters;
mod listing;
mod memory;
mod scene;
mod sending;
mod steps;
mod two_ports;

use chapters::{
    last_slot_number, notes_filling_up, routes, routes_changed, seventeenth_cell,
    slot_from_open_to_close, tickets_of_others,
};
use listing::Listing;
use refusals::Refusal;
use scene::Scene;
use std::io;
use std::io::{BufWriter, Write};

fn all_chapters<W: Write + Drop>(scene: &mut Scene<W>) -> Result<(), Refusal> {
    routes(scene)?;
    slot_from_open_to_close(scene)?;
    tickets_of_others(scene)?;
    routes_changed(scene)?;
    seventeenth_cell(scene)?;
    notes_filling_up(scene)?;
    last_slot_number(scene)
}

fn main(rt: HostRuntime) -> io::Result<()> {
    let out = Listing::new(BufWriter::new(rt.alloc(), rt.stdout())?);
    let mut scene = Scene::new(out);
    if let Err(refusal) = all_chapters(&mut scene) {
        scene.out.refused("the chapter ends early", refusal);
    }
    scene.finish()
}
