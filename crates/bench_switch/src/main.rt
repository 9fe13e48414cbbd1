//! Runs a switch of eight ports under full load for as many slots as its argument says (1000 if left out), and writes what was
//! accepted, refused and sent, and a sum over all answers: the program that the bench line of the switch times. What it does in
//! detail stands at the head of bench/switch.rs, a plain switch that does the same.
#![tactic(auto)]

use anyhow::anyhow;
use arbiters::Diagonal;
use law::Arrival;
use machine::{Machine, Sent};
use routes::Route;
use std::env;

const PORTS: usize = 8;

const ROUTES: usize = 32;

/// The VCI of each route of each input.
type Vcis = [[u16; ROUTES]; PORTS];

/// Random numbers.
#[derive(Drop)]
struct Generator {
    state: u64,
}

impl Generator {
    /// The next random number.
    fn draw(&mut self) -> u64 {
        let x = self.state ^ (self.state << 13);
        let y = x ^ (x >> 7);
        self.state = y ^ (y << 17);
        self.state
    }
}

/// What is counted, and the sum over all answers.
#[derive(Drop)]
struct Tally {
    accepted: u64,
    refused: u64,
    sent: u64,
    sum: u64,
}

impl Tally {
    fn mix(&mut self, word: u64) {
        self.sum = self.sum.wrapping_mul(1_099_511_628_211).wrapping_add(word);
    }

    /// A cell was sent.
    fn mix_sent(&mut self, sent: &Sent) {
        let c = &sent.cell;
        let header = u32::from_be_bytes([c[0], c[1], c[2], c[3]]);
        self.mix((sent.note.slot as u64) << 32 | header as u64);
        let vcis = (sent.note.came as u64) << 48 | (sent.note.left as u64) << 32;
        let ports = (sent.note.input as u64) << 24 | (sent.output as u64) << 16;
        self.mix(vcis | ports | (c[4] as u64) << 8 | c[52] as u64);
    }
}

/// Sets 32 random routes at each input, and answers their VCIs.
fn set_routes(machine: &mut Machine<Diagonal>, random: &mut Generator) -> Vcis {
    let mut vcis = [[0u16; ROUTES]; PORTS];
    for (input, row) in (0..8u8).zip(vcis.iter_mut()) {
        for (k, vci) in (0..32u16).zip(row.iter_mut()) {
            let x = random.draw();
            *vci = 0x8000 | (x & 0x7FE0) as u16 | k;
            let route = Route {
                vci: *vci,
                output: ((x >> 16) & 7) as u8,
                new_vci: ((x >> 32) & 0xFFFF) as u16,
            };
            let _ = machine.set_route(input, route);
        }
    }
    vcis
}

/// A cell arrives at each input.
fn arrivals(
    machine: &mut Machine<Diagonal>,
    random: &mut Generator,
    vcis: &Vcis,
    cell: &mut [u8; 53],
    tally: &mut Tally,
) {
    for (input, row) in (0..8u8).zip(vcis.iter()) {
        let y = random.draw();
        let vci = row[(y & 31) as usize];
        let header = (y >> 32) as u32 & 0xFFF0_000F | (vci as u32) << 4;
        cell[0..4].copy_from_slice(&header.to_be_bytes());
        cell[52] = ((y >> 8) & 0xFF) as u8;
        match machine.arrive(input, cell) {
            Ok(Arrival::Accepted { output, ahead }) => {
                tally.accepted = tally.accepted.wrapping_add(1);
                tally.mix((16 * output as u64).wrapping_add(ahead as u64));
            }
            Ok(Arrival::Idle) => {}
            Err(_) => tally.refused = tally.refused.wrapping_add(1),
        }
    }
}

/// The slot ends, and all that is granted departs.
fn departures(machine: &mut Machine<Diagonal>, tally: &mut Tally) {
    if let Ok(ended) = machine.end_slot() {
        for sent in ended.departures.as_slice() {
            tally.mix_sent(sent);
        }
        tally.sent = tally.sent.wrapping_add(ended.closed.grants as u64);
    }
}

/// A cell whose bytes are their own numbers, but for byte 4, which is 0.
fn numbered() -> [u8; 53] {
    let mut cell = [0; 53];
    for (byte, number) in cell.iter_mut().zip(0..53u8) {
        *byte = number;
    }
    cell[4] = 0;
    cell
}

/// What came of so many slots.
fn run(diagonal: Diagonal, slots: u32) -> Tally {
    let mut machine = Machine::new(diagonal, 0, 1);
    let mut random = Generator {
        state: 88_172_645_463_325_252,
    };
    let vcis = set_routes(&mut machine, &mut random);
    let mut cell = numbered();
    let mut tally = Tally {
        accepted: 0,
        refused: 0,
        sent: 0,
        sum: 0,
    };
    for _ in 0..slots {
        arrivals(&mut machine, &mut random, &vcis, &mut cell, &mut tally);
        departures(&mut machine, &mut tally);
    }
    tally
}

fn main(rt: HostRuntime) -> anyhow::Result<()> {
    let slots = match env::args(&rt)?.nth(1) {
        Some(word) => word.as_str().parse::<u32>()?,
        None => 1000,
    };
    let Ok(diagonal) = Diagonal::new(8) else {
        return Err(anyhow!("no arbiter"));
    };
    let Tally {
        accepted,
        refused,
        sent,
        sum,
    } = run(diagonal, slots);
    println!(rt; "{slots} slots: {accepted} accepted, {refused} refused, {sent} sent, sum {sum}")?;
    Ok(())
}
