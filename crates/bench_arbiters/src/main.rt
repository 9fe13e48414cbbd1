//! Decides on random tables of eight ports: the program that the bench lines of the arbiters time. Its arguments are the arbiter
//! (diagonal, ripple or reservation), how many random words make a table (1: every pair is in it with a chance of 1/2; 2 and 3: 3/4
//! and 7/8 where the last argument is `dense`, else 1/4 and 1/8), how many decisions, and `dense` or `sparse`. It writes a sum over
//! the grants.
#![tactic(auto)]

use anyhow::anyhow;
use arbiters::{Arbiter, Diagonal, Reservation, Ripple};
use pairs::{Ports, Table};
use std::env;

/// The next random word.
fn next(state: u64) -> u64 {
    let x = state ^ (state << 13);
    let y = x ^ (x >> 7);
    y ^ (y << 17)
}

/// The table of a word: eight bits for each input.
fn table(word: u64) -> Table {
    let mut table = Table::empty();
    for input in 0..8usize {
        let byte = ((word >> (8 * input)) & 0xff) as u8;
        table = table.with_outputs(input, Ports::from_byte(byte));
    }
    table
}

/// Random tables, each of as many words.
fn tables(words: u8, dense: bool) -> [Table; 256] {
    let mut tables = [Table::empty(); 256];
    let mut state = 88_172_645_463_325_252u64;
    for k in 0..256 {
        state = next(state);
        let mut word = state;
        for _ in 1..words {
            state = next(state);
            word = if dense { word | state } else { word & state };
        }
        tables[k] = table(word);
    }
    tables
}

/// A sum over the grants of so many decisions.
fn sum_of_grants<A: Arbiter>(arbiter: &mut A, tables: &[Table; 256], times: u32) -> u32 {
    let mut sum = 0u32;
    for k in 0..times {
        let grants = arbiter.decide(tables[(k % 256) as usize]);
        let byte = grants.outputs((k % 8) as usize).byte();
        sum = sum.wrapping_mul(31).wrapping_add(byte as u32);
    }
    sum
}

/// A reservation of each input for the output of its number, every fourth slot, on a diagonal arbiter.
fn reservation() -> anyhow::Result<Reservation<Diagonal>> {
    let Ok(diagonal) = Diagonal::new(8) else {
        return Err(anyhow!("no arbiter"));
    };
    let Ok(mut reservation) = Reservation::new(diagonal, 4) else {
        return Err(anyhow!("no reservation"));
    };
    for port in 0..8u8 {
        let _ = reservation.reserve(port, port);
    }
    Ok(reservation)
}

/// A sum over the grants of the arbiter that is named.
fn run(name: &str, tables: &[Table; 256], times: u32) -> anyhow::Result<u32> {
    if name == "reservation" {
        return Ok(sum_of_grants(&mut reservation()?, tables, times));
    }
    if name == "ripple" {
        let Ok(mut ripple) = Ripple::new(8) else {
            return Err(anyhow!("no arbiter"));
        };
        return Ok(sum_of_grants(&mut ripple, tables, times));
    }
    let Ok(mut diagonal) = Diagonal::new(8) else {
        return Err(anyhow!("no arbiter"));
    };
    Ok(sum_of_grants(&mut diagonal, tables, times))
}

fn main(rt: HostRuntime) -> anyhow::Result<()> {
    let mut words = env::args(&rt)?;
    let Some(name) = words.nth(1) else {
        return Err(anyhow!("no arbiter named"));
    };
    let count = match words.next() {
        Some(word) => word.as_str().parse::<u8>()?,
        None => 1,
    };
    let times = match words.next() {
        Some(word) => word.as_str().parse::<u32>()?,
        None => 0,
    };
    let dense = match words.next() {
        Some(word) => word.as_str() == "dense",
        None => false,
    };
    let sum = run(name.as_str(), &tables(count, dense), times)?;
    println!(rt; "{sum}")?;
    Ok(())
}
