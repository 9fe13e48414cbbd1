//! Finds routes in tables with 32 at each of 8 inputs, as often as its argument says, and writes a sum over what it found:
//! the program that the bench line of the routes times. Of forty VCIs that it asks for, eight have no route.
#![tactic(auto)]

use routes::{Route, Routes};
use std::env;

/// The VCI of the k-th route of an input.
fn vci_of(input: u8, k: u8) -> u16 {
    (k as u16).wrapping_mul(977).wrapping_add(input as u16)
}

/// Tables with 32 routes at each of 8 inputs.
fn filled() -> Routes {
    let mut tables = Routes::new();
    for input in 0..8 {
        for k in 0..32u8 {
            let route = Route {
                vci: vci_of(input, k),
                output: k % 8,
                new_vci: k as u16,
            };
            let _ = tables.set(8, input, route);
        }
    }
    tables
}

fn sum_of_found(tables: &Routes, times: u32) -> u32 {
    let mut state = 1u32;
    let mut sum = 0u32;
    for _ in 0..times {
        state = state.wrapping_mul(1_664_525).wrapping_add(1_013_904_223);
        let input = (state >> 29) as u8;
        let k = ((state >> 16) % 40) as u8;
        if let Some(route) = tables.find(input, vci_of(input, k)) {
            sum = sum.wrapping_add(route.output as u32 + route.new_vci as u32);
        }
    }
    sum
}

fn main(rt: HostRuntime) -> anyhow::Result<()> {
    let mut words = env::args(&rt)?;
    let times = match words.nth(1) {
        Some(word) => word.as_str().parse::<u32>()?,
        None => 0,
    };
    let sum = sum_of_found(&filled(), times);
    println!(rt; "{sum}")?;
    Ok(())
}
