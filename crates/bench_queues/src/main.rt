//! Joins and takes on eight queues in 64 blocks, as many as the first argument says, for the time that they need.
#![tactic(auto)]

use queues::Links;
use std::{env, io};

/// The next of a sequence of numbers without plain order.
fn scramble(x: u64) -> u64 {
    x.wrapping_mul(6364136223846793005)
        .wrapping_add(1442695040888963407)
}

/// A number that depends on every element taken and on every refusal, in their order.
fn work(calls: u64) -> u64 {
    let mut links = Links::<64>::new();
    let mut blocks = [0u64; 64];
    let mut chance = 1u64;
    let mut sum = 0u64;
    for _ in 0..calls {
        chance = scramble(chance);
        let queue = (chance >> 61) as usize;
        let seen = if chance & 0x1000_0000 == 0 {
            links
                .join(&mut blocks, queue, chance)
                .map_or(64, |ahead| ahead as u64)
        } else {
            links.take(&blocks, queue).unwrap_or(65)
        };
        sum = sum.wrapping_mul(31).wrapping_add(seen);
    }
    sum
}

fn main(rt: HostRuntime) -> io::Result<()> {
    let calls = env::args(&rt)?
        .nth(1)
        .and_then(|word| word.parse().ok())
        .unwrap_or(1000);
    let sum = work(calls);
    println!(rt; "{calls} joins and takes: {sum}")
}
