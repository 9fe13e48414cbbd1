//! Prints, for some port counts and periods, how long a cell may wait in a switch over a pile of three reservations.
#![tactic(auto)]

ghost use Rattle.delays.specs.Delays.{Answers, closings_until_left, longest_wait};
ghost use Rattle.std.specs.Prelude.{◌≡◌};

use delays::Periods;
use refusals::Refusal;
use std::io;
use std::io::{BufWriter, Write};

/// The longest wait, and the closings after which a cell has left that was accepted with 0, 1 and 15 ahead in its queue.
struct Delays {
    wait: u8,
    none: u128,
    one: u128,
    fifteen: u128,
}

fn delays_of(ports: u8, periods: Periods) -> Result<Delays, Refusal>
    ensures { Answers ports periods (λ d. (d.wait ≡ longest_wait ports periods) × (d.none ≡ closings_until_left ports periods 0) × (d.one ≡ closings_until_left ports periods 1) × (d.fifteen ≡ closings_until_left ports periods 15)) result }
{
    Ok(Delays {
        wait: periods.longest_wait(ports)?,
        none: periods.closings_until_left(ports, 0)?,
        one: periods.closings_until_left(ports, 1)?,
        fifteen: periods.closings_until_left(ports, 15)?,
    })
}

/// A line for a port count and the periods of the reservations, from the lowest.
fn show<W: Write>(out: &mut W, ports: u8, low: u8, middle: u8, high: u8) -> io::Result<()> {
    write!(out, "port count {ports}, periods {low} {middle} {high}: ")?;
    match delays_of(ports, Periods { low, middle, high }) {
        Ok(
            Delays {
                wait,
                none,
                one,
                fifteen,
            },
        ) => writeln!(
            out,
            "longest wait {wait}; left after {none} closings with 0 ahead, {one} with 1, {fifteen} with 15"
        ),
        Err(refusal) => writeln!(out, "refused, {}: {refusal}", refusal.number()),
    }
}

fn main(rt: HostRuntime) -> io::Result<()> {
    let mut out = BufWriter::new(rt.alloc(), rt.stdout())?;
    show(&mut out, 2, 64, 64, 64)?;
    show(&mut out, 4, 2, 3, 5)?;
    // the order of the periods matters
    show(&mut out, 4, 3, 4, 64)?;
    show(&mut out, 4, 4, 3, 64)?;
    show(&mut out, 8, 64, 64, 64)?;
    show(&mut out, 8, 2, 2, 2)?;
    // the port count is looked at first
    show(&mut out, 1, 2, 2, 2)?;
    show(&mut out, 9, 1, 65, 2)?;
    show(&mut out, 8, 1, 2, 2)?;
    show(&mut out, 8, 2, 65, 2)?;
    show(&mut out, 8, 2, 2, 0)?;
    out.flush()
}
