//! Plays a recording of slot lines from standard input on the switch that it names, and writes what the switch answers as slot
//! lines to standard output. It only moves bytes: the crate `player` has every rule.
#![tactic(auto)]

use anyhow::anyhow;
use player::Player;
use std::alloc::AllocError;
use std::io::{BufReader, Write};
use std::{env, io};

const HELP: &str = "\
slots: plays a recording of slot lines on the switch that it names

usage: slots < recording > answers

Reads slot lines, pairs of hexadecimal digits: 00 names the switch, 01 sets a route, 02 is a cell that arrives,
03 decides the slot, sends its grants and closes it. Writes a line that begins with 82 for each cell sent, with 83
for each slot closed and with 8F for each line refused. A slot that is open at the end is ended.
A refused line does not stop it. It ends with status 1 if input cannot be read, output not written, or memory not had;
what it has written by then stays written.
docs/SLOT-LINES.md has the format, docs/EXAMPLE.md a recording with every byte explained.
";

/// How much is written at once.
const FULL: usize = 65536;

/// A recording that is played as it is written here. What is answered gathers, and is handed on by and by.
struct Playback<W> {
    player: Player,
    gathered: Vec<u8>,
    out: W,
    /// That there was no memory to play on: told in its own words, and not in those of a write that fails.
    starved: Option<AllocError>,
}

impl<W: Write> Playback<W> {
    /// Hands on what has gathered.
    fn hand_on(&mut self) -> io::Result<()> {
        let answer = self.out.write_all(&self.gathered);
        self.gathered.clear();
        answer
    }
}

impl<W: Write> Write for Playback<W> {
    /// Plays every line that ends in the piece. What has gathered is handed on between two lines: then the room for it, which is
    /// allotted at the start, is always enough.
    fn write(&mut self, piece: &[u8]) -> io::Result<usize> {
        let mut rest = piece;
        while !rest.is_empty() {
            match self.player.feed(rest, &mut self.gathered) {
                Ok(used) => rest = &rest[used..],
                Err(error) => {
                    self.starved = Some(error);
                    return Err(error.into());
                }
            }
            if self.gathered.len() >= FULL {
                self.hand_on()?;
            }
        }
        Ok(piece.len())
    }

    fn flush(&mut self) -> io::Result<()> {
        self.hand_on()?;
        self.out.flush()
    }
}

/// Ends the recording if all of the input was played.
fn end(
    copied: io::Result<u64>,
    starved: Option<AllocError>,
    player: Player,
    gathered: &mut Vec<u8>,
) -> anyhow::Result<()> {
    if let Some(error) = starved {
        return Err(error.into());
    }
    copied?;
    Ok(player.finish(gathered)?)
}

/// Plays standard input. What has gathered is written even where the input breaks off.
fn play(rt: &HostRuntime) -> anyhow::Result<()> {
    let gathered = Vec::with_capacity(rt.alloc(), 2 * FULL)?;
    // Its room is asked for before anything is played: want of it is told as a read that failed.
    let mut input = BufReader::new(rt.alloc(), rt.stdin())?;
    let mut playback = Playback {
        player: Player::new(rt.alloc()),
        gathered,
        out: rt.stdout(),
        starved: None,
    };
    let copied = io::copy(&mut input, &mut playback);
    let Playback {
        player,
        mut gathered,
        mut out,
        starved,
    } = playback;
    let answer = end(copied, starved, player, &mut gathered);
    out.write_all(&gathered)?;
    out.flush()?;
    answer
}

fn run(rt: &HostRuntime) -> anyhow::Result<()> {
    match env::args(rt)?.nth(1) {
        None => play(rt),
        Some(word) if word.as_str() == "--help" => Ok(rt.print(HELP)?),
        Some(_) => Err(anyhow!("the only argument is --help")),
    }
}

fn main(rt: HostRuntime) -> anyhow::Result<()> {
    run(&rt)
}
