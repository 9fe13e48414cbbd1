//! Plays the recordings in its standard input, each after a line that begins with # and names it, and writes the name and what
//! each comes to. Every recording is played several times, cut into pieces of other sizes; where that changes anything, it says so.
//! A recording whose name ends with (no last line feed) has no 0A at its end.
#![tactic(auto)]

use player::Player;
use std::alloc::{AllocError, Global};
use std::io::{BufReader, BufWriter, Read, Write};

const LINE_FEED: u8 = 0x0A;

const NO_LAST_LINE_FEED: &[u8] = b"(no last line feed)\n";

/// The sizes of the pieces, the first larger than any recording.
const SIZES: [usize; 6] = [1_000_000, 1, 2, 7, 64, 111];

/// What a recording comes to, played in pieces of this size.
fn played(heap: Global, recording: &[u8], size: usize) -> Result<Vec<u8>, AllocError> {
    let mut out = Vec::new(heap);
    let mut player = Player::new(heap);
    for piece in recording.chunks(size.max(1)) {
        player.feed_all(piece, &mut out)?;
    }
    player.finish(&mut out)?;
    Ok(out)
}

/// The recording without its last 0A, if its name says so.
fn as_named<'a>(name: &[u8], recording: &'a [u8]) -> &'a [u8] {
    match recording.split_last() {
        Some((_, front)) if name.ends_with(NO_LAST_LINE_FEED) => front,
        _ => recording,
    }
}

/// Plays a recording in pieces of every size, and writes its name and what it comes to.
fn show<W: Write>(heap: Global, name: &[u8], recording: &[u8], out: &mut W) -> anyhow::Result<()> {
    let recording = as_named(name, recording);
    out.write_all(name)?;
    let whole = played(heap, recording, SIZES[0])?;
    out.write_all(&whole)?;
    for size in SIZES {
        let again = played(heap, recording, size)?;
        if again != whole {
            writeln!(out, "in pieces of {size} it comes to something else")?;
        }
    }
    Ok(())
}

/// Plays all recordings of a text.
fn show_all<W: Write>(heap: Global, text: &[u8], out: &mut W) -> anyhow::Result<()> {
    let mut name: &[u8] = &[];
    let mut recording = Vec::new(heap);
    for line in text.split_inclusive(|byte| *byte == LINE_FEED) {
        if line.starts_with(b"# ") {
            if !name.is_empty() {
                show(heap, name, &recording, out)?;
            }
            name = line;
            recording.clear();
        } else {
            recording.extend_from_slice(line)?;
        }
    }
    show(heap, name, &recording, out)
}

fn run(rt: &HostRuntime) -> anyhow::Result<()> {
    let mut text = Vec::new(rt.alloc());
    let mut input = BufReader::new(rt.alloc(), rt.stdin())?;
    input.read_to_end(&mut text)?;
    let mut out = BufWriter::new(rt.alloc(), rt.stdout())?;
    show_all(rt.alloc(), &text, &mut out)?;
    out.flush()?;
    Ok(())
}

fn main(rt: HostRuntime) -> anyhow::Result<()> {
    run(&rt)
}
