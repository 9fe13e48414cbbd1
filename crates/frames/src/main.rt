//! Lists a recording of slot lines from standard input, frame by frame, for a person.
#![tactic(auto)]

mod listing;

use lines::LineReader;
use listing::Listed;
use std::io::{BufWriter, Write};
use std::{env, io};

const HELP: &str = "\
frames: lists a recording of slot lines, frame by frame, for a person

usage: frames < recording

Reads slot lines from standard input: pairs of hexadecimal digits, in either case, one space allowed between pairs.
Writes a line of text for each: the line's number, then what the frame says (the switch that is named, a route, a cell
with its header fields and bytes, a close), or `refused`, the refusal's number, a sentence, and the place of a wrong digit.
Nothing is played: `slots` does that. A refused line does not stop it.
It ends with status 1 if input cannot be read or output not written. docs/SLOT-LINES.md has the format.
";

/// A recording that is listed as it is written here.
#[derive(Drop)]
struct Lister<W> {
    reader: LineReader,
    out: W,
}

impl<W: Write> Write for Lister<W> {
    /// Lists every line that ends in the piece.
    fn write(&mut self, piece: &[u8]) -> io::Result<usize> {
        let mut rest = piece;
        while !rest.is_empty() {
            let fed = self.reader.feed(rest);
            rest = &rest[fed.used..];
            if let Some(line) = fed.line {
                writeln!(self.out, "{}", Listed(&line))?;
            }
        }
        Ok(piece.len())
    }

    fn flush(&mut self) -> io::Result<()> {
        self.out.flush()
    }
}

/// Lists standard input.
fn list_all(rt: &HostRuntime) -> anyhow::Result<()> {
    let mut lister = Lister {
        reader: LineReader::new(),
        out: BufWriter::new(rt.alloc(), rt.stdout())?,
    };
    io::copy(&mut rt.stdin(), &mut lister)?;
    let Lister { reader, mut out } = lister;
    if let Some(line) = reader.finish() {
        writeln!(out, "{}", Listed(&line))?;
    }
    Ok(out.flush()?)
}

fn run(rt: &HostRuntime) -> anyhow::Result<()> {
    match env::args(rt)?.nth(1) {
        Some(word) if word.as_str() == "--help" => Ok(rt.print(HELP)?),
        // Another argument says nothing to it.
        _ => list_all(rt),
    }
}

fn main(rt: HostRuntime) -> anyhow::Result<()> {
    run(&rt)
}
