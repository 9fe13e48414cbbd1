//! Tries an arbiter, line by line from standard input. `diagonal N` or `ripple N` starts anew; `period K` puts a reservation on what
//! stands, up to three; `reserve I O` reserves a pair at the topmost; `wait I O` asks for a wait; 16 hexadecimal digits are a table of
//! requests, which is decided. Each line is answered by one.
#![tactic(auto)]

mod answer;
mod command;
mod line;
mod pile;
mod standing;

use command::read;
use line::Line;
use standing::{Standing, carry_out};
use std::io;
use std::io::{BufRead, BufReader, BufWriter, Write};

/// Answers the line that has ended, and begins the next.
fn answer_line<W: Write>(
    line: &mut Line,
    standing: &mut Option<Standing>,
    out: &mut W,
) -> io::Result<()> {
    let answer = read(line).and_then(|command| carry_out(standing, command));
    line.clear();
    match answer {
        Ok(answer) => writeln!(out, "{answer}"),
        Err(fault) => writeln!(out, "{fault}"),
    }
}

/// Answers the lines that end in this piece of the input.
fn answer_piece<W: Write>(
    piece: &[u8],
    line: &mut Line,
    standing: &mut Option<Standing>,
    out: &mut W,
) -> io::Result<()> {
    for byte in piece {
        match *byte {
            b'\n' => answer_line(line, standing, out)?,
            byte => line.push(byte),
        }
    }
    Ok(())
}

/// Answers all lines: the last may end with the input.
fn answer_all<R: BufRead, W: Write>(input: &mut R, out: &mut W) -> io::Result<()> {
    let mut line = Line::new();
    let mut standing = None;
    for _ in 0..u64::MAX {
        let piece = input.fill_buf()?;
        let length = piece.len();
        if length == 0 {
            break;
        }
        answer_piece(piece, &mut line, &mut standing, out)?;
        input.consume(length);
    }
    if !line.is_empty() {
        answer_line(&mut line, &mut standing, out)?;
    }
    Ok(())
}

fn main(rt: HostRuntime) -> io::Result<()> {
    let mut input = BufReader::new(rt.alloc(), rt.stdin())?;
    let mut out = BufWriter::new(rt.alloc(), rt.stdout())?;
    answer_all(&mut input, &mut out)?;
    out.flush()
}
