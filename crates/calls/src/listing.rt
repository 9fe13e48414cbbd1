//! What the program writes.

use refusals::Refusal;
use std::io::Write;
use std::{fmt, io};

/// Text for a person, line by line. The first fault in writing is kept and told at the end, so that a chapter need not
/// stop while it holds a ticket.
pub struct Listing<W: Write> {
    out: W,
    written: io::Result<()>,
}

impl<W: Write + Drop> Listing<W> {
    pub fn new(out: W) -> Self {
        Listing {
            out,
            written: Ok(()),
        }
    }

    /// What `write!` and `writeln!` call.
    pub fn write_fmt<D: fmt::Display + Drop>(&mut self, text: D) {
        if self.written.is_ok() {
            self.written = self.out.write_fmt(text);
        }
    }

    /// A line for a call, with what it answered.
    pub fn told<T: fmt::Display>(&mut self, call: &str, answer: &Result<T, Refusal>) {
        match answer {
            Ok(value) => writeln!(self, "{call}: {value}"),
            Err(refusal) => self.refused(call, *refusal),
        }
    }

    /// A line for a call that answers nothing.
    pub fn done(&mut self, call: &str, answer: Result<(), Refusal>) {
        self.told(call, &answer.map(|()| "done"));
    }

    /// A line of bytes, two digits each.
    pub fn bytes(&mut self, name: &str, bytes: &[u8]) {
        write!(self, "{name}: ");
        for byte in bytes {
            write!(self, "{byte:02X}");
        }
        writeln!(self);
    }

    /// A line for a call that answers the bytes on an output's line.
    pub fn line(&mut self, call: &str, answer: Result<&[u8], Refusal>) {
        match answer {
            Ok(line) => self.bytes(call, line),
            Err(refusal) => self.refused(call, refusal),
        }
    }

    /// A line for a call that was refused.
    pub fn refused(&mut self, call: &str, refusal: Refusal) {
        let number = refusal.number();
        writeln!(self, "{call}: refused {number}, {refusal}");
    }

    /// Writes what is left, and tells the first fault.
    pub fn finish(self) -> io::Result<()> {
        let Listing { mut out, written } = self;
        written?;
        out.flush()
    }
}
