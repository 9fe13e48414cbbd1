//! A set of ports.

ghost use Rattle.std.specs.Prelude.{◌≡◌, ◌<◌, false, ◌&&◌, nat_lt};
ghost use Rattle.pairs.specs.Tables.{NextFrom, inside, joined, ports_of, removed};
ghost use Rattle.pairs.specs.Words.{bit, word};

/// A set of ports. The port x is the bit x; ports of 8 and above are in no set.
#[derive(Clone, Copy, PartialEq, Eq, Debug)]
pub struct Ports {
    bits: u8,
}

/// How many ports there may be: inputs, and outputs.
pub(crate) const MOST: usize = 8;

impl Ports {
    /// The set of no port.
    pub fn empty() -> Ports
        ensures { result ≡ ports_of (λ _. false) }
    {
        Ports { bits: 0 }
    }

    /// The ports below `count`.
    pub fn below(count: usize) -> Ports
        ensures { result ≡ ports_of (λ x. nat_lt x count) }
    {
        if count < MOST {
            Ports {
                bits: (1 << count) - 1,
            }
        } else {
            Ports { bits: 0xff }
        }
    }

    // Not `From`: a byte is a set only by this reading of its digits, as a float is of its `from_bits`.
    /// The set of the ports x whose digit 2^x stands in the byte.
    pub fn from_byte(byte: u8) -> Ports
        ensures { result ≡ ports_of (bit byte) }
    {
        Ports { bits: byte }
    }

    /// The byte in which the digit 2^x stands for each port x of the set.
    pub fn byte(self) -> u8
        ensures { result ≡ word (inside self) 8 }
    {
        self.bits
    }

    /// Whether the port is in the set.
    pub fn has(self, port: usize) -> bool
        ensures { result ≡ inside self port }
    {
        if port >= MOST {
            return false;
        }
        (self.bits >> port) & 1 == 1
    }

    /// The set with the port put in.
    pub fn with(self, port: usize) -> Ports
        ensures { result ≡ ports_of (joined (inside self) port) }
    {
        if port >= MOST {
            return self;
        }
        Ports {
            bits: self.bits | (1 << port),
        }
    }

    /// The set without the port.
    pub fn without(self, port: usize) -> Ports
        ensures { result ≡ ports_of (removed (inside self) port) }
    {
        if port >= MOST {
            return self;
        }
        Ports {
            bits: self.bits & !(1 << port),
        }
    }

    /// The ports that are in both sets.
    pub fn and(self, other: Ports) -> Ports
        ensures { result ≡ ports_of (λ x. inside self x && inside other x) }
    {
        Ports {
            bits: self.bits & other.bits,
        }
    }

    /// The first port of the set from `start` on, where port 0 comes after port 7.
    pub fn first_from(self, start: usize) -> Option<usize>
        ensures { NextFrom self start result }
    {
        if self.bits == 0 {
            return None;
        }
        let start = start % MOST;
        let ahead = self.bits.rotate_right(start as u32).trailing_zeros() as usize;
        Some((start + ahead) % MOST)
    }
}
