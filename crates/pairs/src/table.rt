//! A table of pairs: which pairs it holds, and the operations on whole tables.

ghost use Rattle.std.specs.Prelude.{◌≡◌, ℕ, ◌+◌, ◌<◌, false, not, ◌&&◌, ◌||◌, nat_eq, nat_lt};
ghost use Rattle.pairs.specs.Tables.{First, added, dropped, filled, holds, inside, joint, ports_of, size, table_of};
ghost use Rattle.pairs.specs.Words.{bit, paired_bit};

use crate::ports::{MOST, Ports};

/// A table of pairs. The pair (i, o) is the bit 8 × i + o; pairs outside 8 × 8 are in no table.
#[derive(Clone, Copy, PartialEq, Eq, Debug)]
pub struct Table {
    bits: u64,
}

// A constant is made of literals alone, so the entries stand here written out; the proof makes them by their rule.
/// The pairs of the first 0, 1, .. 8 inputs and outputs.
const SQUARES: [u64; 9] = [
    0x0,
    0x1,
    0x303,
    0x70707,
    0xf0f0f0f,
    0x1f1f1f1f1f,
    0x3f3f3f3f3f3f,
    0x7f7f7f7f7f7f7f,
    0xffffffffffffffff,
];

/// The pairs whose input and output add up to 0, 1, .. 14.
const SUMS: [u64; 15] = [
    0x1,
    0x102,
    0x10204,
    0x1020408,
    0x102040810,
    0x10204081020,
    0x1020408102040,
    0x102040810204080,
    0x204081020408000,
    0x408102040800000,
    0x810204080000000,
    0x1020408000000000,
    0x2040800000000000,
    0x4080000000000000,
    0x8000000000000000,
];

// `empty` and `and` are those of `Ports` at another word: a trait over both words would be longer than the four bodies.
impl Table {
    /// The table of no pair.
    pub fn empty() -> Table
        ensures { result ≡ table_of (λ _ _. false) }
    {
        Table { bits: 0 }
    }

    /// The pairs of the first `ports` inputs and outputs.
    pub fn square(ports: usize) -> Table
        ensures { result ≡ table_of (λ i o. nat_lt i ports && nat_lt o ports) }
    {
        match SQUARES.get(ports) {
            Some(&bits) => Table { bits },
            None => Table { bits: u64::MAX },
        }
    }

    /// The pairs whose input and output add up to `total`.
    pub fn of_sum(total: usize) -> Table
        ensures { result ≡ table_of (λ i o. nat_eq (i + o) total) }
    {
        match SUMS.get(total) {
            Some(&bits) => Table { bits },
            None => Table::empty(),
        }
    }

    /// Whether the table has no pair.
    pub fn is_empty(self) -> bool
        ensures { result ≡ nat_eq (size self) 0 }
    {
        self.bits == 0
    }

    /// How many pairs the table has.
    pub fn len(self) -> usize
        ensures { result ≡ size self }
    {
        self.bits.count_ones() as usize
    }

    /// Whether the pair is in the table.
    pub fn has(self, input: usize, output: usize) -> bool
        ensures { result ≡ holds self input output }
    {
        self.outputs(input).has(output)
    }

    /// The table with the pair put in.
    pub fn with(self, input: usize, output: usize) -> Table
        ensures { result ≡ table_of (added (holds self) input output) }
    {
        self.with_outputs(input, Ports::empty().with(output))
    }

    /// The table without the pair.
    pub fn without(self, input: usize, output: usize) -> Table
        ensures { result ≡ table_of (dropped (holds self) input output) }
    {
        self.minus(Table::empty().with(input, output))
    }

    /// The outputs that stand in a pair with the input.
    pub fn outputs(self, input: usize) -> Ports
        ensures { result ≡ ports_of (holds self input) }
    {
        if input >= MOST {
            return Ports::empty();
        }
        Ports::from_byte(((self.bits >> (input * MOST)) & 0xff) as u8)
    }

    /// The table with a pair of the input and each of the outputs put in.
    pub fn with_outputs(self, input: usize, outputs: Ports) -> Table
        ensures { result ≡ table_of (filled (holds self) input (inside outputs)) }
    {
        if input >= MOST {
            return self;
        }
        Table {
            bits: self.bits | ((outputs.byte() as u64) << (input * MOST)),
        }
    }

    /// The pair of the lowest input, and for that input of the lowest output.
    pub fn first(self) -> Option<(usize, usize)>
        ensures { First self result }
    {
        if self.is_empty() {
            return None;
        }
        let place = self.bits.trailing_zeros() as usize;
        Some((place / MOST, place % MOST))
    }

    /// The pairs that are in both tables.
    pub fn and(self, other: Table) -> Table
        ensures { result ≡ table_of (λ i o. holds self i o && holds other i o) }
    {
        Table {
            bits: self.bits & other.bits,
        }
    }

    /// The pairs that are in one of the tables.
    pub fn or(self, other: Table) -> Table
        ensures { result ≡ table_of (λ i o. holds self i o || holds other i o) }
    {
        Table {
            bits: self.bits | other.bits,
        }
    }

    /// The pairs that are in this table and not in the other.
    pub fn minus(self, other: Table) -> Table
        ensures { result ≡ table_of (λ i o. holds self i o && not (holds other i o)) }
    {
        Table {
            bits: self.bits & !other.bits,
        }
    }

    /// The pairs that share their input or their output with a pair of the table.
    pub fn crossing(self) -> Table
        ensures { result ≡ table_of (joint self) }
    {
        let row = paired(self.bits, 4, 0x0f0f0f0f0f0f0f0f);
        let row = paired(row, 2, 0x3333333333333333);
        let row = paired(row, 1, 0x5555555555555555);
        let column = paired(self.bits, 32, 0x00000000ffffffff);
        let column = paired(column, 16, 0x0000ffff0000ffff);
        let column = paired(column, 8, 0x00ff00ff00ff00ff);
        Table { bits: row | column }
    }
}

/// The word with each place of `low`, and the place `distance` above it, set where one of the two is.
fn paired(bits: u64, distance: u32, low: u64) -> u64
    requires { distance < 64 }
    ensures { (k : ℕ) → k < 64 → bit result k ≡ paired_bit bits distance low k }
{
    bits | ((bits >> distance) & low) | ((bits & low) << distance)
}
