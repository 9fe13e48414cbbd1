//! The lines that a switch's answers are written as: upper-case digits without spaces, and 0A.

ghost use Rattle.std.specs.Prelude.{◌≡◌, ◌*◌, ◌/◌, ◌<◌, min, ◌++◌, length, take, drop};
ghost use Rattle.lines.specs.Spelling.{spell, upper};
ghost use Rattle.lines.specs.Written.{closing_bytes, departure_bytes, numbered_bytes, refusal_bytes, written};

/// The kinds of the lines that are written.
const DEPARTURE: u8 = 0x82;

const CLOSING: u8 = 0x83;

const REFUSAL: u8 = 0x8F;

/// What ends a line.
const LINE_FEED: u8 = 0x0A;

const DIGITS: &[u8; 16] = b"0123456789ABCDEF";

/// What is written of a cell that was sent: its output, its note (slot, input, the VCI that it came with and the one that
/// it left with), and the cell as it left.
#[derive(Clone, Copy)]
pub struct DepartureLine {
    pub output: u8,
    pub slot: u32,
    pub input: u8,
    pub came: u16,
    pub left: u16,
    pub cell: [u8; 53],
}

fn digit_of(value: u8) -> u8
    requires { value < 16 }
    ensures { result ≡ upper value }
{
    DIGITS[value as usize]
}

/// Spells as many of the bytes as the line has room for, by two digits each, and says how much of the line that takes.
pub fn spell_into(bytes: &[u8], line: &mut [u8]) -> usize
    ensures used { result ≡ 2 * min (length bytes.now) (length line.old / 2) }
    ensures line { line.new ≡ spell (take (result / 2) bytes.now) ++ drop result line.old }
{
    let n = bytes.len().min(line.len() / 2);
    // A loop over places: `chunks_exact_mut` promises nothing of the whole slice once a chunk is written.
    for i in 0..n {
        line[2 * i] = digit_of(bytes[i] / 16);
        line[2 * i + 1] = digit_of(bytes[i] % 16);
    }
    2 * n
}

fn departure_bytes(sent: &DepartureLine) -> [u8; 64]
    ensures { result ≡ departure_bytes sent.now }
{
    let [s0, s1, s2, s3] = sent.slot.to_be_bytes();
    let [c0, c1] = sent.came.to_be_bytes();
    let [l0, l1] = sent.left.to_be_bytes();
    let front = [
        DEPARTURE,
        sent.output,
        s0,
        s1,
        s2,
        s3,
        sent.input,
        c0,
        c1,
        l0,
        l1,
    ];
    // Two copies: without the heap Rust joins no arrays.
    let mut bytes = [0; 64];
    bytes[..11].copy_from_slice(&front);
    bytes[11..].copy_from_slice(&sent.cell);
    bytes
}

/// The line for a cell that was sent.
pub fn departure_line(sent: &DepartureLine) -> [u8; 129]
    ensures { result ≡ written (departure_bytes sent.now) }
{
    let mut line = [LINE_FEED; 129];
    spell_into(&departure_bytes(sent), &mut line);
    line
}

/// The line of six bytes: a kind, a number and one more.
fn numbered_line(kind: u8, number: u32, last: u8) -> [u8; 13]
    ensures { result ≡ written (numbered_bytes kind number last) }
{
    let [n0, n1, n2, n3] = number.to_be_bytes();
    let bytes = [kind, n0, n1, n2, n3, last];
    let mut line = [LINE_FEED; 13];
    spell_into(&bytes, &mut line);
    line
}

/// The line for a slot that was closed with so many grants.
pub fn closing_line(slot: u32, grants: u8) -> [u8; 13]
    ensures { result ≡ written (closing_bytes slot grants) }
{
    numbered_line(CLOSING, slot, grants)
}

/// The line for a line that was refused: its number, and the number of the refusal.
pub fn refusal_line(number: u32, refusal: u8) -> [u8; 13]
    ensures { result ≡ written (refusal_bytes number refusal) }
{
    numbered_line(REFUSAL, number, refusal)
}
