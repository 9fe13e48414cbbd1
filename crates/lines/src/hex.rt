//! Pairs of hexadecimal digits read as bytes.

ghost use Rattle.std.specs.Prelude.{◌≡◌, ◌≤◌, [], length, IfErr, IfOk, OnOk};
ghost use Rattle.lines.specs.Hex.{first_pair, hex, past_space, value};
ghost use Rattle.lines.specs.Frames.{decoded};

use arrayvec::ArrayVec;
use refusals::Refusal;

/// The most bytes that a line can spell.
const MOST: usize = 100;

/// What may stand between two pairs.
const SPACE: u8 = 0x20;

/// The value of each digit, and 16 at every other byte. The row of the upper-case digits is the one with upper-case escapes.
const VALUES: &[u8; 256] = b"\
    \x10\x10\x10\x10\x10\x10\x10\x10\x10\x10\x10\x10\x10\x10\x10\x10\
    \x10\x10\x10\x10\x10\x10\x10\x10\x10\x10\x10\x10\x10\x10\x10\x10\
    \x10\x10\x10\x10\x10\x10\x10\x10\x10\x10\x10\x10\x10\x10\x10\x10\
    \x00\x01\x02\x03\x04\x05\x06\x07\x08\x09\x10\x10\x10\x10\x10\x10\
    \x10\x0A\x0B\x0C\x0D\x0E\x0F\x10\x10\x10\x10\x10\x10\x10\x10\x10\
    \x10\x10\x10\x10\x10\x10\x10\x10\x10\x10\x10\x10\x10\x10\x10\x10\
    \x10\x0a\x0b\x0c\x0d\x0e\x0f\x10\x10\x10\x10\x10\x10\x10\x10\x10\
    \x10\x10\x10\x10\x10\x10\x10\x10\x10\x10\x10\x10\x10\x10\x10\x10\
    \x10\x10\x10\x10\x10\x10\x10\x10\x10\x10\x10\x10\x10\x10\x10\x10\
    \x10\x10\x10\x10\x10\x10\x10\x10\x10\x10\x10\x10\x10\x10\x10\x10\
    \x10\x10\x10\x10\x10\x10\x10\x10\x10\x10\x10\x10\x10\x10\x10\x10\
    \x10\x10\x10\x10\x10\x10\x10\x10\x10\x10\x10\x10\x10\x10\x10\x10\
    \x10\x10\x10\x10\x10\x10\x10\x10\x10\x10\x10\x10\x10\x10\x10\x10\
    \x10\x10\x10\x10\x10\x10\x10\x10\x10\x10\x10\x10\x10\x10\x10\x10\
    \x10\x10\x10\x10\x10\x10\x10\x10\x10\x10\x10\x10\x10\x10\x10\x10\
    \x10\x10\x10\x10\x10\x10\x10\x10\x10\x10\x10\x10\x10\x10\x10\x10";

/// The value of a digit.
fn value(b: u8) -> Option<u8>
    ensures { result ≡ value b }
{
    let value = VALUES[b as usize];
    if value < 16 { Some(value) } else { None }
}

/// The text without a space that it begins with.
fn past_space(text: &[u8]) -> &[u8]
    ensures { result.now ≡ past_space text.now }
{
    match text {
        [SPACE, after @ ..] => after,
        _ => text,
    }
}

/// The byte that the first two digits spell, and what follows them; or the place of the first of them that is wrong or missing.
fn first_pair(text: &[u8]) -> Result<(u8, &[u8]), usize>
    ensures spelled { IfOk result (λ pair. first_pair text.now ≡ Ok (pair.0, pair.1.now)) }
    ensures wrong { IfErr result (λ place. first_pair text.now ≡ Err place) }
{
    let [high, after @ ..] = text else {
        return Err(0);
    };
    let high = value(*high).ok_or(0usize)?;
    let [low, after @ ..] = after else {
        return Err(1);
    };
    let low = value(*low).ok_or(1usize)?;
    Ok((16 * high + low, after))
}

/// Puts the bytes that the line spells into `bytes`, which has none, or refuses it with the place of the first digit that is wrong or
/// missing.
// The bytes are not in the answer: taken out of a `Result`, they make a short line an eighth slower to read.
pub(crate) fn decode(line: &[u8], bytes: &mut ArrayVec<u8, MOST>) -> Result<(), Refusal>
    requires short { length line.now ≤ 200 }
    requires empty { bytes.old.items ≡ [] }
    ensures bytes { OnOk result (decoded (hex line.now) ≡ Ok bytes.new.items) }
    ensures wrong { IfErr result (λ refusal. decoded (hex line.now) ≡ Err refusal) }
{
    let mut rest = line;
    while !rest.is_empty() {
        let pair = if bytes.is_empty() {
            rest
        } else {
            past_space(rest)
        };
        match first_pair(pair) {
            Ok((byte, after)) => {
                bytes.push(byte);
                rest = after;
            }
            Err(right) => {
                let place = line.len() - pair.len() + right;
                return Err(Refusal::WrongDigit { place });
            }
        }
    }
    Ok(())
}
