//! How many inputs, and as many outputs, a switch or an arbiter has.

ghost use Rattle.std.specs.Prelude.{◌≤◌};

mod calls;

/// A number of ports from 2 to 8.
#[derive(Clone, Copy)]
pub struct PortCount {
    number: u8,
    ghost two: { 2 ≤ number },
    ghost eight: { number ≤ 8 },
}
