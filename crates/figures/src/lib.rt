//! Ten worked figures of headers and arbiters, as one theorem about the definitions.
#![tactic(auto)]

ghost use Rattle.figures.specs.Worked.{Figures};
ghost use Rattle.std.specs.Prelude.{◌≡◌};

/// How many figures are worked: all of them hold.
pub fn figures_hold() -> u8
    ensures figures { Figures }
    ensures count { result ≡ 10 }
{
    10
}
