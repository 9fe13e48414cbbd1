//! The grants to a table of requests at a turn.

ghost use Rattle.std.specs.Prelude.{◌≡◌, ◌*◌, ◌/◌, ◌%◌, ◌<◌};
ghost use Rattle.grants.specs.Diagonal.{diagonal_granted};
ghost use Rattle.grants.specs.Ripple.{ripple_granted};
ghost use Rattle.pairs.specs.Tables.{holds, table_of, within};

use crate::port_count::PortCount;
use pairs::{Ports, Table};

/// What the diagonal arbiter grants at the turn, which counts modulo the number of ports.
pub fn diagonal_grants(ports: PortCount, turn: usize, requests: Table) -> Table
    ensures { result ≡ table_of (within ports.number (diagonal_granted (holds requests) ports.number (turn % ports.number))) }
{
    let n = ports.number() as usize;
    let first = turn % n;
    let mut grants = Table::empty();
    // The pairs whose input and output are both free.
    let mut free = Table::square(n);
    'diagonals: for k in 0..n {
        let wanted = requests.and(free);
        if wanted.is_empty() {
            return grants;
        }
        let sum = wrapped(first + k, n);
        let diagonal = Table::of_sum(sum).or(Table::of_sum(sum + n));
        // No two pairs of a diagonal share a port, so all of them that are free are granted at once.
        let line = wanted.and(diagonal);
        grants = grants.or(line);
        free = free.minus(line.crossing());
    }
    grants
}

/// What the ripple arbiter grants at the turn, which counts modulo the number of pairs.
pub fn ripple_grants(ports: PortCount, turn: usize, requests: Table) -> Table
    ensures { result ≡ table_of (within ports.number (ripple_granted (holds requests) ports.number (turn / ports.number % ports.number) (turn % ports.number))) }
{
    let n = ports.number() as usize;
    let first_input = turn / n % n;
    let first_output = turn % n;
    let mut grants = Table::empty();
    let mut free = Ports::below(n);
    'rows: for u in 0..n {
        let input = wrapped(u + first_input, n);
        // The first cell of the row whose output is free grants, and the others of the row do not.
        if let Some(output) = requests.outputs(input).and(free).first_from(first_output) {
            grants = grants.with(input, output);
            free = free.without(output);
        }
    }
    grants
}

/// `x` modulo `n`, for `x` below twice `n`.
fn wrapped(x: usize, n: usize) -> usize
    requires { x < 2 * n }
    ensures { result ≡ x % n }
{
    if x < n { x } else { x - n }
}
