//! The answers to questions and claims.
ghost use Rattle.std.specs.Prelude.{◌≡◌, ◌≤◌, false, length, slice_index_or};
ghost use Rattle.sheet.specs.Truth.{equal, answers};
ghost use Rattle.bench.specs.Outcome.{Same};

use crate::places::value_at;
use sheet::Equation;
use std::array;

fn is_equal(equation: Equation, values: &[u32]) -> bool
    ensures { result ≡ equal values.now equation }
{
    value_at(values, equation.left) == value_at(values, equation.right)
}

// The answer to equation n, and false past the last.
fn answer_at(equations: &[Equation], values: &[u32], n: usize) -> bool
    ensures { result ≡ slice_index_or (answers values.now equations.now) n false }
{
    equations
        .get(n)
        .is_some_and(|equation| is_equal(*equation, values))
}

/// Whether the two terms of each equation are equal; past the equations all are false.
pub(crate) fn answer<const N: usize>(equations: &[Equation], values: &[u32]) -> [bool; N]
    requires { length equations.now ≤ N }
    ensures { Same false result (answers values.now equations.now) }
{
    array::from_fn(|n| answer_at(equations, values, n))
}
