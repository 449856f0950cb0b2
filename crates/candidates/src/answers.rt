//! The answers of a branch.
ghost use Rattle.std.specs.Prelude.{◌≡◌, ℕ, ◌≤◌, take};
ghost use Rattle.forms.specs.Candidate.{branch_answers};

use std::array;

/// The branch's answers: bit i is set where question i is true.
pub(crate) fn answers_of(branch: u8) -> [bool; 6]
    ensures { (count : ℕ) → count ≤ 6 → take count result ≡ branch_answers count branch }
{
    array::from_fn(|i| (branch >> i) % 2 == 1)
}
