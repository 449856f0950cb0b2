//! Names for the inputs.
ghost use Rattle.std.specs.Prelude.{◌≡◌, ℕ, ◌<◌, ◌≤◌, take, Some, None, MatchOption, slice_index};
ghost use Rattle.forms.specs.Candidate.{names_for};
ghost use Rattle.rows.specs.Names.{is_in};

use rows::lowest_free;

/// The lowest names that are not taken, one for each input in order.
pub(crate) fn input_names(taken: u32, inputs: usize) -> Option<[u8; 4]>
    requires { inputs ≤ 4 }
    ensures { MatchOption result (names_for inputs (is_in taken) ≡ None) (λ out. (names_for inputs (is_in taken) ≡ Some (take inputs out)) × ((k : ℕ) → slice_index out k < 32)) }
{
    let mut out = [0; 4];
    let mut names = taken;
    for slot in &mut out[..inputs] {
        let name = lowest_free(names)?;
        *slot = name;
        names |= 1u32 << name;
    }
    Some(out)
}
