//! What a list of values has at a number.
ghost use Rattle.std.specs.Prelude.{◌≡◌, slice_index};

/// The value of that number; past the end 0.
// One call of the library with its default, named here for terms, equations and readings.
pub(crate) fn value_at(values: &[u32], number: u8) -> u32
    ensures { result ≡ slice_index values.now number }
{
    values.get(number as usize).copied().unwrap_or(0)
}
