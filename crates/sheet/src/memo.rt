//! What is known already of numbered things.
ghost use Rattle.std.specs.Prelude.{◌≡◌, Some, None, slice_index_or, slice_set};

/// What is known of thing n; none past the end.
// One call of the library with its default, named here for both memories.
pub fn recall<T: Copy>(known: &[Option<T>], n: usize) -> Option<T>
    ensures { result ≡ slice_index_or known.now n None }
{
    known.get(n).copied().unwrap_or(None)
}

/// Notes what is known of thing n; nothing past the end.
// By index: what a write through the slice's `get_mut` leaves is not known.
pub fn remember<T: Copy>(known: &mut [Option<T>], n: usize, value: T)
    ensures { known.new ≡ slice_set known.old n (Some value) }
{
    if n < known.len() {
        known[n] = Some(value);
    }
}
