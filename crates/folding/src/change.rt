//! A change of terms.

/// A change of terms, throughout.
// Data and no closure: the contracts say what a change makes of whole terms, and a closure would say where it stops.
#[derive(Clone, Copy)]
pub(crate) enum Change {
    /// The term at a place becomes a name.
    Replace(u16, u8),
    /// Each name becomes the one that stands at its number.
    Rename([u8; 32]),
}
