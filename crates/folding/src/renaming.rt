//! What matching finds.

/// A renaming of a row's names: name x becomes name `to[x]`.
#[derive(Clone, Copy)]
pub struct Renaming {
    pub to: [u8; 32],
}
