//! A whole sheet, which is lawful by its type.
ghost use Rattle.std.specs.Prelude.{Some};
ghost use Rattle.sheet.specs.Lawful.{Lawful};
ghost use Rattle.sheet.specs.Stored.{system_of, Informed};

use crate::parts::Parts;

/// A whole sheet: its numbered things, the formula of its invariant and its height bound.
#[derive(Drop)]
pub struct Sheet {
    pub parts: Parts,
    pub invariant: u8,
    pub bound: u8,
    ghost lawful: { ∥ Lawful (system_of parts (Some invariant) (Some bound)) ∥₁ },
    ghost informed: { ∥ Informed parts ∥₁ },
}
