//! A sheet while it is read.
ghost use Rattle.std.specs.Prelude.{◌≡◌, map, vec_items};
ghost use Rattle.sheet.specs.Rules.{term_infos, formula_infos};
ghost use Rattle.sheet.specs.Stored.{term_in, term_info_in, formula_in, formula_info_in};

use sheet::Parts;

/// What the records read so far describe. What is stored with each term and formula is what the rules
/// say of it.
#[derive(Drop)]
pub(crate) struct Draft {
    pub(crate) parts: Parts,
    pub(crate) invariant: Option<u8>,
    pub(crate) bound: Option<u8>,
    ghost terms: { map term_info_in (vec_items parts.terms) ≡ term_infos (map term_in (vec_items parts.terms)) },
    ghost formulas: { map formula_info_in (vec_items parts.formulas) ≡ formula_infos (map formula_in (vec_items parts.formulas)) },
}
