//! The affine model: each symbol is a sum of multiples of its arguments, taken by a modulus.
ghost use Rattle.std.specs.Prelude.{◌≡◌, ℕ, ◌*◌, ◌^◌, ◌<◌, [], MatchResult, slice_index, find, ◌==◌};
ghost use Rattle.plant.specs.Affine.{curve_of, FirstCurve, sum, affine};
ghost use Rattle.std.specs.Option.{option_copied};
ghost use Rattle.std.specs.Int.NonZero.{non_zero_u32_get};
ghost use Rattle.plant.specs.Plant.{IsValue};
ghost use Rattle.plant.specs.declared.affine.Curve.{Curve};
ghost use Rattle.fault.specs.declared.ModelFault.TheVariants.{ZeroModulus};

use super::Model as PlantModel;
use fault::{Fault, ModelFault};
use std::num::NonZeroU32;

/// The coefficients of one symbol: p, q and r for its three arguments, and s alone.
#[derive(Clone, Copy, Debug, PartialEq, Eq)]
pub struct Curve {
    pub symbol: u8,
    pub p: u16,
    pub q: u16,
    pub r: u16,
    pub s: u16,
}

/// A model by lent curves: (p × a + q × b + r × c + s) mod m, by the first curve of the symbol.
#[derive(Clone, Copy, Debug)]
pub struct Affine<'a> {
    modulus: NonZeroU32,
    curves: &'a [Curve],
    ghost small: { IsValue (non_zero_u32_get modulus) },
}

impl<'a> Affine<'a> {
    ghost use Rattle.plant.specs.AffineModel.{meaning_of};

    pub fn new(modulus: u32, curves: &'a [Curve]) -> Result<Affine<'a>, Fault>
        ensures meaning { MatchResult result (λ model. (0 < modulus) × (meaning_of model ≡ affine modulus curves.now)) (λ fault. (modulus ≡ 0) × (fault ≡ Fault.Model ZeroModulus)) }
        ensures first { (symbol : ℕ) → FirstCurve curves.now symbol (curve_of curves.now symbol) }
    {
        let modulus = NonZeroU32::new(modulus).ok_or(Fault::Model(ModelFault::ZeroModulus))?;
        Ok(Affine { modulus, curves })
    }
}

/// The first curve of the symbol.
fn first_curve(curves: &[Curve], symbol: u8) -> Option<&Curve>
    ensures { option_copied result ≡ find (λ (c : Curve). c.symbol == symbol) curves.now }
{
    curves.iter().find(|curve| curve.symbol == symbol)
}

/// The same, or one of zeros.
fn curve_of(curves: &[Curve], symbol: u8) -> Curve
    ensures { result ≡ curve_of curves.now symbol }
{
    let zeros = Curve {
        symbol,
        p: 0,
        q: 0,
        r: 0,
        s: 0,
    };
    first_curve(curves, symbol).copied().unwrap_or(zeros)
}

/// The value at `i`; a missing one counts 0.
// One call of the library with its default, named here for the three arguments.
fn value_or_zero(values: &[u32], i: usize) -> u32
    ensures { result ≡ slice_index values.now i }
{
    values.get(i).copied().unwrap_or(0)
}

fn product(coefficient: u16, value: u32) -> u64
    ensures value { result ≡ coefficient * value }
    ensures bound { result < 2 ^ 48 }
{
    u64::from(coefficient) * u64::from(value)
}

/// The curve's sum at the values. The largest is below 2^50, so it does not wrap.
fn sum_at(curve: Curve, values: &[u32]) -> u64
    ensures { result ≡ sum curve values.now }
{
    product(curve.p, value_or_zero(values, 0))
        + product(curve.q, value_or_zero(values, 1))
        + product(curve.r, value_or_zero(values, 2))
        + u64::from(curve.s)
}

impl<'a> PlantModel for Affine<'a> {
    ghost use Rattle.plant.specs.AffineModel.{meaning_of, is_plant};

    ghost meaning = { meaning_of };

    ghost lenders = { λ _. [] };

    fn apply(&mut self, symbol: u8, values: &[u32]) -> u32 {
        let sum = sum_at(curve_of(self.curves, symbol), values);
        (sum % u64::from(self.modulus.get())) as u32
    }

    ghost plant = { is_plant };
}
