//! The listed model: entries that say a symbol's value at values, and a default for all else.
ghost use Rattle.std.specs.Prelude.{◌≡◌, ℕ, List, [], true, find};
ghost use Rattle.std.specs.Option.{option_copied};
ghost use Rattle.plant.specs.Listed.{values_of, fits, listed, FirstFitting, SmallResults};
ghost use Rattle.plant.specs.Plant.{IsValue};

use super::Model as PlantModel;

/// Up to three values.
// Like `sheet::Args` over other numbers: `plant` stands on no sheet, and a crate for one enum would be longer.
#[derive(Clone, Copy, Debug, PartialEq, Eq)]
pub enum Values {
    Zero,
    One(u32),
    Two(u32, u32),
    Three(u32, u32, u32),
}

/// A list that is too long for `Values`.
#[derive(Clone, Copy, Debug, PartialEq, Eq)]
pub struct TooManyValues;

impl TryFrom<&[u32]> for Values {
    type Error = TooManyValues;

    ghost try_from_gives = { λ list r. r ≡ values_of list.now };

    fn try_from(list: &[u32]) -> Result<Values, TooManyValues> {
        match list {
            [] => Ok(Values::Zero),
            [a] => Ok(Values::One(*a)),
            [a, b] => Ok(Values::Two(*a, *b)),
            [a, b, c] => Ok(Values::Three(*a, *b, *c)),
            _ => Err(TooManyValues),
        }
    }
}

/// One symbol's value at one list of values.
#[derive(Clone, Copy, Debug, PartialEq, Eq)]
pub struct Entry {
    pub symbol: u8,
    pub values: Values,
    pub result: u32,
}

impl Entry {
    /// Whether this entry is for the symbol at the values.
    pub fn fits(&self, symbol: u8, values: &[u32]) -> bool
        ensures { result ≡ fits symbol values.now self.now }
    {
        self.symbol == symbol && Values::try_from(values) == Ok(self.values)
    }
}

/// Whether a number is a value: each `u32` is.
fn is_value(number: u32) -> bool
    ensures always { result ≡ true }
    ensures small { IsValue number }
{
    number <= u32::MAX
}

/// Whether each result is a value: it is, by its type, and here a proof learns it of all of them at once.
fn has_values(entries: &[Entry]) -> bool
    ensures always { result ≡ true }
    ensures small { SmallResults entries.now }
{
    for entry in entries {
        if !is_value(entry.result) {
            return false;
        }
    }
    true
}

/// A model by lent entries: the first that fits answers, else the default.
#[derive(Clone, Copy, Debug)]
pub struct Listed<'a> {
    default: u32,
    entries: &'a [Entry],
    ghost small_default: { IsValue default },
    ghost small_results: { SmallResults entries.now },
}

impl<'a> Listed<'a> {
    ghost use Rattle.plant.specs.ListedModel.{meaning_of};

    pub fn new(default: u32, entries: &'a [Entry]) -> Listed<'a>
        ensures meaning { meaning_of result ≡ listed default entries.now }
        ensures first { (symbol : ℕ) (values : List ℕ) → FirstFitting default entries.now symbol values (meaning_of result symbol values) }
    {
        prove!(has_values(entries));
        Listed { default, entries }
    }
}

/// The first entry that fits.
fn first_entry<'a>(entries: &'a [Entry], symbol: u8, values: &[u32]) -> Option<&'a Entry>
    ensures { option_copied result ≡ find (fits symbol values.now) entries.now }
{
    entries.iter().find(|entry| entry.fits(symbol, values))
}

fn first_fitting(default: u32, entries: &[Entry], symbol: u8, values: &[u32]) -> u32
    ensures { result ≡ listed default entries.now symbol values.now }
{
    first_entry(entries, symbol, values).map_or(default, |entry| entry.result)
}

impl<'a> PlantModel for Listed<'a> {
    ghost use Rattle.plant.specs.ListedModel.{meaning_of, is_plant};

    ghost meaning = { meaning_of };

    ghost lenders = { λ _. [] };

    fn apply(&mut self, symbol: u8, values: &[u32]) -> u32 {
        first_fitting(self.default, self.entries, symbol, values)
    }

    ghost plant = { is_plant };
}
