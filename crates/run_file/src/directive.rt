//! What the numbers of one directive say.
ghost use Rattle.std.specs.Prelude.{◌≡◌};
ghost use Rattle.run_file.specs.Directive.{keyword_of, one_of, symbol_of, coefficient_of, entry_of, curve_of};

use plant::affine::Curve;
use plant::listed::{Entry, Values};
use run_file_error::Problem;

/// The names of the directives.
#[derive(Clone, Copy)]
pub(crate) enum Keyword {
    Listed,
    Affine,
    Entry,
    Curve,
    Start,
    Steps,
    Inputs,
}

/// The directive whose name the word is.
impl TryFrom<&[u8]> for Keyword {
    type Error = Problem;

    ghost try_from_gives = { λ word r. r ≡ keyword_of word.now };

    fn try_from(word: &[u8]) -> Result<Keyword, Problem> {
        match word {
            b"listed" => Ok(Keyword::Listed),
            b"affine" => Ok(Keyword::Affine),
            b"entry" => Ok(Keyword::Entry),
            b"curve" => Ok(Keyword::Curve),
            b"start" => Ok(Keyword::Start),
            b"steps" => Ok(Keyword::Steps),
            b"inputs" => Ok(Keyword::Inputs),
            _ => Err(Problem::UnknownDirective),
        }
    }
}

/// The number of a directive that takes just one.
pub(crate) fn one_of(numbers: &[u32]) -> Result<u32, Problem>
    ensures { result ≡ one_of numbers.now }
{
    match numbers {
        [] => Err(Problem::TooFewNumbers),
        [n] => Ok(*n),
        _ => Err(Problem::TooManyNumbers),
    }
}

// By a test, since no type ends at 31.
fn symbol_of(n: u32) -> Result<u8, Problem>
    ensures { result ≡ symbol_of n }
{
    if n < 32 {
        Ok(n as u8)
    } else {
        Err(Problem::SymbolTooLarge)
    }
}

fn coefficient_of(n: u32) -> Result<u16, Problem>
    ensures { result ≡ coefficient_of n }
{
    u16::try_from(n).map_err(|_| Problem::CoefficientTooLarge)
}

/// A symbol, a result and up to three values.
pub(crate) fn entry_of(numbers: &[u32]) -> Result<Entry, Problem>
    ensures { result ≡ entry_of numbers.now }
{
    let [s, result, values @ ..] = numbers else {
        return Err(Problem::TooFewNumbers);
    };
    let values = Values::try_from(values).map_err(|_| Problem::TooManyNumbers)?;
    Ok(Entry {
        symbol: symbol_of(*s)?,
        values,
        result: *result,
    })
}

/// A symbol and four coefficients.
pub(crate) fn curve_of(numbers: &[u32]) -> Result<Curve, Problem>
    ensures { result ≡ curve_of numbers.now }
{
    match numbers {
        [n, p, q, r, s] => Ok(Curve {
            symbol: symbol_of(*n)?,
            p: coefficient_of(*p)?,
            q: coefficient_of(*q)?,
            r: coefficient_of(*r)?,
            s: coefficient_of(*s)?,
        }),
        [_, _, _, _, _, ..] => Err(Problem::TooManyNumbers),
        _ => Err(Problem::TooFewNumbers),
    }
}
