//! The numbers of a run file.
ghost use Rattle.std.specs.Prelude.{◌≡◌};
ghost use Rattle.run_file.specs.Text.{number_of};

use run_file_error::Problem;
use text_words::{NotNumber, number as small_number};

/// The number that the word writes.
pub(crate) fn number(word: &[u8]) -> Result<u32, Problem>
    ensures { result ≡ number_of word.now }
{
    match small_number(word, u32::MAX) {
        Ok(value) => Ok(value),
        Err(NotNumber::NotDecimal) => Err(Problem::NotANumber),
        Err(NotNumber::TooLarge) => Err(Problem::NumberTooLarge),
    }
}
