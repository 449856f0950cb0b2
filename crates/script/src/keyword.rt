//! The first word of a line.
ghost use Rattle.std.specs.Prelude.{◌≡◌};
ghost use Rattle.script.specs.Keywords.{keyword_of};

use crate::error::Problem;

/// The words that a line begins with.
#[derive(Clone, Copy)]
pub(crate) enum Keyword {
    Take,
    Give,
    Strike,
    Merge,
    Keep,
    Verdict,
    Open,
}

impl TryFrom<&[u8]> for Keyword {
    type Error = Problem;

    ghost try_from_gives = { λ word r. r ≡ keyword_of word.now };

    fn try_from(word: &[u8]) -> Result<Keyword, Problem> {
        match word {
            b"take" => Ok(Keyword::Take),
            b"give" => Ok(Keyword::Give),
            b"strike" => Ok(Keyword::Strike),
            b"merge" => Ok(Keyword::Merge),
            b"keep" => Ok(Keyword::Keep),
            b"verdict" => Ok(Keyword::Verdict),
            b"open" => Ok(Keyword::Open),
            _ => Err(Problem::UnknownWord),
        }
    }
}
