//! What is fixed by a record's letter.
ghost use Rattle.std.specs.Prelude.{◌≡◌, MatchOption, ◌≢◌};
ghost use Rattle.sheet.specs.Format.{letter, body_length, kind_of};
ghost use Rattle.sheet.specs.Rules.{most};

use crate::kind::Kind;
use crate::syntax::Record;

impl Kind {
    /// The kind that a letter begins.
    // An `Option` and no `TryFrom`, since there is nothing to say of another letter.
    pub fn of_letter(byte: u8) -> Option<Kind>
        ensures { MatchOption result ((k : Kind) → letter k ≢ byte) (λ k. letter k ≡ byte) }
    {
        match byte as char {
            'B' => Some(Kind::Bit),
            'F' => Some(Kind::Symbol),
            'R' => Some(Kind::Reading),
            'I' => Some(Kind::Input),
            'T' => Some(Kind::Term),
            'Q' => Some(Kind::Question),
            'C' => Some(Kind::Claim),
            'L' => Some(Kind::Formula),
            'K' => Some(Kind::Choice),
            'N' => Some(Kind::NextBit),
            'M' => Some(Kind::NextReading),
            'V' => Some(Kind::Invariant),
            'H' => Some(Kind::Bound),
            'E' => Some(Kind::End),
            _ => None,
        }
    }

    /// How many bytes follow the letter.
    pub fn body_length(self) -> usize
        ensures { result ≡ body_length self }
    {
        match self {
            Kind::Input | Kind::End => 0,
            Kind::Bit | Kind::Symbol | Kind::Invariant | Kind::Bound => 1,
            Kind::Reading | Kind::Question | Kind::Claim | Kind::NextBit | Kind::NextReading => 2,
            Kind::Formula => 3,
            Kind::Choice => 4,
            Kind::Term => 5,
        }
    }

    /// The most of this letter that a sheet has, where the letter has one.
    pub fn most(self) -> Option<usize>
        ensures { result ≡ most self }
    {
        match self {
            Kind::Bit => Some(16),
            Kind::Symbol => Some(32),
            Kind::Reading | Kind::Question => Some(6),
            Kind::Input | Kind::Claim => Some(4),
            Kind::Term | Kind::Formula | Kind::Choice => Some(64),
            Kind::NextBit | Kind::NextReading | Kind::Invariant | Kind::Bound | Kind::End => None,
        }
    }
}

impl Record {
    /// The kind that the record is of.
    // Not derived: a kind stands for its letter, which begins a record and the end alike.
    pub fn kind(&self) -> Kind
        ensures { result ≡ kind_of self.now }
    {
        match self {
            Record::Bit(_) => Kind::Bit,
            Record::Symbol(_) => Kind::Symbol,
            Record::Reading(_) => Kind::Reading,
            Record::Input => Kind::Input,
            Record::Term(_) => Kind::Term,
            Record::Question(_) => Kind::Question,
            Record::Claim(_) => Kind::Claim,
            Record::Formula(_) => Kind::Formula,
            Record::Choice(_) => Kind::Choice,
            Record::NextBit(_, _) => Kind::NextBit,
            Record::NextReading(_, _) => Kind::NextReading,
            Record::Invariant(_) => Kind::Invariant,
            Record::Bound(_) => Kind::Bound,
        }
    }
}
