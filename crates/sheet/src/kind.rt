//! The kinds of records: their letters, the lengths of their bodies and the most of each.
/// What a record is about, known by its letter.
#[derive(Clone, Copy, Debug, PartialEq, Eq)]
pub enum Kind {
    Bit,
    Symbol,
    Reading,
    Input,
    Term,
    Question,
    Claim,
    Formula,
    Choice,
    NextBit,
    NextReading,
    Invariant,
    Bound,
    End,
}
