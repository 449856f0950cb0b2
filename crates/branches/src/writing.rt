//! Answers, rows, conditions and renamings as they are printed.
ghost use Rattle.std.specs.Iterator.{IsFinite};

use candidates::Conditions;
use fault::{Fault, TableFault};
use folding::Renaming;
use rows::{RowRecord, bits_of, front, readings_of};
use sheet::Sheet;
use std::fmt;
use terms::{Condition, Node, Sign, TermRecord};

/// What a call answers, or the fault for which there is no answer.
#[derive(Drop)]
pub(crate) struct Answer<T>(pub(crate) Result<T, TableFault>);

impl<T: fmt::Display> fmt::Display for Answer<T> {
    fn fmt<W: fmt::Write>(&self, f: &mut fmt::Formatter<W>) -> fmt::Result {
        match &self.0 {
            Ok(answer) => write!(f, "{answer}"),
            Err(fault) => {
                let number = Fault::from(*fault).number();
                write!(f, "fault {number}")
            }
        }
    }
}

// `none`, or the items with the separator between two. Not `itertools`' `format`, which holds its items in memory.
fn write_list<T: fmt::Display + Drop, I: Iterator<Item = T> + Drop, W: fmt::Write>(
    f: &mut fmt::Formatter<W>,
    mut items: I,
    separator: &str,
) -> fmt::Result
    requires can { I.can_next items }
    requires ends { IsFinite (I.remaining items) }
{
    let Some(first) = items.next() else {
        return f.write_str("none");
    };
    write!(f, "{first}")?;
    for item in items {
        write!(f, "{separator}{item}")?;
    }
    Ok(())
}

// The term at a place of the bank; nothing where there is no such place. The arguments of a term are before it.
fn write_term<W: fmt::Write>(
    f: &mut fmt::Formatter<W>,
    bank: &[TermRecord],
    place: u16,
) -> fmt::Result {
    let place = place as usize;
    let Some(record) = bank.get(place) else {
        return Ok(());
    };
    let before = &bank[..place];
    match record.node {
        Node::Name(x) => write!(f, "x{x}"),
        Node::Constant(s) => write!(f, "s{s}"),
        Node::Unary(s, a) => {
            write!(f, "s{s}(")?;
            write_term(f, before, a)?;
            f.write_str(")")
        }
        Node::Binary(s, a, b) => {
            write!(f, "s{s}(")?;
            write_term(f, before, a)?;
            f.write_str(",")?;
            write_term(f, before, b)?;
            f.write_str(")")
        }
        Node::Ternary(s, a, b, c) => {
            write!(f, "s{s}(")?;
            write_term(f, before, a)?;
            f.write_str(",")?;
            write_term(f, before, b)?;
            f.write_str(",")?;
            write_term(f, before, c)?;
            f.write_str(")")
        }
    }
}

/// The term at a place of a bank.
#[derive(Clone, Copy)]
struct TermView<'a> {
    bank: &'a [TermRecord],
    place: u16,
}

impl fmt::Display for TermView<'_> {
    // A function goes down the term, since no proof is made of a `write!` that leads back to its own `fmt`.
    fn fmt<W: fmt::Write>(&self, f: &mut fmt::Formatter<W>) -> fmt::Result {
        write_term(f, self.bank, self.place)
    }
}

/// A condition over a bank's terms.
#[derive(Clone, Copy)]
struct ConditionView<'a> {
    bank: &'a [TermRecord],
    condition: Condition,
}

impl fmt::Display for ConditionView<'_> {
    fn fmt<W: fmt::Write>(&self, f: &mut fmt::Formatter<W>) -> fmt::Result {
        let bank = self.bank;
        let place = self.condition.left;
        let left = TermView { bank, place };
        let place = self.condition.right;
        let right = TermView { bank, place };
        match self.condition.sign {
            Sign::Equal => write!(f, "{left} = {right}"),
            Sign::Different => write!(f, "{left} # {right}"),
        }
    }
}

/// Conditions over a bank's terms.
#[derive(Clone, Copy)]
pub(crate) struct ConditionsView<'a> {
    pub(crate) bank: &'a [TermRecord],
    pub(crate) conditions: Conditions,
}

impl fmt::Display for ConditionsView<'_> {
    fn fmt<W: fmt::Write>(&self, f: &mut fmt::Formatter<W>) -> fmt::Result {
        let bank = self.bank;
        let used = front(&self.conditions.list, self.conditions.used as usize);
        let views = used.iter().map(|condition| ConditionView {
            bank,
            condition: *condition,
        });
        write_list(f, views, ", ")
    }
}

/// A row's bits, its readings' terms and its conditions.
#[derive(Clone, Copy)]
pub(crate) struct RowView<'a> {
    pub(crate) sheet: &'a Sheet,
    pub(crate) bank: &'a [TermRecord],
    pub(crate) row: RowRecord,
}

impl fmt::Display for RowView<'_> {
    fn fmt<W: fmt::Write>(&self, f: &mut fmt::Formatter<W>) -> fmt::Result {
        let bank = self.bank;
        let bits = front(&self.row.bits, bits_of(self.sheet));
        let vector = front(&self.row.vector, readings_of(self.sheet));
        f.write_str("bits ")?;
        write_list(f, bits.iter().map(|bit| u8::from(*bit)), " ")?;
        f.write_str(" readings ")?;
        let terms = vector.iter().map(|place| TermView {
            bank,
            place: *place,
        });
        write_list(f, terms, " ")?;
        let conditions = ConditionsView {
            bank,
            conditions: Conditions {
                list: self.row.conditions,
                used: self.row.used,
            },
        };
        write!(f, " conditions {conditions}")
    }
}

/// What a name becomes.
#[derive(Clone, Copy)]
struct Becoming {
    name: u32,
    to: u8,
}

impl fmt::Display for Becoming {
    fn fmt<W: fmt::Write>(&self, f: &mut fmt::Formatter<W>) -> fmt::Result {
        let name = self.name;
        let to = self.to;
        write!(f, "x{name} to x{to}")
    }
}

/// Whether a row takes a form, with what each of its names becomes then.
#[derive(Clone, Copy)]
pub(crate) struct Taking {
    pub(crate) names: u32,
    pub(crate) renaming: Option<Renaming>,
}

impl fmt::Display for Taking {
    fn fmt<W: fmt::Write>(&self, f: &mut fmt::Formatter<W>) -> fmt::Result {
        let Some(renaming) = self.renaming else {
            return f.write_str("no");
        };
        f.write_str("yes renaming ")?;
        let names = self.names;
        let becoming = (0..32u32)
            .zip(renaming.to.iter())
            .filter(|(x, _)| names.wrapping_shr(*x) % 2 == 1)
            .map(|(x, to)| Becoming { name: x, to: *to });
        write_list(f, becoming, ", ")
    }
}
