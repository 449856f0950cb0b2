//! From bytes to a sheet, or to the first fault.
ghost use Rattle.std.specs.Prelude.{◌≡◌, ◌<◌, ◌≤◌, true, false, ◌&&◌, List, length, IfOk, MatchOption, MatchResult};
ghost use Rattle.sheet.specs.Format.{letter};
ghost use Rattle.reader.specs.Canonical.{written_out};
ghost use Rattle.reader.specs.Law.{Describe, ReadAs, Refused};
ghost use Rattle.reader.specs.Outcome.{Accepted, complete, Failed, FaultyAt};
ghost use Rattle.reader.specs.Progress.{KindAt, NoKindAt, ReadTo, Ended};
ghost use Rattle.reader.specs.Drafts.{draft_of};
ghost use Rattle.sheet.specs.View.{sheet_of};
ghost use Rattle.sheet.specs.Lawful.{Lawful};
ghost use Rattle.sheet.specs.System.{System, nothing, smallest};

use crate::draft::Draft;
use fault::{Failure, Fault, Place, SheetFault};
use sheet::{Formula, Kind, Parts, Record, Sheet};
use std::alloc::{AllocError, Global};

// The kind of the record at the place, if it is whole.
fn kind_at(bytes: &[u8], at: usize) -> Result<Kind, SheetFault>
    ensures { MatchResult result (λ k. KindAt bytes.now at k) (λ f. NoKindAt bytes.now at f) }
{
    let letter = *bytes.get(at).ok_or(SheetFault::Truncated)?;
    let kind = Kind::of_letter(letter).ok_or(SheetFault::UnknownLetter)?;
    if bytes.len() - at - 1 < kind.body_length() {
        return Err(SheetFault::Truncated);
    }
    Ok(kind)
}

// At the end record: whether the sheet has all it needs, and nothing follows.
fn finish(bytes: &[u8], place: Place, draft: &Draft, records: &[Record]) -> Result<(), SheetFault>
    requires read { ReadTo bytes.now place draft.now records.now }
    requires end { KindAt bytes.now place.byte Kind.End }
    ensures { MatchResult result (λ _. Ended bytes.now draft.now records.now) (λ f. FaultyAt bytes.now records.now f place) }
{
    if !draft.is_complete() {
        return Err(SheetFault::Incomplete);
    }
    if place.byte + 1 < bytes.len() {
        return Err(SheetFault::TrailingBytes);
    }
    Ok(())
}

// Reads the record at the place, and answers the place of the next one, or none after the end record.
fn advance(
    bytes: &[u8],
    place: Place,
    draft: &mut Draft,
    records: &mut Vec<Record>,
) -> Result<Option<Place>, Failure>
    requires { ReadTo bytes.now place draft.old records.old.items }
    ensures { MatchResult result (λ o. MatchOption o (Ended bytes.now draft.new records.new.items) (λ p. ReadTo bytes.now p draft.new records.new.items × (place.byte < p.byte) × (p.byte ≤ length bytes.now))) (λ e. Failed bytes.now records.new.items e) }
{
    let at = |fault| Fault::Sheet(fault, place);
    let kind = kind_at(bytes, place.byte).map_err(at)?;
    if kind == Kind::End {
        finish(bytes, place, draft, records.as_slice()).map_err(at)?;
        return Ok(None);
    }
    let start = place.byte + 1;
    let end = start + kind.body_length();
    let record = draft.judge(kind, &bytes[start..end]).map_err(at)?;
    draft.add(record)?;
    records.push(record)?;
    Ok(Some(Place {
        record: place.record + 1,
        byte: end,
    }))
}

impl Draft {
    fn new(heap: Global) -> Draft
        ensures { draft_of result ≡ nothing }
    {
        let parts = Parts {
            bits: Vec::new(heap),
            symbols: Vec::new(heap),
            readings: Vec::new(heap),
            inputs: 0,
            terms: Vec::new(heap),
            questions: Vec::new(heap),
            claims: Vec::new(heap),
            formulas: Vec::new(heap),
            choices: Vec::new(heap),
        };
        Draft {
            parts,
            invariant: None,
            bound: None,
        }
    }

    fn into_sheet(self) -> Sheet
        requires whole { complete (draft_of self) ≡ true }
        requires lawful { Lawful (draft_of self) }
        ensures { sheet_of result ≡ draft_of self }
    {
        let Draft {
            parts,
            invariant,
            bound,
        } = self;
        Sheet {
            parts,
            invariant: invariant.unwrap(),
            bound: bound.unwrap(),
        }
    }
}

/// Reads a sheet. `records` then holds the records before the first fault, or all before the end record.
pub fn read_records(bytes: &[u8], heap: Global, records: &mut Vec<Record>) -> Result<Sheet, Failure>
    ensures { MatchResult result (λ s. Accepted bytes.now records.new.items (sheet_of s)) (λ e. Failed bytes.now records.new.items e) }
{
    records.clear();
    let mut draft = Draft::new(heap);
    let mut place = Place { record: 0, byte: 0 };
    while let Some(next) = advance(bytes, place, &mut draft, records)? {
        place = next;
    }
    Ok(draft.into_sheet())
}

/// Reads a sheet into the caller's place, which keeps its earlier sheet unless the bytes are a whole one.
/// The first clause says which records were read and which fault was met first, and the second what that
/// is for: a sheet is read exactly when the bytes describe it.
pub fn read(bytes: &[u8], heap: Global, place: &mut Sheet) -> Result<(), Failure>
    ensures first { MatchResult result (λ _. (xs : List Record) × Accepted bytes.now xs (sheet_of place.new)) (λ e. ((xs : List Record) × Failed bytes.now xs e) × (place.new ≡ place.old)) }
    ensures exact { MatchResult result (λ _. ReadAs bytes.now (sheet_of place.new)) (λ e. Refused bytes.now e) }
    ensures back { (s : System) → Lawful s → complete s ≡ true → Describe (written_out s) s }
{
    let mut records = Vec::new(heap);
    *place = read_records(bytes, heap, &mut records)?;
    Ok(())
}

/// The sheet that a place holds at first: the invariant is true, and the height bound is 0.
pub fn smallest(heap: Global) -> Result<Sheet, AllocError>
    ensures { IfOk result (λ s. sheet_of s ≡ smallest) }
{
    let mut draft = Draft::new(heap);
    draft.add(Record::Formula(Formula::True))?;
    draft.add(Record::Invariant(0))?;
    draft.add(Record::Bound(0))?;
    Ok(draft.into_sheet())
}
