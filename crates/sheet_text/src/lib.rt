//! The text that lists a sheet: a line for each record that was read, and a line for the outcome.
#![tactic(auto)]

ghost use Rattle.std.specs.Prelude.{◌≡◌, ◌+◌, ◌≤◌, List, ◌++◌, length, take, drop, IfOk, string_bytes, codes, OnOk, slice_index};
ghost use Rattle.fault.specs.Values.{text_of};
ghost use Rattle.sheet.specs.Format.{body_length, written_all};
ghost use Rattle.sheet_text.specs.Lines.{numbers_of, line_of, lines_of, ok_line, Listed, Front};

use fault::{Failure, Fault};
use reader::read_records;
use sheet::{Kind, Record};
use std::alloc::{AllocError, Global};

// Each number after a space. No `Display`, here and below, which this crate could give only to a type around the bytes
// or around a record with its place.
fn push_numbers(text: &mut String, body: &[u8]) -> Result<(), AllocError>
    ensures { OnOk result (string_bytes text.new ≡ string_bytes text.old ++ numbers_of body.now) }
{
    for b in body {
        write!(text, " {b}")?;
    }
    Ok(())
}

// The line of the record with this number, at this place.
fn push_line(
    text: &mut String,
    number: usize,
    place: usize,
    letter: u8,
    body: &[u8],
) -> Result<(), AllocError>
    ensures { OnOk result (string_bytes text.new ≡ string_bytes text.old ++ line_of number place letter body.now) }
{
    let kind = letter as char;
    write!(text, "record {number} byte {place} {kind}")?;
    push_numbers(text, body)?;
    text.push_str("\n")?;
    Ok(())
}

// The line of a record that stands at the place, and the place after it.
fn push_record(
    text: &mut String,
    bytes: &[u8],
    number: usize,
    place: usize,
    kind: Kind,
) -> Result<usize, AllocError>
    requires { place + 1 + body_length kind ≤ length bytes.now }
    ensures { IfOk result (λ p. (p ≡ place + 1 + body_length kind) × (string_bytes text.new ≡ string_bytes text.old ++ line_of number place (slice_index bytes.now place) (take (body_length kind) (drop (place + 1) bytes.now)))) }
{
    let start = place + 1;
    let end = start + kind.body_length();
    push_line(text, number, place, bytes[place], &bytes[start..end])?;
    Ok(end)
}

/// The room that a text begins with, for the front of its first line. It doubles from there.
const FIRST_ROOM: usize = "record 0 byte 0 B".len();

// The bytes of a sheet, and the records that were read, which stand at their front.
#[derive(Drop)]
struct ReadRecords<'a> {
    bytes: &'a [u8],
    records: &'a [Record],
    ghost front: { Front bytes.now records.now },
}

impl<'a> ReadRecords<'a> {
    // The lines of the records, and the place after them.
    fn push_records(&self, text: &mut String) -> Result<usize, AllocError>
        ensures { IfOk result (λ p. (p ≡ length (written_all self.now.records.now)) × (string_bytes text.new ≡ string_bytes text.old ++ lines_of 0 0 self.now.records.now)) }
    {
        let mut place = 0;
        for (number, record) in self.records.iter().enumerate() {
            place = push_record(text, self.bytes, number, place, record.kind())?;
        }
        Ok(place)
    }

    // The listing of a whole sheet.
    fn whole(&self, heap: Global) -> Result<String, AllocError>
        ensures { IfOk result (λ t. string_bytes t ≡ lines_of 0 0 self.now.records.now ++ ok_line (length self.now.records.now) (length (written_all self.now.records.now))) }
    {
        let mut text = String::with_capacity(heap, FIRST_ROOM)?;
        let place = self.push_records(&mut text)?;
        let number = self.records.len();
        push_line(&mut text, number, place, b'E', &[])?;
        let count = number as u128 + 1;
        writeln!(text, "sheet ok records {count}")?;
        Ok(text)
    }

    // The listing of a sheet that has a fault after these records.
    fn faulty(&self, heap: Global, fault: Fault) -> Result<String, AllocError>
        ensures { IfOk result (λ t. string_bytes t ≡ lines_of 0 0 self.now.records.now ++ (text_of fault ++ codes "\n")) }
    {
        let mut text = String::with_capacity(heap, FIRST_ROOM)?;
        self.push_records(&mut text)?;
        writeln!(text, "{fault}")?;
        Ok(text)
    }
}

/// Lists the sheet in the bytes: each record before the end or the first fault, and the outcome.
pub fn listing(heap: Global, bytes: &[u8]) -> Result<String, AllocError>
    ensures { IfOk result (λ t. Listed bytes.now (string_bytes t)) }
{
    let mut records = Vec::new(heap);
    let outcome = read_records(bytes, heap, &mut records);
    let records = records.as_slice();
    // A refusal is printed, so nothing is passed on.
    match outcome {
        Ok(_) => ReadRecords { bytes, records }.whole(heap),
        Err(Failure::Fault(fault)) => ReadRecords { bytes, records }.faulty(heap, fault),
        // Want of memory has no value to pass on.
        Err(Failure::Memory) => Err(AllocError),
    }
}
