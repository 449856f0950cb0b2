//! The readings of a configuration.
ghost use Rattle.std.specs.Prelude.{◌≡◌, map, slice_index};
ghost use Rattle.sheet.specs.Runs.{start_value, start_reading, or_kept, numbered};
ghost use Rattle.sheet.specs.View.{sheet_of};
ghost use Rattle.bench.specs.Outcome.{Same};
ghost use Rattle.bench.specs.Values.{Kept};

use crate::places::value_at;
use plant::Model;
use sheet::{Reading, Sheet, Start};
use std::array;

fn start_value<M: Model>(model: &mut M, start: Start, starts: &[u32]) -> u32
    ensures answer { result ≡ start_value (M.meaning model.old) starts.now start }
    ensures kept { Kept M.meaning M.lenders model.old model.new }
{
    match start {
        Start::Name(name) => value_at(starts, name),
        Start::Constant(symbol) => model.apply(symbol, &[]),
    }
}

/// The start of every reading; past the sheet's readings all are 0. The constants are asked of the model
/// reading by reading.
pub(crate) fn start_readings<M: Model>(sheet: &Sheet, model: &mut M, starts: &[u32]) -> [u32; 6]
    ensures values { Same 0 result (map (start_reading (M.meaning model.old) starts.now) (sheet_of sheet.now).readings) }
    ensures kept { Kept M.meaning M.lenders model.old model.new }
{
    let readings = sheet.parts.readings.as_slice();
    let mut out = [0; 6];
    // A loop, since `from_fn` would have to say what each call leaves of the model.
    for (k, reading) in readings.iter().enumerate() {
        out[k] = start_value(model, reading.start, starts);
    }
    out
}

// The next value of a reading that was `old`. The terms that the choices come to and the values are made apart.
// Bits have a near twin in `sheet`: one function for both would be given the default, the field and the
// lookup, and be longer.
fn next_of(reading: Reading, old: u32, chosen: &[u8], values: &[u32]) -> u32
    ensures { result ≡ or_kept (λ k. slice_index values.now (slice_index chosen.now k)) old reading.next }
{
    reading.next.map_or(
        old,
        |choice| value_at(values, chosen.get(choice as usize).copied().unwrap_or(0)),
    )
}

// The next value of reading n, and 0 past the last.
fn next_at(readings: &[Reading], old: &[u32], chosen: &[u8], values: &[u32], n: usize) -> u32
    ensures { result ≡ slice_index (numbered (λ n r. or_kept (λ k. slice_index values.now (slice_index chosen.now k)) (slice_index old.now n) r.next) 0 readings.now) n }
{
    readings.get(n).map_or(
        0,
        |reading| next_of(*reading, old.get(n).copied().unwrap_or(0), chosen, values),
    )
}

/// The readings after a step from the old ones, by the terms that the choices come to; past the sheet's
/// readings all are 0.
pub(crate) fn next_readings(sheet: &Sheet, old: &[u32], chosen: &[u8], values: &[u32]) -> [u32; 6]
    ensures { Same 0 result (numbered (λ n r. or_kept (λ k. slice_index values.now (slice_index chosen.now k)) (slice_index old.now n) r.next) 0 (sheet_of sheet.now).readings) }
{
    let readings = sheet.parts.readings.as_slice();
    array::from_fn(|n| next_at(readings, old, chosen, values, n))
}
