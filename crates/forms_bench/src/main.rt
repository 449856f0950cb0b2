//! Makes the form of a large row at height 2, and prints how many terms the bank has before and after, and how many
//! conditions the form has. With a number as its argument it repeats that so many times, and prints the time of one
//! form, that of one test whether the memory is a bank, and their ratio.
#![tactic(auto)]

mod large;

use anyhow::{anyhow, ensure};
use banks::is_bank;
use fault::TableFault;
use folding::form;
use large::large_row;
use reader::{read, smallest};
use rows::RowRecord;
use sheet::Sheet;
use std::env;
use std::time::Instant;
use terms::{Count, MOST_TERMS, TermRecord};

/// Six readings, and an invariant that is always true.
const SHEET: &[u8] =
    b"R\x00\x00R\x00\x01R\x00\x02R\x00\x03R\x00\x04R\x00\x05L\x00\x00\x00V\x00H\x02E";

const HEIGHT: u8 = 2;

/// Makes the form so many times, each time in the bank as it was; how many terms it added.
fn repeat_forms(
    sheet: &Sheet,
    bank: &mut [TermRecord],
    count: Count,
    row: &RowRecord,
    times: u32,
) -> Result<u64, TableFault> {
    let mut added = 0u64;
    for _ in 0..times {
        let mut work = count;
        form(sheet, bank, &mut work, row, HEIGHT)?;
        added = added.wrapping_add(u64::from(work.terms));
    }
    Ok(added)
}

/// Tests the memory so many times, every second time without its last term; whether it was a bank each time. The count
/// stands beside, as `is_bank` takes it.
fn repeat_tests(bank: &[TermRecord], terms: usize, times: u32) -> bool {
    (0..times).all(|k| is_bank(bank, terms.saturating_sub((k % 2) as usize)))
}

/// Nanoseconds for each of so many.
fn each(nanos: u128, times: u32) -> u128 {
    nanos / u128::from(times.max(1))
}

fn print_times(
    rt: &HostRuntime,
    sheet: &Sheet,
    bank: &mut [TermRecord],
    count: Count,
    row: &RowRecord,
    times: u32,
) -> anyhow::Result<()> {
    let start = Instant::now(rt)?;
    repeat_forms(sheet, bank, count, row, times).map_err(|_| anyhow!("the row is refused"))?;
    let formed = each(start.elapsed(rt)?.as_nanos(), times);
    let start = Instant::now(rt)?;
    ensure!(
        repeat_tests(bank, count.terms as usize, times),
        "the memory is no bank"
    );
    let tested = each(start.elapsed(rt)?.as_nanos(), times);
    let ratio = formed / tested.max(1);
    println!(rt; "nanoseconds per form {formed} per bank test {tested} ratio {ratio}")?;
    Ok(())
}

fn measure(rt: &HostRuntime) -> anyhow::Result<()> {
    let heap = rt.alloc();
    let mut sheet = smallest(heap)?;
    read(SHEET, heap, &mut sheet).map_err(|_| anyhow!("the sheet has a fault"))?;
    let mut bank = [TermRecord::BLANK; MOST_TERMS];
    let mut count = Count { terms: 0 };
    let row = large_row(&mut bank, &mut count).map_err(|_| anyhow!("the row has no room"))?;
    let mut args = env::args(rt)?;
    let _ = args.next();
    if let Some(times) = args.next() {
        return print_times(
            rt,
            &sheet,
            &mut bank,
            count,
            &row,
            times.as_str().parse::<u32>()?,
        );
    }
    let before = count.terms;
    let made = form(&sheet, &mut bank, &mut count, &row, HEIGHT).map_err(|_| anyhow!(
        "the row is refused"
    ))?;
    let after = count.terms;
    let used = made.used;
    println!(rt; "terms before {before} after {after} conditions {used}")?;
    Ok(())
}

fn main(rt: HostRuntime) -> anyhow::Result<()> {
    measure(&rt)
}
