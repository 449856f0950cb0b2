//! The entry that the benchmark calls: terms and conditions as plain numbers, decided many times over.
#![tactic(auto)]

use closure::decide;
use fault::TableFault;
use terms::{Condition, Count, MOST_TERMS, Node, Sign, TermRecord, intern_above};

/// One entry is five numbers: a kind, a symbol or name, and three places. They are numbers since they come from C.
const ENTRY: usize = 5;

/// The node of an entry of kind 0 to 4.
fn node(kind: u16, symbol: u8, a: u16, b: u16, c: u16) -> Node {
    match kind {
        0 => Node::Name(symbol),
        1 => Node::Constant(symbol),
        2 => Node::Unary(symbol, a),
        3 => Node::Binary(symbol, a, b),
        _ => Node::Ternary(symbol, a, b, c),
    }
}

/// Loads the entries: kinds 0 to 4 are terms, 5 an equation and 6 a disequation between two places.
fn load<'a>(
    entries: &[u16],
    bank: &mut [TermRecord],
    conditions: &'a mut [Condition],
) -> Result<(Count, &'a [Condition]), TableFault> {
    let mut count = Count { terms: 0 };
    // Counted by hand, since only the entries that are conditions take a slot.
    let mut used = 0;
    let (entries, _) = entries.as_chunks::<ENTRY>();
    for [kind, symbol, a, b, c] in entries {
        if *kind < 5 {
            let made = node(*kind, (*symbol % 256) as u8, *a, *b, *c);
            intern_above(bank, &mut count, made)?;
        } else {
            let sign = if *kind == 5 {
                Sign::Equal
            } else {
                Sign::Different
            };
            let slot = conditions.get_mut(used).ok_or(TableFault::BadMemory)?;
            *slot = Condition {
                left: *a,
                right: *b,
                sign,
            };
            used += 1;
        }
    }
    Ok((count, &conditions[..used]))
}

fn repeat(
    bank: &[TermRecord],
    count: Count,
    conditions: &[Condition],
    labels: &mut [u16],
    times: u32,
) -> Result<u32, TableFault> {
    let mut answer = 0;
    for _ in 0..times {
        let verdict = decide(bank, count, conditions, labels)?;
        answer = u32::from(verdict.joins) * 2 + u32::from(verdict.impossible);
    }
    Ok(answer)
}

fn load_and_repeat(entries: &[u16], times: u32) -> Result<u32, TableFault> {
    let mut bank = [TermRecord::BLANK; MOST_TERMS];
    let mut conditions = [Condition::BLANK; 1024];
    let mut labels = [0u16; MOST_TERMS];
    let (count, conditions) = load(entries, &mut bank, &mut conditions)?;
    repeat(&bank, count, conditions, &mut labels, times)
}

/// Loads the entries and decides them `times` times over: twice the joins, and one more where they are impossible.
/// Entries that cannot be loaded answer the largest number.
#[unsafe(no_mangle)]
pub extern "C" fn closure_repeat(entries: &[u16], times: u32) -> u32 {
    load_and_repeat(entries, times).unwrap_or(u32::MAX)
}
