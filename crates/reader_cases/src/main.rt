//! Reads many sheets, one to a line in hexadecimal, and prints what each comes to. Its `stdout` was written by
//! a second reader, `tools/sheet_cases.py`.
#![tactic(auto)]

ghost use Rattle.std.specs.Prelude.{◌<◌};

use fault::Failure;
use reader::read_records;
use std::alloc::{AllocError, Global};
use std::io::{BufRead, BufReader};

fn digit(c: u8) -> u8
    ensures { result < 16 }
{
    match c {
        // A capital is no digit here, though it is one of `to_digit`.
        b'A'..=b'F' => 0,
        _ => (c as char).to_digit(16).unwrap_or(0) as u8,
    }
}

// Not by `hex`, which refuses a line `-`: it stands for no bytes.
fn bytes_of(heap: Global, line: &[u8]) -> Result<Vec<u8>, AllocError> {
    let mut bytes = Vec::new(heap);
    for pair in line.chunks_exact(2) {
        bytes.push(digit(pair[0]) * 16 + digit(pair[1]))?;
    }
    Ok(bytes)
}

fn outcome(heap: Global, bytes: &[u8]) -> Result<String, AllocError> {
    let mut records = Vec::new(heap);
    let sheet = read_records(bytes, heap, &mut records);
    // A refusal is printed, so nothing is passed on.
    match sheet {
        Ok(_) => {
            let count = records.len() as u128 + 1;
            format!(in heap; "sheet ok records {count}")
        }
        Err(Failure::Fault(fault)) => format!(in heap; "{fault}"),
        // Want of memory has no value to pass on.
        Err(Failure::Memory) => Err(AllocError),
    }
}

fn run(rt: &HostRuntime) -> anyhow::Result<()> {
    let heap = rt.alloc();
    for line in BufReader::new(heap, rt.stdin())?.lines(heap) {
        let line = line?;
        let bytes = bytes_of(heap, line.as_bytes())?;
        let text = outcome(heap, bytes.as_slice())?;
        rt.println(text.as_str())?;
    }
    Ok(())
}

fn main(rt: HostRuntime) -> anyhow::Result<()> {
    run(&rt)
}
