//! Reads a sheet from standard input and lists it.
#![tactic(auto)]

use sheet_text::listing;
use std::io::Read;

fn run(rt: &HostRuntime) -> anyhow::Result<()> {
    let heap = rt.alloc();
    let mut bytes: Vec<u8> = Vec::new(heap);
    rt.stdin().read_to_end(&mut bytes)?;
    let text = listing(heap, bytes.as_slice())?;
    rt.print(text.as_str())?;
    Ok(())
}

fn main(rt: HostRuntime) -> anyhow::Result<()> {
    run(&rt)
}
