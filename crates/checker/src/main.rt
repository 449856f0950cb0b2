//! Reads a sheet from standard input, and prints the one line of its check.
#![tactic(auto)]

use std::io::Read;
use verdict_text::verdict_line;

fn run(rt: &HostRuntime) -> anyhow::Result<()> {
    let mut sheet = Vec::new(rt.alloc());
    rt.stdin().read_to_end(&mut sheet)?;
    let line = verdict_line(rt.alloc(), sheet.as_slice())?;
    rt.print(line.as_str())?;
    Ok(())
}

fn main(rt: HostRuntime) -> anyhow::Result<()> {
    run(&rt)
}
