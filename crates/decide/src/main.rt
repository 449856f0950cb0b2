//! Reads conditions from standard input, one to a line, and prints whether some interpretation meets them.
#![tactic(auto)]

use notation::decide_text;
use std::io::Read;

fn run(rt: &HostRuntime) -> anyhow::Result<()> {
    let mut text = Vec::new(rt.alloc());
    rt.stdin().read_to_end(&mut text)?;
    if text.last().is_some_and(|last| *last != b'\n') {
        text.push(b'\n')?;
    }
    let answer = decide_text(rt.alloc(), &text);
    println!(rt; "{answer}")?;
    Ok(())
}

fn main(rt: HostRuntime) -> anyhow::Result<()> {
    run(&rt)
}
