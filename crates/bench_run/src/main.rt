//! Runs the sheet in one file as another file says, and prints what comes of it.
#![tactic(auto)]

use anyhow::anyhow;
use bench_text::bench_report;
use std::{env, fs};

fn run(rt: &HostRuntime) -> anyhow::Result<()> {
    let mut args = env::args(rt)?;
    let _ = args.next();
    let (Some(sheet_path), Some(run_path), None) = (args.next(), args.next(), args.next()) else {
        return Err(anyhow!("usage: bench_run SHEETFILE RUNFILE"));
    };
    let sheet = fs::read(rt, sheet_path.as_str())?;
    let run = fs::read(rt, run_path.as_str())?;
    let text = bench_report(rt.alloc(), sheet.as_slice(), run.as_slice())?;
    rt.print(text.as_str())?;
    Ok(())
}

fn main(rt: HostRuntime) -> anyhow::Result<()> {
    run(&rt)
}
