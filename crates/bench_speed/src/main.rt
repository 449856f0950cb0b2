//! Runs the sheet on standard input for 10,000 steps on an affine model, and prints the answer. With a number
//! as its argument it repeats the run so many times, and prints the steps per second instead.
#![tactic(auto)]

use anyhow::anyhow;
use bench::run;
use plant::affine::{Affine, Curve};
use reader::{read, smallest};
use sheet::Sheet;
use std::env;
use std::io::Read;
use std::time::Instant;

const STEPS: u32 = 10_000;

const STARTS: [u32; 8] = [1, 2, 3, 4, 5, 6, 7, 8];

static INPUTS: [u32; 40_000] = [3; 40_000];

static CURVES: [Curve; 3] = [
    Curve {
        symbol: 1,
        p: 3,
        q: 0,
        r: 0,
        s: 1,
    },
    Curve {
        symbol: 2,
        p: 5,
        q: 7,
        r: 0,
        s: 2,
    },
    Curve {
        symbol: 3,
        p: 11,
        q: 13,
        r: 17,
        s: 3,
    },
];

fn run_once(sheet: &Sheet) -> anyhow::Result<Option<u32>> {
    let mut model = Affine::new(65_521, &CURVES).map_err(|_| anyhow!("no model"))?;
    let count = sheet.parts.inputs as usize * STEPS as usize;
    let inputs = INPUTS
        .get(..count)
        .ok_or_else(|| anyhow!("too many inputs"))?;
    run(sheet, &mut model, &STARTS, STEPS, inputs).map_err(|_| anyhow!("the run is refused"))
}

fn print_rate(rt: &HostRuntime, sheet: &Sheet, times: u32) -> anyhow::Result<()> {
    let start = Instant::now(rt)?;
    for _ in 0..times {
        let _ = run_once(sheet)?;
    }
    let micros = start.elapsed(rt)?.as_micros();
    let steps = times as u128 * STEPS as u128;
    let rate = (steps * 1_000_000)
        .checked_div(micros)
        .ok_or_else(|| anyhow!("too quick to measure"))?;
    println!(rt; "steps per second {rate}")?;
    Ok(())
}

fn measure(rt: &HostRuntime) -> anyhow::Result<()> {
    let heap = rt.alloc();
    let mut bytes: Vec<u8> = Vec::new(heap);
    rt.stdin().read_to_end(&mut bytes)?;
    let mut sheet = smallest(heap)?;
    read(bytes.as_slice(), heap, &mut sheet).map_err(|_| anyhow!("the sheet has a fault"))?;
    let mut args = env::args(rt)?;
    let _ = args.next();
    if let Some(times) = args.next() {
        return print_rate(rt, &sheet, times.as_str().parse::<u32>()?);
    }
    match run_once(&sheet)? {
        Some(i) => println!(rt; "steps {STEPS} answer break {i}")?,
        None => println!(rt; "steps {STEPS} answer none")?,
    }
    Ok(())
}

fn main(rt: HostRuntime) -> anyhow::Result<()> {
    measure(&rt)
}
