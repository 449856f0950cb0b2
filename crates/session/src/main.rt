//! Works the sheet in one file by hand: makes the calls of a script, from another file or from standard input, and prints
//! each with its answer.
#![tactic(auto)]

use anyhow::anyhow;
use session_text::session;
use std::env::Args;
use std::io::Read;
use std::{env, fs};
use text_words::number;

const USAGE: &str = "usage: session [--limit L] SHEETFILE [SCRIPTFILE], L from 0 to 255";

/// The row limit that a table has if none is given.
const LIMIT: u8 = 64;

/// What the arguments say: the row limit, the sheet's file and the script's, if there is one.
#[derive(Drop)]
struct Arguments {
    limit: u8,
    sheet: String,
    script: Option<String>,
}

fn limit_of(word: Option<String>) -> anyhow::Result<u8> {
    let word = word.ok_or_else(|| anyhow!("{USAGE}"))?;
    if word.is_empty() {
        return Err(anyhow!("{USAGE}"));
    }
    let limit = number(word.as_bytes(), 255).map_err(|_| anyhow!("{USAGE}"))?;
    Ok(limit as u8)
}

fn given_arguments(rt: &HostRuntime) -> anyhow::Result<Arguments> {
    let mut args = env::args(rt)?;
    let _ = args.next();
    let mut limit = LIMIT;
    let mut sheet = args.next();
    if sheet
        .as_ref()
        .is_some_and(|word| word.as_str() == "--limit")
    {
        limit = limit_of(args.next())?;
        sheet = args.next();
    }
    let script = args.next();
    match (sheet, args.next()) {
        (Some(sheet), None) => Ok(Arguments {
            limit,
            sheet,
            script,
        }),
        _ => Err(anyhow!("{USAGE}")),
    }
}

fn script_of(rt: &HostRuntime, path: &Option<String>) -> anyhow::Result<Vec<u8>> {
    if let Some(path) = path {
        return Ok(fs::read(rt, path.as_str())?);
    }
    let mut text = Vec::new(rt.alloc());
    rt.stdin().read_to_end(&mut text)?;
    Ok(text)
}

fn run(rt: &HostRuntime) -> anyhow::Result<()> {
    let asked = given_arguments(rt)?;
    let sheet = fs::read(rt, asked.sheet.as_str())?;
    let script = script_of(rt, &asked.script)?;
    let text = session(rt.alloc(), &sheet, asked.limit, &script)?;
    rt.print(text.as_str())?;
    Ok(())
}

fn main(rt: HostRuntime) -> anyhow::Result<()> {
    run(&rt)
}
