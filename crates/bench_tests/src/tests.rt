//! Runs of small sheets.
use crate::recorder::Recorder;
use bench::{Configuration, run, run_to};
use fault::{BenchFault, Fault};
use plant::affine::{Affine, Curve};
use plant::listed::Listed;
use reader::{read, smallest};
use sheet::Sheet;
use std::alloc::Global;
use std::test::Fail;

// One bit that an input raises for good; while it is raised, reading 1 has to be symbol 1 of reading 0.
const HOPPER: &[u8] =
    b"F\x00F\x01B\x00R\x00\x00R\x00\x01IT\x00\x00\x00\x00\x00T\x00\x01\x00\x00\x00T\x01\x00\x00\x00\x00T\x02\x00\x00\x00\x00T\x02\x01\x00\x00\x00Q\x02\x03C\x01\x04L\x01\x00\x00L\x02\x00\x00L\x06\x00\x01L\x04\x00\x00L\x03\x00\x00L\x06\x03\x04K\x00\x04\x00\x00K\x00\x01\x00\x00K\x01\x01\x00\x01N\x00\x02V\x05H\x01E";

// A bit that starts raised, and must not be.
const BROKEN: &[u8] = b"B\x01L\x01\x00\x00L\x04\x00\x00V\x01H\x00E";

// Two readings that change places.
const SWAP: &[u8] =
    b"R\x00\x00R\x00\x01T\x00\x00\x00\x00\x00T\x00\x01\x00\x00\x00L\x00\x00\x00K\x00\x01\x00\x00K\x00\x00\x00\x00M\x00\x00M\x01\x01V\x00H\x00E";

// A constant start, symbol 2 over an input, and after it symbol 1 over the reading.
const ASKING: &[u8] =
    b"F\x00F\x01F\x01R\x01\x00IT\x00\x00\x00\x00\x00T\x01\x00\x00\x00\x00T\x02\x02\x01\x00\x00T\x02\x01\x00\x00\x00L\x00\x00\x00V\x00H\x00E";

const STARTS: &[u32] = &[5, 7, 0, 0, 0, 0, 0, 0];

// A place that no run leaves.
const MARKED: Configuration = Configuration {
    bits: [true; 16],
    readings: [9; 6],
};

// A run on a listed model without entries: its answer, and what it leaves of the place: bits 0 and 15, and
// readings 0, 1 and 5.
struct Case {
    name: &'static str,
    sheet: &'static [u8],
    default: u32,
    starts: &'static [u32],
    steps: u32,
    inputs: &'static [u32],
    answer: Result<Option<u32>, Fault>,
    bits: (bool, bool),
    readings: (u32, u32, u32),
}

static CASES: [Case; 11] = [
    Case {
        name: "the bit is raised, and the claim fails",
        sheet: HOPPER,
        default: 0,
        starts: STARTS,
        steps: 1,
        inputs: &[0],
        answer: Ok(Some(1)),
        bits: (true, false),
        readings: (5, 7, 0),
    },
    Case {
        name: "the input is not the constant",
        sheet: HOPPER,
        default: 7,
        starts: STARTS,
        steps: 1,
        inputs: &[0],
        answer: Ok(None),
        bits: (false, false),
        readings: (5, 7, 0),
    },
    Case {
        name: "the bit is raised, and the claim holds",
        sheet: HOPPER,
        default: 7,
        starts: STARTS,
        steps: 2,
        inputs: &[7, 0],
        answer: Ok(None),
        bits: (true, false),
        readings: (5, 7, 0),
    },
    Case {
        name: "configuration 0 breaks without a step",
        sheet: BROKEN,
        default: 0,
        starts: STARTS,
        steps: 0,
        inputs: &[],
        answer: Ok(Some(0)),
        bits: (true, false),
        readings: (0, 0, 0),
    },
    Case {
        name: "configuration 0 breaks before three steps",
        sheet: BROKEN,
        default: 0,
        starts: STARTS,
        steps: 3,
        inputs: &[],
        answer: Ok(Some(0)),
        bits: (true, false),
        readings: (0, 0, 0),
    },
    Case {
        name: "readings change together",
        sheet: SWAP,
        default: 0,
        starts: STARTS,
        steps: 9_999,
        inputs: &[],
        answer: Ok(None),
        bits: (false, false),
        readings: (7, 5, 0),
    },
    Case {
        name: "10,000 steps are the most",
        sheet: SWAP,
        default: 0,
        starts: STARTS,
        steps: 10_000,
        inputs: &[],
        answer: Ok(None),
        bits: (false, false),
        readings: (5, 7, 0),
    },
    Case {
        name: "more steps are refused before all else",
        sheet: HOPPER,
        default: 0,
        starts: &[],
        steps: 10_001,
        inputs: &[],
        answer: Err(Fault::Bench(BenchFault::TooManySteps)),
        bits: (true, true),
        readings: (9, 9, 9),
    },
    Case {
        name: "too few inputs are refused before the start values",
        sheet: HOPPER,
        default: 0,
        starts: &[],
        steps: 2,
        inputs: &[1],
        answer: Err(Fault::Bench(BenchFault::InputsLength)),
        bits: (true, true),
        readings: (9, 9, 9),
    },
    Case {
        name: "too many inputs are refused",
        sheet: HOPPER,
        default: 0,
        starts: STARTS,
        steps: 1,
        inputs: &[1, 2],
        answer: Err(Fault::Bench(BenchFault::InputsLength)),
        bits: (true, true),
        readings: (9, 9, 9),
    },
    Case {
        name: "seven start values are refused",
        sheet: HOPPER,
        default: 0,
        starts: &[1, 2, 3, 4, 5, 6, 7],
        steps: 1,
        inputs: &[1],
        answer: Err(Fault::Bench(BenchFault::StartsLength)),
        bits: (true, true),
        readings: (9, 9, 9),
    },
];

fn sheet_of(heap: Global, bytes: &[u8]) -> Result<Sheet, Fail> {
    let mut sheet = smallest(heap)?;
    read(bytes, heap, &mut sheet)?;
    Ok(sheet)
}

fn comes_out(heap: Global, case: &Case) -> Result<bool, Fail> {
    let sheet = sheet_of(heap, case.sheet)?;
    let mut model = Listed::new(case.default, &[]);
    let mut place = MARKED;
    let answer = run_to(
        &sheet,
        &mut model,
        case.starts,
        case.steps,
        case.inputs,
        &mut place,
    );
    let bits = (place.bits[0], place.bits[15]);
    let readings = (place.readings[0], place.readings[1], place.readings[5]);
    Ok(answer == case.answer && bits == case.bits && readings == case.readings)
}

#[test]
fn every_case_comes_out(rt: HostRuntime) -> Result<(), Fail> {
    for case in &CASES {
        assert!(rt; comes_out(rt.alloc(), case)?, "{}", case.name);
    }
    Ok(())
}

#[test]
fn the_affine_model_runs_too(rt: HostRuntime) -> Result<(), Fail> {
    let sheet = sheet_of(rt.alloc(), HOPPER)?;
    let curves = [Curve {
        symbol: 1,
        p: 1,
        q: 0,
        r: 0,
        s: 2,
    }];
    let mut model = Affine::new(100, &curves)?;
    assert_eq!(rt; run(&sheet, &mut model, STARTS, 1, &[0])?, None);
    let mut other = Affine::new(6, &curves)?;
    assert_eq!(rt; run(&sheet, &mut other, STARTS, 1, &[0])?, Some(1));
    Ok(())
}

#[test]
fn questions_come_in_their_order(rt: HostRuntime) -> Result<(), Fail> {
    let sheet = sheet_of(rt.alloc(), ASKING)?;
    let mut model = Recorder {
        value: 3,
        asked: Vec::new(rt.alloc()),
    };
    let refused = run(&sheet, &mut model, &[], 1, &[1]);
    assert_eq!(rt; refused, Err(Fault::Bench(BenchFault::StartsLength)));
    assert!(rt; model.asked.is_empty());
    assert_eq!(rt; run(&sheet, &mut model, STARTS, 1, &[1])?, None);
    assert_eq!(rt; model.asked.as_slice(), [0, 1, 2, 1].as_slice());
    Ok(())
}
