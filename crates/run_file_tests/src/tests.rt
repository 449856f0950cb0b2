use plant::affine::Curve;
use plant::listed::{Entry, Values};
use run_file::{Plant, RunFile, read};
use run_file_error::{LineError, Problem, ReadFailure};
use std::alloc::Global;
use std::process::Abort;
use std::test::Fail;

/// The file is refused at this line for this problem.
fn refused(rt: &impl Abort, heap: Global, bytes: &[u8], line: usize, problem: Problem) {
    let error = LineError { line, problem };
    assert_eq!(rt; read(heap, bytes).err(), Some(ReadFailure::Line(error)));
}

/// The numbers of the file.
fn numbers(rt: &impl Abort, file: &RunFile, starts: &[u32], steps: u32, inputs: &[u32]) {
    assert!(rt; file.starts.as_slice() == starts);
    assert_eq!(rt; file.steps, steps);
    assert!(rt; file.inputs.as_slice() == inputs);
}

// Beside `is_affine`: each takes another arm of the plant.
fn is_listed(rt: &impl Abort, plant: &Plant, expected: u32, list: &[Entry]) -> Result<(), Fail> {
    match plant {
        Plant::Listed { default, entries } => {
            assert_eq!(rt; *default, expected);
            assert!(rt; entries.as_slice() == list);
            Ok(())
        }
        Plant::Affine { .. } => Err(Fail::new("affine")),
    }
}

fn is_affine(rt: &impl Abort, plant: &Plant, expected: u32, list: &[Curve]) -> Result<(), Fail> {
    match plant {
        Plant::Listed { .. } => Err(Fail::new("listed")),
        Plant::Affine { modulus, curves } => {
            assert_eq!(rt; *modulus, expected);
            assert!(rt; curves.as_slice() == list);
            Ok(())
        }
    }
}

#[test]
fn a_listed_plant_with_all_that_a_run_needs(rt: HostRuntime) -> Result<(), Fail> {
    let text =
        b"# a plant\nlisted 9\nentry 1 50 5\nentry 31 4294967295\nentry 0 1 2 3 4\n\nentry 2 6 7 8 # two\nstart 5 7 0 0 0 0 0 0\nsteps 2\ninputs 1 2\ninputs\ninputs 3\n";
    let file = read(rt.alloc(), text)?;
    numbers(&rt, &file, &[5, 7, 0, 0, 0, 0, 0, 0], 2, &[1, 2, 3]);
    let entries = [
        Entry {
            symbol: 1,
            values: Values::One(5),
            result: 50,
        },
        Entry {
            symbol: 31,
            values: Values::Zero,
            result: 4_294_967_295,
        },
        Entry {
            symbol: 0,
            values: Values::Three(2, 3, 4),
            result: 1,
        },
        Entry {
            symbol: 2,
            values: Values::Two(7, 8),
            result: 6,
        },
    ];
    is_listed(&rt, &file.plant, 9, &entries)
}

#[test]
fn an_affine_plant_in_any_order_after_its_name(rt: HostRuntime) -> Result<(), Fail> {
    let file = read(
        rt.alloc(),
        b"affine 0\ninputs 8\nsteps 0\ncurve 3 65535 0 1 2\nstart\ncurve 3 4 5 6 7",
    )?;
    numbers(&rt, &file, &[], 0, &[8]);
    let curves = [
        Curve {
            symbol: 3,
            p: 65_535,
            q: 0,
            r: 1,
            s: 2,
        },
        Curve {
            symbol: 3,
            p: 4,
            q: 5,
            r: 6,
            s: 7,
        },
    ];
    is_affine(&rt, &file.plant, 0, &curves)
}

#[test]
fn blanks_comments_and_line_ends(rt: HostRuntime) -> Result<(), Fail> {
    let text = b"\r\n  listed\t007 \r\n#\xff\xfe\nstart 1#2 3\r\nsteps   5   # \r\n\t\n";
    let file = read(rt.alloc(), text)?;
    numbers(&rt, &file, &[1], 5, &[]);
    is_listed(&rt, &file.plant, 7, &[])
}

#[test]
fn words_that_are_no_directive_or_number(rt: HostRuntime) {
    let heap = rt.alloc();
    refused(&rt, heap, b"listed 0\nstop 1", 2, Problem::UnknownDirective);
    refused(&rt, heap, b"List 0", 1, Problem::UnknownDirective);
    refused(&rt, heap, b"\xc3\xbf 0", 1, Problem::UnknownDirective);
    refused(&rt, heap, b"listed -1", 1, Problem::NotANumber);
    refused(&rt, heap, b"listed 0x1", 1, Problem::NotANumber);
    refused(
        &rt,
        heap,
        b"listed 99999999999999999999999a",
        1,
        Problem::NotANumber,
    );
    refused(&rt, heap, b"listed 4294967296", 1, Problem::NumberTooLarge);
    refused(
        &rt,
        heap,
        b"listed 99999999999999999999999999",
        1,
        Problem::NumberTooLarge,
    );
}

#[test]
fn counts_and_ranges(rt: HostRuntime) {
    let heap = rt.alloc();
    refused(&rt, heap, b"listed", 1, Problem::TooFewNumbers);
    refused(&rt, heap, b"affine 1 2", 1, Problem::TooManyNumbers);
    refused(&rt, heap, b"listed 0\nentry 1", 2, Problem::TooFewNumbers);
    refused(
        &rt,
        heap,
        b"listed 0\nentry 1 2 3 4 5 6",
        2,
        Problem::TooManyNumbers,
    );
    refused(
        &rt,
        heap,
        b"listed 0\nentry 32 0",
        2,
        Problem::SymbolTooLarge,
    );
    refused(
        &rt,
        heap,
        b"affine 9\ncurve 1 2 3 4",
        2,
        Problem::TooFewNumbers,
    );
    refused(
        &rt,
        heap,
        b"affine 9\ncurve 1 2 3 4 5 6",
        2,
        Problem::TooManyNumbers,
    );
    refused(
        &rt,
        heap,
        b"affine 9\ncurve 32 0 0 0 0",
        2,
        Problem::SymbolTooLarge,
    );
    refused(
        &rt,
        heap,
        b"affine 9\ncurve 31 0 0 65536 0",
        2,
        Problem::CoefficientTooLarge,
    );
    refused(&rt, heap, b"listed 0\nsteps", 2, Problem::TooFewNumbers);
}

#[test]
fn the_plant_and_the_order_of_lines(rt: HostRuntime) {
    let heap = rt.alloc();
    refused(
        &rt,
        heap,
        b"\n\nsteps 1\nlisted 0",
        3,
        Problem::PlantNotFirst,
    );
    refused(&rt, heap, b"entry 1 2\nlisted 0", 1, Problem::PlantNotFirst);
    refused(&rt, heap, b"listed 0\nlisted 0", 2, Problem::PlantRepeated);
    refused(&rt, heap, b"listed 0\naffine 9", 2, Problem::PlantRepeated);
    refused(
        &rt,
        heap,
        b"affine 9\nentry 1 2",
        2,
        Problem::EntryUnderAffine,
    );
    refused(
        &rt,
        heap,
        b"listed 0\ncurve 1 2 3 4 5",
        2,
        Problem::CurveUnderListed,
    );
    refused(
        &rt,
        heap,
        b"listed 0\nstart\nstart",
        3,
        Problem::StartRepeated,
    );
    refused(
        &rt,
        heap,
        b"listed 0\nsteps 1\nsteps 1",
        3,
        Problem::StepsRepeated,
    );
}

#[test]
fn what_is_missing_at_the_end(rt: HostRuntime) {
    let heap = rt.alloc();
    refused(&rt, heap, b"", 1, Problem::PlantMissing);
    refused(&rt, heap, b"\n# no plant\n", 3, Problem::PlantMissing);
    refused(&rt, heap, b"listed 0", 1, Problem::StartMissing);
    refused(&rt, heap, b"listed 0\nstart 1\n", 3, Problem::StepsMissing);
}

#[test]
fn a_failure_prints_its_line(rt: HostRuntime) -> Result<(), Fail> {
    let heap = rt.alloc();
    let failure = read(heap, b"listed 0\nstop")
        .err()
        .ok_or_else(|| Fail::new("the file was read"))?;
    let text = failure.to_string(heap)?;
    assert_eq!(rt; text.as_str(), "run file line 2: unknown directive");
    Ok(())
}
