use session_text::session;
use std::alloc::Global;
use std::process::Abort;
use std::test::Fail;

/// One branch, and an invariant that is always true.
const SMALLEST: &[u8] = b"L\x00\x00\x00V\x00H\x00E";

/// Two readings, and whether the first equals the second and the second the first: branches 1 and 2 are impossible.
const BOTH_WAYS: &[u8] =
    b"R\x00\x00R\x00\x01T\x00\x00\x00\x00\x00T\x00\x01\x00\x00\x00Q\x00\x01Q\x01\x00L\x00\x00\x00V\x00H\x00E";

/// A bit that starts as 0, and the invariant that it is 1.
const UNSAFE_START: &[u8] = b"B\x00L\x01\x00\x00V\x00H\x00E";

fn prints(
    rt: &impl Abort,
    heap: Global,
    sheet: &[u8],
    limit: u8,
    script: &[u8],
    expected: &str,
) -> Result<(), Fail> {
    let text = session(heap, sheet, limit, script)?;
    assert_eq!(rt; text.as_str(), expected);
    Ok(())
}

/// A script on the smallest sheet that is refused with this line.
fn refused(rt: &impl Abort, heap: Global, script: &[u8], expected: &str) -> Result<(), Fail> {
    prints(rt, heap, SMALLEST, 64, script, expected)
}

#[test]
fn nothing_is_asked(rt: HostRuntime) -> Result<(), Fail> {
    let text = "open 64 ok\nrows 1 kept 0 merged 0 struck 0 waiting 1 out 0\n";
    prints(&rt, rt.alloc(), SMALLEST, 64, b"", text)?;
    prints(
        &rt,
        rt.alloc(),
        SMALLEST,
        64,
        b" \t\r\n# take 0 0\n\n#",
        text,
    )
}

#[test]
fn words_and_numbers_in_any_layout(rt: HostRuntime) -> Result<(), Fail> {
    prints(
        &rt,
        rt.alloc(),
        SMALLEST,
        1,
        b"\ttake  000 0#1\r\nmerge 0 0 0 000000000000000000\r\nverdict# it holds\xff\n",
        "open 1 ok\ntake 0 0 ok\nmerge 0 0 0 0 ok\nverdict holds\nrows 1 kept 0 merged 1 struck 0 waiting 0 out 0\n",
    )
}

#[test]
fn impossible_branches_are_struck(rt: HostRuntime) -> Result<(), Fail> {
    prints(
        &rt,
        rt.alloc(),
        BOTH_WAYS,
        64,
        b"take 0 0\ntake 0 1\ntake 0 2\ntake 0 3\nstrike 0 0\nstrike 0 1\nstrike 0 2\nstrike 0 3\nstrike 0 4\n",
        "open 64 ok\ntake 0 0 ok\ntake 0 1 ok\ntake 0 2 ok\ntake 0 3 ok\nstrike 0 0 fault 16\nstrike 0 1 ok joins 1\nstrike 0 2 ok joins 1\nstrike 0 3 fault 16\nstrike 0 4 fault 12\nrows 1 kept 0 merged 0 struck 2 waiting 0 out 2\n",
    )
}

#[test]
fn openings_are_refused_and_made_again(rt: HostRuntime) -> Result<(), Fail> {
    prints(
        &rt,
        rt.alloc(),
        SMALLEST,
        65,
        b"verdict\ntake 0 0\nkeep 0 0 0\nopen 1\ntake 0 0\nkeep 0 0 9\nkeep 0 0 0\nopen 64\nverdict\ntake 0 0\nkeep 0 0 0",
        "open 65 fault 8\nverdict open waiting 0 out 0\ntake 0 0 fault 10\nkeep 0 0 0 fault 12\nopen 1 ok\ntake 0 0 ok\nkeep 0 0 9 fault 13\nkeep 0 0 0 fault 19\nopen 64 ok\nverdict open waiting 1 out 0\ntake 0 0 ok\nkeep 0 0 0 ok\nrows 2 kept 1 merged 0 struck 0 waiting 1 out 0\n",
    )
}

#[test]
fn an_unsafe_start_is_refused(rt: HostRuntime) -> Result<(), Fail> {
    prints(
        &rt,
        rt.alloc(),
        UNSAFE_START,
        64,
        b"verdict\nopen 255",
        "open 64 fault 9\nverdict open waiting 0 out 0\nopen 255 fault 8\nrows 0 kept 0 merged 0 struck 0 waiting 0 out 0\n",
    )
}

#[test]
fn a_sheet_with_a_fault_ends_it(rt: HostRuntime) -> Result<(), Fail> {
    let text = "sheet fault 1 record 0 byte 0\n";
    prints(&rt, rt.alloc(), b"", 0, b"what\n", text)
}

#[test]
fn lines_that_cannot_be_read(rt: HostRuntime) -> Result<(), Fail> {
    let heap = rt.alloc();
    refused(
        &rt,
        heap,
        b"take 0 0\n\nTake 0 0\n",
        "line 3: unknown word\n",
    )?;
    refused(&rt, heap, b"verdict0", "line 1: unknown word\n")?;
    refused(&rt, heap, b"take -1 0", "line 1: not a decimal number\n")?;
    refused(&rt, heap, b"take 999 x", "line 1: a number above 255\n")?;
    refused(&rt, heap, b"take x 999", "line 1: not a decimal number\n")?;
    refused(&rt, heap, b"open 256", "line 1: a number above 255\n")?;
    refused(&rt, heap, b"verdict\nopen", "line 2: too few numbers\n")?;
    refused(&rt, heap, b"merge 0 0 0#0", "line 1: too few numbers\n")?;
    refused(&rt, heap, b"keep 0 0 0 0", "line 1: too many numbers\n")?;
    refused(&rt, heap, b"verdict 1", "line 1: too many numbers\n")
}
