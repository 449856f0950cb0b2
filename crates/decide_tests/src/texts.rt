//! Texts of conditions, and what is printed of them.
use notation::decide_text;
use std::alloc::Global;
use std::process::Abort;
use std::test::Fail;

fn says(rt: &impl Abort, heap: Global, text: &[u8], expected: &str) -> Result<(), Fail> {
    let answer = decide_text(heap, text);
    let shown = format!(in heap; "{answer}")?;
    assert_eq!(rt; shown.as_str(), expected);
    Ok(())
}

#[test]
fn impossible(rt: HostRuntime) -> Result<(), Fail> {
    let heap = rt.alloc();
    says(
        &rt,
        heap,
        b"x0 = x1\ns0(x0) # s0(x1)\n",
        "impossible joins 2",
    )?;
    says(&rt, heap, b"x0 # x0\n", "impossible joins 0")?;
    says(
        &rt,
        heap,
        b"s0(s0(s0(x0))) = x0\ns0(s0(s0(s0(s0(x0))))) = x0\ns0(x0) # x0\n",
        "impossible joins 5",
    )?;
    says(
        &rt,
        heap,
        b"s0(s1) # s0(s2)\ns3 = s1\ns2 = s3\n",
        "impossible joins 3",
    )?;
    says(
        &rt,
        heap,
        b"s0(x0,x1,x2) # s0(x3,x4,x5)\nx0 = x3\nx1 = x4\nx2 = x5\n",
        "impossible joins 4",
    )?;
    says(
        &rt,
        heap,
        b"s0(x0,x1) = x0\ns0(s0(x0,x1),x1) # x0\n",
        "impossible joins 2",
    )
}

#[test]
fn possible(rt: HostRuntime) -> Result<(), Fail> {
    let heap = rt.alloc();
    says(&rt, heap, b"", "possible")?;
    says(&rt, heap, b"x0 # x1\ns0(x0) = s0(x1)\n", "possible")?;
    says(
        &rt,
        heap,
        b"s0(s0(s0(x0))) = x0\ns0(s0(s0(s0(s0(s0(x0)))))) = x0\ns0(x0) # x0\n",
        "possible",
    )?;
    says(&rt, heap, b"s0(x0,x1) # s0(x1,x0)\n", "possible")?;
    says(
        &rt,
        heap,
        b"s0(x0,x1,x2) # s0(x3,x4,x5)\nx0 = x3\nx1 = x4\n",
        "possible",
    )
}

// Each equation frees the next, against the order in which the terms are read.
#[test]
fn late(rt: HostRuntime) -> Result<(), Fail> {
    let heap = rt.alloc();
    says(
        &rt,
        heap,
        b"s9(x3) # s9(x7)\ns0(x2) = x3\ns0(x6) = x7\ns0(x1) = x2\ns0(x5) = x6\ns0(x0) = x1\ns0(x4) = x5\nx0 = x4\n",
        "impossible joins 11",
    )
}

#[test]
fn unreadable(rt: HostRuntime) -> Result<(), Fail> {
    let heap = rt.alloc();
    says(&rt, heap, b"x0 = x32\n", "line 1: a name is x0 to x31")?;
    says(
        &rt,
        heap,
        b"x0 = x1\ns256 = x0\n",
        "line 2: a symbol is s0 to s255",
    )?;
    says(
        &rt,
        heap,
        b"x0 = s0\nx1 = s0(x0)\n",
        "line 2: a symbol is used with two arities",
    )?;
    says(&rt, heap, b"s0(,x0) = x0\n", "line 1: a term is expected")?;
    says(
        &rt,
        heap,
        b"s0(x0,x1,x2,x3) = x0\n",
        "line 1: a comma or a closing bracket is expected",
    )?;
    says(&rt, heap, b"x0= x1\n", "line 1: ' = ' or ' # ' is expected")?;
    says(&rt, heap, b"x0 = x1 \n", "line 1: the line should end here")?;
    says(
        &rt,
        heap,
        b"x01 = x1\n",
        "line 1: ' = ' or ' # ' is expected",
    )?;
    says(&rt, heap, b"\n", "line 1: a term is expected")
}
