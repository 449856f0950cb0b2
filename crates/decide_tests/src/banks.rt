//! A bank that fills up and is emptied again, and entailment between its terms.
use closure::{decide, entails};
use fault::TableFault;
use std::test::Fail;
use terms::{Condition, Count, CountGuard, MOST_TERMS, Node, Sign, TermRecord, intern};

fn between(left: u16, right: u16, sign: Sign) -> Condition {
    Condition { left, right, sign }
}

fn chain(bank: &mut [TermRecord], count: &mut Count, links: u16) -> Result<u16, TableFault> {
    let mut place = intern(bank, count, Node::Name(5))?;
    for _ in 0..links {
        place = intern(bank, count, Node::Unary(1, place))?;
    }
    Ok(place)
}

// Working terms leave again, also by way of a refusal.
fn working(bank: &mut [TermRecord], count: &mut Count) -> Result<u16, TableFault> {
    let guard = CountGuard::new(count);
    chain(bank, &mut *guard.count, 600)
}

#[test]
fn fills_up(rt: HostRuntime) {
    let mut bank = [TermRecord::BLANK; MOST_TERMS];
    let mut count = Count { terms: 0 };
    assert_eq!(rt; chain(&mut bank, &mut count, 3), Ok(3));
    assert_eq!(rt; chain(&mut bank, &mut count, 2), Ok(2));
    assert_eq!(rt; count.terms, 4);
    assert_eq!(rt;
        working(&mut bank, &mut count),
        Err(TableFault::TermsExhausted)
    );
    assert_eq!(rt; count.terms, 4);
    assert_eq!(rt; chain(&mut bank, &mut count, 511), Ok(511));
    assert_eq!(rt; intern(&mut bank, &mut count, Node::Unary(1, 7)), Ok(8));
    assert_eq!(rt;
        intern(&mut bank, &mut count, Node::Constant(1)),
        Err(TableFault::TermsExhausted)
    );
    assert_eq!(rt;
        intern(&mut bank, &mut count, Node::Unary(1, 600)),
        Err(TableFault::BadMemory)
    );
    assert_eq!(rt; bank[511].height, 511);
    assert!(rt; bank[511].mentions(5));
    assert!(rt; !bank[511].mentions(4));
}

#[test]
fn concludes(rt: HostRuntime) -> Result<(), Fail> {
    let mut bank = [TermRecord::BLANK; MOST_TERMS];
    let mut count = Count { terms: 0 };
    let x = intern(&mut bank, &mut count, Node::Name(0))?;
    let y = intern(&mut bank, &mut count, Node::Name(1))?;
    let fx = intern(&mut bank, &mut count, Node::Unary(0, x))?;
    let fy = intern(&mut bank, &mut count, Node::Unary(0, y))?;
    let mut labels = [0u16; 512];
    let same = [between(x, y, Sign::Equal)];
    assert_eq!(rt;
        entails(
            &bank,
            count,
            &same,
            between(fx, fy, Sign::Equal),
            &mut labels,
        ),
        Ok(true)
    );
    assert_eq!(rt;
        entails(
            &bank,
            count,
            &same,
            between(fx, x, Sign::Equal),
            &mut labels,
        ),
        Ok(false)
    );
    assert_eq!(rt;
        entails(
            &bank,
            count,
            &same,
            between(fx, fy, Sign::Different),
            &mut labels,
        ),
        Ok(false)
    );
    let apart = [between(fx, fy, Sign::Different)];
    assert_eq!(rt;
        entails(
            &bank,
            count,
            &apart,
            between(x, y, Sign::Different),
            &mut labels,
        ),
        Ok(true)
    );
    assert_eq!(rt;
        entails(
            &bank,
            count,
            &apart,
            between(x, y, Sign::Equal),
            &mut labels,
        ),
        Ok(false)
    );
    let never = [between(x, x, Sign::Different)];
    assert_eq!(rt;
        entails(
            &bank,
            count,
            &never,
            between(x, y, Sign::Equal),
            &mut labels,
        ),
        Ok(true)
    );
    assert_eq!(rt;
        entails(&bank, count, &same, between(x, 9, Sign::Equal), &mut labels),
        Err(TableFault::BadMemory)
    );
    Ok(())
}

#[test]
fn refuses_other_memory(rt: HostRuntime) {
    let mut bank = [TermRecord::BLANK; MOST_TERMS];
    bank[1] = TermRecord {
        node: Node::Unary(0, 1),
        ..TermRecord::BLANK
    };
    let mut labels = [7u16; 4];
    assert!(rt; decide(&bank, Count { terms: 1 }, &[], &mut labels).is_ok());
    assert!(rt; decide(&bank, Count { terms: 2 }, &[], &mut labels).is_err());
    assert!(rt; decide(&bank, Count { terms: 600 }, &[], &mut labels).is_err());
    assert_eq!(rt; labels, [0, 7, 7, 7]);
}
