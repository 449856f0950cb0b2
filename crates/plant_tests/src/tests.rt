//! Each model's corners, and the layer over both.
use crate::client::asked_twice;
use crate::counted::{Counted, CountedOver};
use crate::odd::Odd;
use fault::{Fault, ModelFault};
use plant::Model;
use plant::affine::{Affine, Curve};
use plant::listed::{Entry, Listed, Values};
use std::test::Fail;

static ENTRIES: [Entry; 5] = [
    Entry {
        symbol: 1,
        values: Values::One(5),
        result: 50,
    },
    Entry {
        symbol: 1,
        values: Values::Two(5, 6),
        result: 60,
    },
    Entry {
        symbol: 1,
        values: Values::One(5),
        result: 70,
    },
    Entry {
        symbol: 0,
        values: Values::Zero,
        result: 80,
    },
    Entry {
        symbol: 2,
        values: Values::Three(1, 2, 3),
        result: 90,
    },
];

#[test]
fn no_entries_give_the_default(rt: HostRuntime) {
    let mut model = Listed::new(7, &[]);
    assert_eq!(rt; model.apply(0, &[]), 7);
    assert_eq!(rt; model.apply(31, &[1, 2, 3]), 7);
}

#[test]
fn the_first_fitting_entry_answers(rt: HostRuntime) {
    let mut model = Listed::new(9, &ENTRIES);
    assert_eq!(rt; model.apply(1, &[5]), 50);
    assert_eq!(rt; model.apply(0, &[]), 80);
    assert_eq!(rt; model.apply(2, &[1, 2, 3]), 90);
}

#[test]
fn an_entry_of_another_arity_does_not_fit(rt: HostRuntime) {
    let mut model = Listed::new(9, &ENTRIES);
    assert_eq!(rt; model.apply(1, &[5, 6]), 60);
    assert_eq!(rt; model.apply(1, &[]), 9);
    assert_eq!(rt; model.apply(1, &[5, 6, 7]), 9);
    assert_eq!(rt; model.apply(2, &[1, 2]), 9);
    assert_eq!(rt; model.apply(2, &[1, 2, 3, 4]), 9);
}

#[test]
fn an_entry_of_another_symbol_or_value_does_not_fit(rt: HostRuntime) {
    let mut model = Listed::new(9, &ENTRIES);
    assert_eq!(rt; model.apply(3, &[5]), 9);
    assert_eq!(rt; model.apply(1, &[6]), 9);
    assert_eq!(rt; model.apply(2, &[3, 2, 1]), 9);
}

#[test]
fn modulus_zero_is_refused(rt: HostRuntime) {
    assert_eq!(rt;
        Affine::new(0, &[]).err(),
        Some(Fault::Model(ModelFault::ZeroModulus))
    );
}

#[test]
fn modulus_one_answers_zero(rt: HostRuntime) -> Result<(), Fail> {
    let curves = [Curve {
        symbol: 3,
        p: 2,
        q: 3,
        r: 5,
        s: 7,
    }];
    let mut model = Affine::new(1, &curves)?;
    assert_eq!(rt; model.apply(3, &[1, 1, 1]), 0);
    Ok(())
}

#[test]
fn a_missing_argument_counts_zero_and_a_fourth_nothing(rt: HostRuntime) -> Result<(), Fail> {
    let curves = [Curve {
        symbol: 3,
        p: 2,
        q: 3,
        r: 5,
        s: 7,
    }];
    let mut model = Affine::new(1000, &curves)?;
    assert_eq!(rt; model.apply(3, &[]), 7);
    assert_eq!(rt; model.apply(3, &[10]), 27);
    assert_eq!(rt; model.apply(3, &[10, 100]), 327);
    assert_eq!(rt; model.apply(3, &[10, 100, 1]), 332);
    assert_eq!(rt; model.apply(3, &[10, 100, 1, 9]), 332);
    Ok(())
}

#[test]
fn an_unlisted_symbol_is_zero_and_the_first_curve_counts(rt: HostRuntime) -> Result<(), Fail> {
    let curves = [
        Curve {
            symbol: 3,
            p: 0,
            q: 0,
            r: 0,
            s: 7,
        },
        Curve {
            symbol: 3,
            p: 0,
            q: 0,
            r: 0,
            s: 8,
        },
    ];
    let mut model = Affine::new(1000, &curves)?;
    assert_eq!(rt; model.apply(2, &[1, 2, 3]), 0);
    assert_eq!(rt; model.apply(3, &[1, 2, 3]), 7);
    Ok(())
}

#[test]
fn the_largest_coefficients_and_values_do_not_wrap(rt: HostRuntime) -> Result<(), Fail> {
    let most = u16::MAX;
    let curves = [Curve {
        symbol: 255,
        p: most,
        q: most,
        r: most,
        s: most,
    }];
    let values = [u32::MAX, u32::MAX, u32::MAX];
    // 65535 × (3 × (2^32 - 1) + 1): the three products vanish by 2^32 - 1.
    let mut widest = Affine::new(u32::MAX, &curves)?;
    assert_eq!(rt; widest.apply(255, &values), 65_535);
    // By 2^16 each product leaves 1, and s leaves 65535.
    let mut low = Affine::new(65_536, &curves)?;
    assert_eq!(rt; low.apply(255, &values), 2);
    Ok(())
}

#[test]
fn a_layer_answers_as_the_model_below_and_counts(rt: HostRuntime) {
    let mut owner = Counted {
        below: Listed::new(9, &ENTRIES),
        asked: 0,
    };
    let (a, b) = asked_twice(&mut owner, 1, &[5]);
    assert_eq!(rt; a, 50);
    assert_eq!(rt; b, 50);
    let mut over = CountedOver {
        below: &mut owner,
        asked: 0,
    };
    assert_eq!(rt; over.apply(1, &[5, 6]), 60);
    assert_eq!(rt; over.asked, 1);
    assert_eq!(rt; owner.asked, 3);
    assert_eq!(rt; owner.below.apply(1, &[5]), 50);
}

#[test]
fn the_odd_model_answers_zero_at_every_symbol(rt: HostRuntime) {
    let mut model = Odd;
    assert_eq!(rt; model.apply(0, &[]), 0);
    assert_eq!(rt; model.apply(31, &[1, 2, 3]), 0);
    assert_eq!(rt; model.apply(255, &[1, 2, 3, 4]), 0);
}
