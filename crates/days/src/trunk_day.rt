//! Days on the trunk kind, under (10, 10, 4).
use crate::checks::*;
use crate::tables::Asked::*;
use crate::tables::Step::{Calls, Reply, Themselves};
use crate::tables::Want::*;
use crate::tables::{Three, Turn};
use report::Mark::{Doubtful, Standing};
use report::Refusal;
use std::test::Fail;

const SIZES: Sizes = Sizes {
    sites: 4,
    places: 5,
    cards: 1,
    labels: 16,
    reply: 4,
    book: None,
};

const LIMIT: Three = (10, 10, 4);

// From 0 to 3 by 0 and 2 it is (7, 8, 2), by 1 and 2 (10, 3, 2), by 3 (9, 3, 1), of the ratios 8/10, 10/10 and 9/10.
const FALLING: [Turn<Three>; 11] = [
    (Offer(0, 0, 1, (2, 6, 1)), Counted(0)),
    (Offer(1, 0, 1, (5, 1, 1)), Counted(0)),
    (Offer(2, 1, 3, (5, 2, 2)), Counted(0)),
    (Offer(3, 0, 3, (9, 3, 1)), Counted(0)),
    (
        Quote(0, 0, 3, LIMIT, 4),
        Best(Standing, 2, (7, 8, 2), 8, 10),
    ),
    (Withdraw(1), Counted(0)),
    (Offer(4, 0, 2, (9, 9, 1)), Counted(0)),
    (Change(2, (4, 2, 2)), Counted(1)),
    (Read(0, 1), Best(Doubtful, 2, (7, 8, 2), 8, 10)),
    (Recheck(0, 4), Best(Standing, 2, (6, 8, 2), 8, 10)),
    (Quote(0, 0, 3, LIMIT, 4), Refused(Refusal::CardFilled)),
];

#[test]
fn a_delay_falls(rt: HostRuntime) -> Result<(), Fail> {
    let steps = [Calls(&FALLING), Reply(&[9, 0, 2, 9])];
    check_trunk_day(&rt, SIZES, &steps, None)?;
    Ok(())
}

// By 0 it is (1, 1, 4) and then (1, 1, 3), by 1 and 2 (8, 8, 3), then (7, 8, 4), and then of a class that is too bad.
const CLASSES: [Turn<Three>; 12] = [
    (Offer(0, 0, 1, (1, 1, 4)), Counted(0)),
    (Offer(1, 0, 2, (4, 4, 1)), Counted(0)),
    (Offer(2, 2, 1, (4, 4, 3)), Counted(0)),
    (
        Quote(0, 0, 1, LIMIT, 4),
        Best(Standing, 2, (8, 8, 3), 8, 10),
    ),
    (Change(0, (1, 1, 3)), Counted(1)),
    (Recheck(0, 4), Best(Standing, 1, (1, 1, 3), 3, 4)),
    (Withdraw(0), Counted(1)),
    (Change(1, (3, 4, 4)), Counted(0)),
    (Recheck(0, 4), Best(Standing, 2, (7, 8, 4), 4, 4)),
    (Change(2, (4, 4, 5)), Counted(1)),
    (Recheck(0, 4), NoRoute(Standing)),
    (Read(0, 0), NoRoute(Standing)),
];

#[test]
fn the_class_counts(rt: HostRuntime) -> Result<(), Fail> {
    let steps = [Calls(&CLASSES), Reply(&[9; 4])];
    check_trunk_day(&rt, SIZES, &steps, None)?;
    Ok(())
}

// The seven calls, each carried out.
const SEVEN_CALLS: [Turn<Three>; 9] = [
    (Offer(4, 0, 1, (2, 6, 1)), Counted(0)),
    (Offer(2, 1, 3, (5, 2, 2)), Counted(0)),
    (
        Quote(0, 0, 3, LIMIT, 4),
        Best(Standing, 2, (7, 8, 2), 8, 10),
    ),
    (Change(2, (4, 2, 2)), Counted(1)),
    (Recheck(0, 4), Best(Standing, 2, (6, 8, 2), 8, 10)),
    (Withdraw(4), Counted(1)),
    (Read(0, 0), Best(Doubtful, 2, (6, 8, 2), 8, 10)),
    (Discard(0), Counted(0)),
    (Read(0, 0), Refused(Refusal::CardEmpty)),
];

#[test]
fn each_call_by_itself(rt: HostRuntime) -> Result<(), Fail> {
    let steps = [Themselves(&SEVEN_CALLS), Reply(&[4, 2, 9, 9])];
    check_trunk_day(&rt, SIZES, &steps, Some(&[0; 4]))?;
    Ok(())
}
