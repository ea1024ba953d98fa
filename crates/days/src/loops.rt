//! The second product, the loop catalogue: delay alone is weighed.
use crate::checks::*;
use crate::tables::Asked::*;
use crate::tables::Step::Calls;
use crate::tables::Turn;
use crate::tables::Want::*;
use measure::pair::Loop;
use report::Mark::{Doubtful, Standing};
use report::Refusal;
use std::test::Fail;

const SIZES: Sizes = Sizes {
    sites: 3,
    places: 4,
    cards: 2,
    labels: 3,
    reply: 3,
    book: None,
};

// By 1 and 2 the delay is 9 and then 11; by 3 it is 10.
const GROWING: [Turn<u32>; 13] = [
    (Offer(1, 0, 1, 5), Counted(0)),
    (Offer(2, 1, 2, 4), Counted(0)),
    (Offer(3, 0, 2, 10), Counted(0)),
    (Quote(0, 0, 2, 20, 1), Best(Standing, 2, 9, 9, 20)),
    (Quote(1, 0, 2, 8, 1), NoRoute(Standing)),
    (Change(3, 9), Counted(0)),
    (Change(3, 10), Counted(0)),
    (Change(1, 7), Counted(1)),
    (Read(0, 0), Best(Doubtful, 2, 9, 9, 20)),
    (Recheck(0, 1), Best(Standing, 1, 10, 10, 20)),
    (Change(3, 8), Counted(2)),
    (Recheck(1, 1), Best(Standing, 1, 8, 8, 8)),
    (Withdraw(3), Counted(1)),
];

#[test]
fn a_delay_grows(rt: HostRuntime) -> Result<(), Fail> {
    let rows = [3, 0, 0, 3, 0, 0];
    check_day::<Loop, _, _>(&rt, SIZES, &[Calls(&GROWING)], Some(&rows))?;
    Ok(())
}

const LAST: u32 = 2147483647;

// The sum of both links is over at first, and then the last number that is not.
const ENDS: [Turn<u32>; 9] = [
    (Offer(0, 0, 1, LAST), Counted(0)),
    (Offer(1, 1, 2, 1), Counted(0)),
    (Quote(0, 0, 2, 0, 1), Refused(Refusal::LimitNotAdmitted)),
    (
        Quote(0, 0, 2, 2147483648, 1),
        Refused(Refusal::LimitNotAdmitted),
    ),
    (
        Quote(0, 0, 2, 4294967295, 1),
        Refused(Refusal::LimitNotAdmitted),
    ),
    (Quote(0, 0, 2, LAST, 1), NoRoute(Standing)),
    (Quote(1, 1, 2, 1, 1), Best(Standing, 1, 1, 1, 1)),
    (Change(0, 2147483646), Counted(1)),
    (Recheck(0, 1), Best(Standing, 2, LAST, LAST, LAST)),
];

#[test]
fn limits_and_sums_at_their_ends(rt: HostRuntime) -> Result<(), Fail> {
    let rows = [0, 1, 0, 1, 0, 0];
    check_day::<Loop, _, _>(&rt, SIZES, &[Calls(&ENDS)], Some(&rows))?;
    Ok(())
}
