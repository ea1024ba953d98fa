//! Which walks take up a label of a site.
use crate::checks::Want::*;
use crate::checks::*;
use std::process::Abort;
use std::test::Fail;

type Pairs = (u32, u32);

const TENS: Pairs = (10, 10);

// Walks of equal value, on links of no weight, take up one label.
const WEIGHTLESS: [Joined<Pairs>; 6] = [
    (0, 2, (0, 0)),
    (2, 1, (0, 0)),
    (0, 1, (0, 0)),
    (0, 1, (0, 0)),
    (1, 0, (0, 0)),
    (1, 2, (0, 0)),
];

#[test]
fn equal_values_share_a_label(rt: HostRuntime) -> Result<(), Fail> {
    let sizes = Sizes {
        sites: 3,
        places: 6,
        labels: 3,
    };
    let cases = [
        ((1, 0, 1, TENS), Best((0, 0), 0, 10)),
        ((1, 0, 2, TENS), Best((0, 0), 0, 10)),
    ];
    check_answers::<Two, _, _>(&rt, sizes, &WEIGHTLESS, &cases)
}

// Site 2 is come to with (8, 8) first. That walk is still queued when (2, 2), by site 1, takes its place.
const OUTDONE: [Joined<Pairs>; 4] = [
    (0, 2, (8, 8)),
    (0, 1, (1, 1)),
    (1, 2, (1, 1)),
    (2, 3, (1, 1)),
];

#[test]
fn a_better_walk_takes_the_place(rt: HostRuntime) -> Result<(), Fail> {
    let sizes = Sizes {
        sites: 4,
        places: 4,
        labels: 4,
    };
    let cases = [
        ((1, 0, 2, TENS), Best((2, 2), 2, 10)),
        ((1, 0, 3, TENS), Best((3, 3), 3, 10)),
    ];
    check_answers::<Two, _, _>(&rt, sizes, &OUTDONE, &cases)
}

// One newcomer takes the place of two queued walks: site 2 has (8, 6) and (6, 8), then (1, 3), then (2, 2).
const TWO_OUTDONE: [Joined<Pairs>; 5] = [
    (0, 2, (8, 6)),
    (0, 2, (6, 8)),
    (0, 1, (1, 1)),
    (1, 2, (0, 2)),
    (1, 2, (1, 1)),
];

#[test]
fn a_better_walk_frees_two_places(rt: HostRuntime) -> Result<(), Fail> {
    let sizes = Sizes {
        sites: 3,
        places: 5,
        labels: 6,
    };
    let cases = [
        ((2, 0, 2, TENS), Best((2, 2), 2, 10)),
        ((1, 0, 2, TENS), Full(2)),
    ];
    check_answers::<Two, _, _>(&rt, sizes, &TWO_OUTDONE, &cases)
}

// Eleven links join site 0 to site 1, and no one dominates another. One link more goes on to site 2, where (7, 8) and (8, 7) have the same
// ratio.
const ELEVEN: [Joined<Pairs>; 12] = [
    (0, 1, (0, 10)),
    (0, 1, (1, 9)),
    (0, 1, (2, 8)),
    (0, 1, (3, 7)),
    (0, 1, (4, 6)),
    (0, 1, (5, 5)),
    (0, 1, (6, 4)),
    (0, 1, (7, 3)),
    (0, 1, (8, 2)),
    (0, 1, (9, 1)),
    (0, 1, (10, 0)),
    (1, 2, (5, 0)),
];

fn check_eleven(rt: &(impl Abort + Alloc), cases: &[Case<Pairs>]) -> Result<(), Fail> {
    let sizes = Sizes {
        sites: 3,
        places: 12,
        labels: 33,
    };
    check_answers::<Two, _, _>(rt, sizes, &ELEVEN, cases)
}

#[test]
fn eleven_labels_are_not_full(rt: HostRuntime) -> Result<(), Fail> {
    check_eleven(&rt, &[((11, 0, 2, TENS), Best((7, 8), 8, 10))])
}

#[test]
fn ten_labels_are_full(rt: HostRuntime) -> Result<(), Fail> {
    check_eleven(&rt, &[((10, 0, 2, TENS), Full(1))])
}
