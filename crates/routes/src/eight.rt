//! Eight sites, a b c d e f g i, numbered 0 to 7, joined by eleven links of three sums that run both ways.
use crate::checks::Want::*;
use crate::checks::*;
use std::process::Abort;
use std::test::Fail;

type Triple = (u32, u32, u32);

const LINKS: [Joined<Triple>; 11] = [
    (0, 1, (4, 1, 7)),
    (0, 2, (2, 3, 9)),
    (1, 3, (2, 5, 5)),
    (1, 4, (3, 7, 1)),
    (2, 4, (5, 3, 8)),
    (2, 6, (7, 8, 2)),
    (3, 5, (5, 4, 6)),
    (4, 5, (3, 3, 2)),
    (4, 6, (2, 2, 7)),
    (5, 7, (2, 1, 2)),
    (6, 7, (3, 5, 4)),
];

// What stands beside the questions is found for them. The tests below are tables for it, each under the name of what it shows.
fn check_eight(
    rt: &(impl Abort + Alloc),
    labels: usize,
    cases: &[Case<Triple>],
) -> Result<(), Fail> {
    let sizes = Sizes {
        sites: 8,
        places: 22,
        labels,
    };
    check_both_ways::<Three, _, _>(rt, sizes, &LINKS, cases)
}

const LIMIT: Triple = (14, 11, 22);

#[test]
fn between_a_and_i(rt: HostRuntime) -> Result<(), Fail> {
    let cases = [
        ((3, 0, 7, LIMIT), Best((12, 10, 21), 21, 22)),
        ((3, 7, 0, LIMIT), Best((12, 10, 21), 21, 22)),
    ];
    check_eight(&rt, 24, &cases)
}

#[test]
fn to_a(rt: HostRuntime) -> Result<(), Fail> {
    let cases = [
        ((3, 5, 0, LIMIT), Best((10, 9, 19), 19, 22)),
        ((3, 4, 0, LIMIT), Best((7, 8, 8), 8, 11)),
        ((3, 1, 0, LIMIT), Best((4, 1, 7), 7, 22)),
    ];
    check_eight(&rt, 24, &cases)
}

// All three measures use up their limits: the ratio is that of the first.
#[test]
fn at_the_limits(rt: HostRuntime) -> Result<(), Fail> {
    let cases = [
        ((3, 0, 7, (13, 11, 20)), Best((13, 11, 20), 13, 13)),
        ((3, 0, 7, (12, 10, 21)), Best((12, 10, 21), 12, 12)),
    ];
    check_eight(&rt, 24, &cases)
}

#[test]
fn outside_the_limits(rt: HostRuntime) -> Result<(), Fail> {
    check_eight(&rt, 24, &[((3, 0, 7, (12, 10, 20)), NoRoute)])
}

// By b and by c the walks to e have (7, 8, 8) and (7, 6, 17). With both kept, f is come to with (11, 10, 18), (10, 11, 10) and (10, 9, 19).
#[test]
fn too_few_labels(rt: HostRuntime) -> Result<(), Fail> {
    let cases = [((1, 0, 7, LIMIT), Full(4)), ((2, 0, 7, LIMIT), Full(5))];
    check_eight(&rt, 16, &cases)
}
