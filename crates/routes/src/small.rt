//! Networks of a few sites, with the best route worked out.
use crate::checks::Want::*;
use crate::checks::*;
use std::test::Fail;

type Pairs = (u32, u32);

const TENS: Pairs = (10, 10);

// A D E F B is better than A E F B, (5, 7), and A E B, (7, 5).
// A to F are 0 to 5, but B is 1: the links join A D, D E, A E, E F, E B, F B, A C and C E.
const LONG_WAY: [Joined<Pairs>; 8] = [
    (0, 3, (3, 1)),
    (3, 4, (1, 1)),
    (0, 4, (3, 3)),
    (4, 5, (1, 2)),
    (4, 1, (4, 2)),
    (5, 1, (1, 2)),
    (0, 2, (1, 1)),
    (2, 4, (1, 7)),
];

#[test]
fn the_longest_way_is_best(rt: HostRuntime) -> Result<(), Fail> {
    let sizes = Sizes {
        sites: 6,
        places: 16,
        labels: 24,
    };
    let cases = [((4, 0, 1, TENS), Best((6, 6), 6, 10))];
    check_both_ways::<Two, _, _>(&rt, sizes, &LONG_WAY, &cases)
}

const FIVE_SITES: [Joined<Pairs>; 5] = [
    (0, 1, (1, 1)),
    (1, 3, (1, 7)),
    (0, 2, (3, 1)),
    (2, 3, (1, 1)),
    (3, 4, (3, 4)),
];

const FIVE: Sizes = Sizes {
    sites: 5,
    places: 10,
    labels: 10,
};

// Site 3 is come to with (2, 8) and (4, 2).
#[test]
fn two_labels_at_a_site(rt: HostRuntime) -> Result<(), Fail> {
    let cases = [
        ((1, 0, 4, TENS), Full(3)),
        ((2, 0, 4, TENS), Best((7, 6), 7, 10)),
    ];
    check_both_ways::<Two, _, _>(&rt, FIVE, &FIVE_SITES, &cases)
}

// The route from a site to itself has no legs, whatever links come back there: its value is that of the empty walk, which no leg leaves as it is.
const TO_THEMSELVES: [Case<Pairs>; 5] = [
    ((1, 0, 0, TENS), Best((0, 0), 0, 10)),
    ((1, 1, 1, TENS), Best((0, 0), 0, 10)),
    ((1, 2, 2, TENS), Best((0, 0), 0, 10)),
    ((1, 3, 3, TENS), Best((0, 0), 0, 10)),
    ((1, 4, 4, TENS), Best((0, 0), 0, 10)),
];

#[test]
fn from_a_site_to_itself(rt: HostRuntime) -> Result<(), Fail> {
    check_both_ways::<Two, _, _>(&rt, FIVE, &FIVE_SITES, &TO_THEMSELVES)
}

// The walk of first rank to site 1 is (1, 5), and the first link on from there gives (3, 8).
// The other walks to site 2 have (5, 6), (7, 4) and (9, 2). Towards site 3 all four are held; towards site 2 itself the last two are not, since
// (5, 6) is queued there, and ranks before them.
const TWO_AND_TWO: [Joined<Pairs>; 5] = [
    (0, 1, (5, 1)),
    (0, 1, (1, 5)),
    (1, 2, (2, 3)),
    (1, 2, (4, 1)),
    (2, 3, (0, 0)),
];

#[test]
fn the_first_route_met_is_not_the_best(rt: HostRuntime) -> Result<(), Fail> {
    let sizes = Sizes {
        sites: 4,
        places: 5,
        labels: 16,
    };
    let cases = [
        ((2, 0, 2, TENS), Best((5, 6), 6, 10)),
        ((4, 0, 3, TENS), Best((5, 6), 6, 10)),
        ((3, 0, 3, TENS), Full(2)),
    ];
    check_answers::<Two, _, _>(&rt, sizes, &TWO_AND_TWO, &cases)
}

const THOUSANDS: (u32, u32, u32) = (1000, 1000, 1000);

// The better end from site 1 on is not the end of the best route from site 0.
const TWO_ENDS: [Joined<(u32, u32, u32)>; 3] = [
    (0, 1, (500, 10, 10)),
    (1, 2, (10, 500, 10)),
    (1, 2, (499, 10, 10)),
];

#[test]
fn the_best_end_is_another(rt: HostRuntime) -> Result<(), Fail> {
    let sizes = Sizes {
        sites: 3,
        places: 6,
        labels: 6,
    };
    let cases = [
        ((2, 0, 2, THOUSANDS), Best((510, 510, 20), 510, 1000)),
        ((2, 1, 2, THOUSANDS), Best((499, 10, 10), 499, 1000)),
    ];
    check_both_ways::<Three, _, _>(&rt, sizes, &TWO_ENDS, &cases)
}

// Three sites and as many link places.
const THREE: Sizes = Sizes {
    sites: 3,
    places: 3,
    labels: 6,
};

#[test]
fn no_walk(rt: HostRuntime) -> Result<(), Fail> {
    let links = [(0, 1, (1, 1)), (2, 1, (1, 1))];
    let cases = [((2, 0, 2, TENS), NoRoute), ((2, 1, 0, TENS), NoRoute)];
    check_answers::<Two, _, _>(&rt, THREE, &links, &cases)
}

#[test]
fn no_walk_within_the_limit(rt: HostRuntime) -> Result<(), Fail> {
    let links = [(0, 1, (5, 5)), (1, 2, (5, 6)), (0, 2, (11, 0))];
    let cases = [
        ((2, 0, 2, TENS), NoRoute),
        ((2, 0, 1, TENS), Best((5, 5), 5, 10)),
    ];
    check_answers::<Two, _, _>(&rt, THREE, &links, &cases)
}
