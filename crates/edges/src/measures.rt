//! Limits and measures at the ends of their ranges.
use crate::checks::{check_at, check_same};
use measure::pair::{Pair, Trunk, trunk_limits, trunk_value};
use measure::scalar::{Sum, Worst};
use measure::{Measure, ranks_before};
use std::fmt::Debug;
use std::process::Abort;

const LAST: u32 = 2147483647;

// Whether the limit, made with this number, is admitted.
fn check_limit<M: Measure>(rt: &impl Abort, number: u32, limit: M::Limit, admitted: bool) {
    check_at(rt, number, M::limit_admitted(limit), admitted);
}

// Numbers, and whether a limit may have them.
const LIMITS: [(u32, bool); 5] = [
    (0, false),
    (1, true),
    (LAST, true),
    (LAST + 1, false),
    (u32::MAX, false),
];

#[test]
fn limits_from_1_to_the_last_are_admitted(rt: HostRuntime) {
    for (limit, admitted) in LIMITS {
        check_limit::<Sum>(&rt, limit, limit, admitted);
        check_limit::<Worst>(&rt, limit, limit, admitted);
        check_limit::<Trunk>(&rt, limit, trunk_limits(limit, 1, LAST), admitted);
        check_limit::<Trunk>(&rt, limit, trunk_limits(1, limit, LAST), admitted);
        check_limit::<Trunk>(&rt, limit, trunk_limits(1, LAST, limit), admitted);
    }
}

// Whether the value, made with this number, is admitted.
fn check_value<M: Measure>(rt: &impl Abort, number: u32, value: M, admitted: bool) {
    check_at(rt, number, value.admitted(), admitted);
}

// Whether the value is within the limit.
fn check_within<M: Measure>(rt: &impl Abort, value: M, limit: M::Limit, within: bool) {
    check_same(rt, value.within(limit), within);
}

// Whether the first value comes before the second.
fn check_before<M: Measure>(rt: &impl Abort, value: M, other: M, before: bool) {
    check_same(rt, value.before(other), before);
}

// The two values joined give the third.
fn check_joined<M: Measure + PartialEq + Debug>(rt: &impl Abort, value: M, next: M, joined: M) {
    check_same(rt, value.join(next), joined);
}

// Numbers, and whether a value may have them.
const NUMBERS: [(u32, bool); 4] = [
    (0, true),
    (LAST, true),
    (LAST + 1, false),
    (u32::MAX, false),
];

#[test]
fn measures_past_the_last_are_over(rt: HostRuntime) {
    for (number, admitted) in NUMBERS {
        check_value(&rt, number, trunk_value(number, 0, 0), admitted);
        check_value(&rt, number, trunk_value(0, number, 0), admitted);
        check_value(&rt, number, trunk_value(0, 0, number), admitted);
    }
    let over = trunk_value(u32::MAX, LAST + 1, u32::MAX);
    check_same(&rt, over, trunk_value(LAST + 1, u32::MAX, LAST + 1));
    check_within(&rt, Sum::new(LAST), LAST, true);
    check_within(&rt, Sum::new(LAST + 1), LAST, false);
}

#[test]
fn over_stays_over(rt: HostRuntime) {
    let over = Sum::new(LAST + 1);
    check_joined(&rt, over, Sum::new(0), over);
    check_joined(&rt, over, over, over);
    check_joined(&rt, Sum::new(LAST), Sum::new(LAST), over);
    check_before(&rt, Sum::new(LAST), over, true);
    check_before(&rt, over, over, false);
    let (worst, worse) = (Worst::new(3), Worst::new(LAST + 1));
    check_joined(&rt, worst, worse, Worst::new(u32::MAX));
}

// Each crate of tests has its own few lines such as these.
fn two(a: u32, b: u32) -> Pair<Sum, Sum> {
    Pair {
        first: Sum::new(a),
        second: Sum::new(b),
    }
}

// Three sites, two sums under (10, 10): of four walks the best has (5, 6).
#[test]
fn the_smaller_ratio_ranks_first(rt: HostRuntime) {
    let limit = Pair {
        first: 10,
        second: 10,
    };
    let best = two(5, 6);
    for other in [two(7, 4), two(3, 8), two(9, 2)] {
        assert!(rt; ranks_before(best, other, limit));
        assert!(rt; !ranks_before(other, best, limit));
    }
    assert!(rt; !ranks_before(best, best, limit));
}
