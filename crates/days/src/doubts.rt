//! Which cards fall into doubt by news of a link: each line of the rule, on both its sides.
use crate::checks::*;
use crate::tables::Asked::*;
use crate::tables::Step::Calls;
use crate::tables::Want::*;
use crate::tables::{Asked, Three, Turn};
use report::Mark::{self, Doubtful, Standing};
use std::process::Abort;
use std::test::Fail;

const SIZES: Sizes = Sizes {
    sites: 5,
    places: 5,
    cards: 4,
    labels: 10,
    reply: 2,
    book: None,
};

// Three cards under (10, 10, 4). Card 0 from 0 to 3 has the route by 1 and 2, (6, 6, 1), since by 0 and 3 it is (9, 9, 1).
// Card 1 from 3 to 0 has none. Card 2 from 0 to 1 has the route by 0, (8, 1, 1). No link ends at site 4.
const SETTING: [Turn<Three>; 7] = [
    (Offer(0, 0, 1, (8, 1, 1)), Counted(0)),
    (Offer(1, 0, 2, (3, 3, 1)), Counted(0)),
    (Offer(2, 2, 3, (3, 3, 1)), Counted(0)),
    (Offer(3, 1, 3, (1, 8, 1)), Counted(0)),
    (
        Quote(0, 0, 3, (10, 10, 4), 2),
        Best(Standing, 2, (6, 6, 1), 6, 10),
    ),
    (Quote(1, 3, 0, (10, 10, 4), 2), NoRoute(Standing)),
    (
        Quote(2, 0, 1, (10, 10, 4), 2),
        Best(Standing, 1, (8, 1, 1), 8, 10),
    ),
];

// After the setting, the calls answer what stands beside them, and then the cards have these marks, with the answers of the setting.
fn check_doubt(
    rt: &(impl Abort + Alloc),
    turns: &[Turn<Three>],
    marks: [Mark; 3],
) -> Result<(), Fail> {
    let readings = [
        (Read(0, 0), Best(marks[0], 2, (6, 6, 1), 6, 10)),
        (Read(1, 0), NoRoute(marks[1])),
        (Read(2, 0), Best(marks[2], 1, (8, 1, 1), 8, 10)),
    ];
    let steps = [Calls(&SETTING), Calls(turns), Calls(&readings)];
    check_trunk_day(rt, SIZES, &steps, None)?;
    Ok(())
}

// Right after the setting, the call puts so many cards in doubt, and they have these marks.
type News = (Asked<Three>, usize, [Mark; 3]);

fn check_news(rt: &(impl Abort + Alloc), news: &[News]) -> Result<(), Fail> {
    for &(asked, cards, marks) in news {
        check_doubt(rt, &[(asked, Counted(cards))], marks)?;
    }
    Ok(())
}

const OFFERS_OUTSIDE_THE_LIMIT: [News; 3] = [
    (Offer(4, 0, 3, (11, 1, 1)), 0, [Standing; 3]),
    (Offer(4, 0, 3, (1, 11, 1)), 0, [Standing; 3]),
    (Offer(4, 0, 3, (10, 10, 5)), 0, [Standing; 3]),
];

#[test]
fn offers_outside_the_limit_strike_no_card(rt: HostRuntime) -> Result<(), Fail> {
    check_news(&rt, &OFFERS_OUTSIDE_THE_LIMIT)
}

// A card with no route is struck by each of these, and a card with a route by what ranks before it. No walk from another site comes by
// site 4, where the last begins, but the rule looks at the value alone.
const OFFERS_WITHIN_THE_LIMIT: [News; 9] = [
    (
        Offer(4, 0, 3, (10, 10, 4)),
        1,
        [Standing, Doubtful, Standing],
    ),
    (Offer(4, 0, 3, (8, 1, 1)), 1, [Standing, Doubtful, Standing]),
    (Offer(4, 0, 3, (7, 8, 1)), 2, [Standing, Doubtful, Doubtful]),
    (Offer(4, 0, 3, (7, 7, 1)), 2, [Standing, Doubtful, Doubtful]),
    (Offer(4, 0, 3, (6, 6, 1)), 2, [Standing, Doubtful, Doubtful]),
    (Offer(4, 0, 3, (6, 6, 2)), 2, [Standing, Doubtful, Doubtful]),
    (Offer(4, 0, 3, (6, 5, 1)), 3, [Doubtful; 3]),
    (Offer(4, 0, 3, (5, 5, 2)), 3, [Doubtful; 3]),
    (Offer(4, 4, 0, (1, 1, 1)), 3, [Doubtful; 3]),
];

#[test]
fn offers_within_the_limit(rt: HostRuntime) -> Result<(), Fail> {
    check_news(&rt, &OFFERS_WITHIN_THE_LIMIT)
}

// Link 0 is a leg of card 2 alone: the zeros after the legs of card 0, and those in the row of card 1, are none.
const WITHDRAWALS: [News; 4] = [
    (Withdraw(0), 1, [Standing, Standing, Doubtful]),
    (Withdraw(1), 1, [Doubtful, Standing, Standing]),
    (Withdraw(2), 1, [Doubtful, Standing, Standing]),
    (Withdraw(3), 0, [Standing; 3]),
];

#[test]
fn withdrawals(rt: HostRuntime) -> Result<(), Fail> {
    check_news(&rt, &WITHDRAWALS)
}

// Link 1 is on the route of card 0, link 0 on that of card 2.
const CHANGES_ON_A_ROUTE: [News; 6] = [
    (Change(1, (3, 3, 1)), 0, [Standing; 3]),
    (Change(1, (3, 4, 1)), 1, [Doubtful, Standing, Standing]),
    (Change(1, (0, 11, 1)), 1, [Doubtful, Standing, Standing]),
    (Change(1, (2, 3, 1)), 3, [Doubtful; 3]),
    (Change(0, (8, 1, 1)), 0, [Standing; 3]),
    (Change(0, (8, 1, 2)), 1, [Standing, Standing, Doubtful]),
];

#[test]
fn changes_on_a_route(rt: HostRuntime) -> Result<(), Fail> {
    check_news(&rt, &CHANGES_ON_A_ROUTE)
}

// Link 3, of (1, 8, 1), is on no route: the same, worse, incomparable and outside the limit, incomparable, better.
const CHANGES_OFF_EACH_ROUTE: [News; 7] = [
    (Change(3, (1, 8, 1)), 0, [Standing; 3]),
    (Change(3, (2, 8, 1)), 0, [Standing; 3]),
    (Change(3, (0, 11, 1)), 0, [Standing; 3]),
    (Change(3, (2, 7, 1)), 2, [Standing, Doubtful, Doubtful]),
    (Change(3, (2, 5, 1)), 3, [Doubtful; 3]),
    (Change(3, (1, 7, 1)), 2, [Standing, Doubtful, Doubtful]),
    (Change(3, (1, 5, 1)), 3, [Doubtful; 3]),
];

#[test]
fn changes_off_each_route(rt: HostRuntime) -> Result<(), Fail> {
    check_news(&rt, &CHANGES_OFF_EACH_ROUTE)
}

// Card 0 falls by the first withdrawal. Its legs still name link 2, and the offer ranks before its route, but it has fallen already.
const DOUBTFUL_ALREADY: [Turn<Three>; 4] = [
    (Withdraw(1), Counted(1)),
    (Withdraw(2), Counted(0)),
    (Offer(1, 0, 2, (1, 1, 1)), Counted(2)),
    (Withdraw(0), Counted(0)),
];

#[test]
fn a_doubtful_card_is_not_counted_again(rt: HostRuntime) -> Result<(), Fail> {
    check_doubt(&rt, &DOUBTFUL_ALREADY, [Doubtful; 3])
}

// The link comes back as it was, and the old answer is right again; the card stays doubtful all the same, until it is rechecked.
const DOUBT_THAT_LASTS: [Turn<Three>; 11] = [
    (Withdraw(2), Counted(1)),
    (Offer(2, 2, 3, (3, 3, 1)), Counted(2)),
    (Change(2, (3, 3, 1)), Counted(0)),
    (Withdraw(3), Counted(0)),
    (Read(0, 0), Best(Doubtful, 2, (6, 6, 1), 6, 10)),
    (
        Quote(3, 0, 0, (10, 10, 4), 2),
        Best(Standing, 0, (0, 0, 0), 0, 10),
    ),
    (Recheck(2, 2), Best(Standing, 1, (8, 1, 1), 8, 10)),
    (Discard(3), Counted(0)),
    (Read(0, 0), Best(Doubtful, 2, (6, 6, 1), 6, 10)),
    (Recheck(0, 2), Best(Standing, 2, (6, 6, 1), 6, 10)),
    (Change(0, (9, 1, 1)), Counted(1)),
];

#[test]
fn doubt_lasts_until_a_recheck(rt: HostRuntime) -> Result<(), Fail> {
    check_doubt(&rt, &DOUBT_THAT_LASTS, [Standing, Doubtful, Doubtful])
}
