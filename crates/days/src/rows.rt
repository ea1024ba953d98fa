//! What cards, their rows, replies and the workspace hold after the calls on cards.
use crate::checks::*;
use crate::tables::Asked::*;
use crate::tables::Step::*;
use crate::tables::Want::*;
use crate::tables::{Reading, Step, Three, Turn, Want, ask};
use cards::Card;
use measure::Measure;
use measure::pair::Trunk;
use report::Mark::{Doubtful, Standing};
use report::Refusal;
use std::process::Abort;
use std::test::Fail;

const SIZES: Sizes = Sizes {
    sites: 4,
    places: 4,
    cards: 2,
    labels: 8,
    reply: 4,
    book: None,
};

const LIMIT: Three = (10, 10, 4);

// Site 0 is joined to 1 by link 1, and 1 to 3 by link 2.
const TWO_LINKS: [Turn<Three>; 2] = [
    (Offer(1, 0, 1, (5, 5, 1)), Counted(0)),
    (Offer(2, 1, 3, (1, 1, 1)), Counted(0)),
];

// A quote book over filled cards empties them, and leaves the rows.
fn check_opening<M: Measure>(
    rt: &impl Abort,
    cards: &mut [Option<Card<M, M::Limit>>],
    rows: &mut [u16],
) {
    let _book = open_book(cards, rows, 4);
    for card in cards.iter() {
        check_same(rt, card.is_none(), true);
    }
    check_numbers(rt, rows, &[7; 8]);
}

#[test]
fn opening_empties_cards_and_leaves_rows(rt: HostRuntime) {
    let filled = Card {
        ask: ask(0, 1, LIMIT),
        answer: None,
        mark: Standing,
    };
    check_opening::<Trunk>(&rt, &mut [Some(filled); 2], &mut [7; 8]);
}

// The rows of two cards after the first calls.
fn check_rows(
    rt: &(impl Abort + Alloc),
    turns: &[Turn<Three>],
    want: [u16; 8],
) -> Result<(), Fail> {
    let steps = [Calls(&TWO_LINKS), Calls(turns)];
    check_trunk_day(rt, SIZES, &steps, Some(&want))?;
    Ok(())
}

const CALLS_ON_CARDS: [Turn<Three>; 7] = [
    (
        Quote(0, 0, 3, LIMIT, 2),
        Best(Standing, 2, (6, 6, 1), 6, 10),
    ),
    (Offer(3, 0, 3, (5, 5, 1)), Counted(1)),
    (Recheck(0, 2), Best(Standing, 1, (5, 5, 1), 5, 10)),
    (Quote(1, 3, 0, LIMIT, 2), NoRoute(Standing)),
    (Read(1, 0), NoRoute(Standing)),
    (Discard(0), Counted(0)),
    (Read(0, 0), Refused(Refusal::CardEmpty)),
];

// After so many of the calls, these are the rows.
const ROWS: [(usize, [u16; 8]); 6] = [
    (0, [7; 8]),
    (1, [1, 2, 0, 0, 7, 7, 7, 7]),
    (2, [1, 2, 0, 0, 7, 7, 7, 7]),
    (3, [3, 0, 0, 0, 7, 7, 7, 7]),
    (5, [3, 0, 0, 0, 0, 0, 0, 0]),
    (7, [0; 8]),
];

#[test]
fn rows_hold_legs_and_then_zeros(rt: HostRuntime) -> Result<(), Fail> {
    for (count, want) in ROWS {
        check_rows(&rt, &CALLS_ON_CARDS[0..count.min(7)], want)?;
    }
    Ok(())
}

// The empty walk, whatever links there are: nothing of the first limit is used up.
const FROM_A_SITE_TO_ITSELF: [Turn<Three>; 3] = [
    (
        Quote(1, 0, 0, (7, 10, 4), 2),
        Best(Standing, 0, (0, 0, 0), 0, 7),
    ),
    (Read(1, 4), Best(Standing, 0, (0, 0, 0), 0, 7)),
    (Read(1, 5), Refused(Refusal::ReplyTooShort)),
];

#[test]
fn from_a_site_to_itself(rt: HostRuntime) -> Result<(), Fail> {
    check_rows(&rt, &FROM_A_SITE_TO_ITSELF, [7, 7, 7, 7, 0, 0, 0, 0])
}

// Card 0 has two legs, and card 1 none.
const TWO_CARDS: [Turn<Three>; 2] = [
    (
        Quote(0, 0, 3, LIMIT, 2),
        Best(Standing, 2, (6, 6, 1), 6, 10),
    ),
    (Quote(1, 3, 0, LIMIT, 2), NoRoute(Standing)),
];

// A reading that does not fit leaves the numbers as they were.
const READINGS: [Reading<Three>; 10] = [
    (0, 0, Best(Standing, 2, (6, 6, 1), 6, 10), [1, 2, 9, 9, 9]),
    (0, 2, Best(Standing, 2, (6, 6, 1), 6, 10), [9, 9, 1, 2, 9]),
    (0, 3, Best(Standing, 2, (6, 6, 1), 6, 10), [9, 9, 9, 1, 2]),
    (0, 4, Refused(Refusal::ReplyTooShort), [9; 5]),
    (0, 5, Refused(Refusal::ReplyTooShort), [9; 5]),
    (0, 6, Refused(Refusal::ReplyTooShort), [9; 5]),
    (0, usize::MAX, Refused(Refusal::ReplyTooShort), [9; 5]),
    (1, 5, NoRoute(Standing), [9; 5]),
    (1, 6, Refused(Refusal::ReplyTooShort), [9; 5]),
    (1, usize::MAX, Refused(Refusal::ReplyTooShort), [9; 5]),
];

#[test]
fn readings_at_each_start(rt: HostRuntime) -> Result<(), Fail> {
    let steps = [Calls(&TWO_LINKS), Calls(&TWO_CARDS), Readings(&READINGS)];
    check_trunk_day(&rt, SIZES, &steps, None)?;
    Ok(())
}

const STANDING: Want<Three> = Best(Standing, 2, (6, 6, 1), 6, 10);

const MISFIT: Want<Three> = Refused(Refusal::WorkspaceSize);

// What is answered after the withdrawal.
const NONE: Want<Three> = NoRoute(Standing);

const QUOTED: [Turn<Three>; 1] = [(Quote(0, 0, 3, LIMIT, 2), STANDING)];

// The rechecks of card 0 while it stands, after a withdrawal with too few labels a site, and then with enough of them.
const STANDING_RECHECKS: [Turn<Three>; 2] = [(Recheck(0, 2), STANDING), (Recheck(0, 1), MISFIT)];

const WITHDRAWN: [Turn<Three>; 1] = [(Withdraw(1), Counted(1))];

const DOUBTFUL_RECHECKS: [Turn<Three>; 1] = [(Recheck(0, 1), MISFIT)];

const LAST_RECHECKS: [Turn<Three>; 1] = [(Recheck(0, 2), NONE)];

const READ: [Turn<Three>; 1] = [(Read(0, 0), NONE)];

const RECHECKS: [Step<'static, Three>; 7] = [
    Calls(&TWO_LINKS),
    Calls(&QUOTED),
    Themselves(&STANDING_RECHECKS),
    Calls(&WITHDRAWN),
    Themselves(&DOUBTFUL_RECHECKS),
    Themselves(&LAST_RECHECKS),
    Calls(&READ),
];

// After so many of these steps, these are the rows.
const RECHECKED: [(usize, [u16; 8]); 4] = [
    (3, [1, 2, 0, 0, 7, 7, 7, 7]),
    (5, [1, 2, 0, 0, 7, 7, 7, 7]),
    (6, [0, 0, 0, 0, 7, 7, 7, 7]),
    (7, [0, 0, 0, 0, 7, 7, 7, 7]),
];

// The workspace is free after a recheck that is refused, be the card standing or doubtful, and after one that looks for a route.
#[test]
fn rechecks_and_the_workspace(rt: HostRuntime) -> Result<(), Fail> {
    for (count, want) in RECHECKED {
        check_trunk_day(&rt, SIZES, &RECHECKS[0..count.min(7)], Some(&want))?;
    }
    Ok(())
}

const FULL: Want<Three> = Refused(Refusal::LabelsFull { site: 1 });

// With one label a site, links 1 and 3 fill site 1: neither of their values dominates the other.
const FULL_SITE: [Turn<Three>; 6] = [
    (
        Quote(0, 0, 3, LIMIT, 1),
        Best(Standing, 2, (6, 6, 1), 6, 10),
    ),
    (Offer(3, 0, 1, (4, 6, 1)), Counted(1)),
    (Recheck(0, 1), FULL),
    (Quote(1, 0, 3, LIMIT, 1), FULL),
    (Read(0, 0), Best(Doubtful, 2, (6, 6, 1), 6, 10)),
    (Read(1, 0), Refused(Refusal::CardEmpty)),
];

// Then the card is rechecked by itself: no label is kept.
const FULL_RECHECKS: [Turn<Three>; 1] = [(Recheck(0, 1), FULL)];

#[test]
fn a_full_site_leaves_card_and_row(rt: HostRuntime) -> Result<(), Fail> {
    let sizes = Sizes { labels: 4, ..SIZES };
    let steps = [
        Calls(&TWO_LINKS),
        Calls(&FULL_SITE),
        Themselves(&FULL_RECHECKS),
    ];
    check_trunk_day(&rt, sizes, &steps, Some(&[1, 2, 0, 0, 7, 7, 7, 7]))?;
    Ok(())
}
