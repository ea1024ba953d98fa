//! Calls that are refused: of several causes the topmost is told, and nothing is changed by them.
use crate::checks::*;
use crate::tables::Asked::*;
use crate::tables::Step::{Calls, Links, Reply};
use crate::tables::Want::*;
use crate::tables::{Asked, Joined, Three, Turn};
use quotes::check_book_size;
use report::Mark::{Doubtful, Standing};
use report::Refusal::{self, *};
use std::process::Abort;
use std::test::Fail;

const SIZES: Sizes = Sizes {
    sites: 4,
    places: 5,
    cards: 3,
    labels: 16,
    reply: 4,
    book: None,
};

// A limit, and one that is not admitted.
const LIMIT: Three = (10, 10, 4);

const ZERO: Three = (10, 10, 0);

// A value, and no value of the trunk kind.
const VALUE: Three = (1, 1, 1);

const OVER: Three = (1, 2147483648, 1);

// Links at 0, 1 and 2, and none at 3 and 4; card 0 is standing, card 1 doubtful, and there is no card 2.
const SETTING: [Turn<Three>; 6] = [
    (Offer(0, 0, 1, (2, 2, 1)), Counted(0)),
    (Offer(1, 1, 3, (2, 2, 1)), Counted(0)),
    (Offer(2, 0, 2, (5, 5, 1)), Counted(0)),
    (
        Quote(0, 0, 3, LIMIT, 4),
        Best(Standing, 2, (4, 4, 1), 4, 10),
    ),
    (
        Quote(1, 0, 2, LIMIT, 4),
        Best(Standing, 1, (5, 5, 1), 5, 10),
    ),
    (Change(2, (6, 5, 1)), Counted(1)),
];

const READINGS: [Turn<Three>; 3] = [
    (Read(0, 0), Best(Standing, 2, (4, 4, 1), 4, 10)),
    (Read(1, 0), Best(Doubtful, 1, (5, 5, 1), 5, 10)),
    (Read(2, 0), Refused(CardEmpty)),
];

// The links of the setting, and its rows.
const LINKS: [Joined<Three>; 3] = [(0, 1, (2, 2, 1)), (1, 3, (2, 2, 1)), (0, 2, (6, 5, 1))];

const ROWS: [u16; 12] = [0, 1, 0, 0, 2, 0, 0, 0, 7, 7, 7, 7];

// Each call, in a day of its own after the setting, is refused with what stands beside it, and leaves links, cards, rows and reply as they were.
fn check_refused(rt: &(impl Abort + Alloc), calls: &[(Asked<Three>, Refusal)]) -> Result<(), Fail> {
    for &(asked, why) in calls {
        let refused = [(asked, Refused(why))];
        let steps = [
            Calls(&SETTING),
            Links(&LINKS),
            Calls(&READINGS),
            Calls(&refused),
            Links(&LINKS),
            Calls(&READINGS),
            Reply(&[2, 1, 9, 9]),
        ];
        check_trunk_day(rt, SIZES, &steps, Some(&ROWS))?;
    }
    Ok(())
}

// Each row lacks the topmost cause of the one before.
const CALLS_ON_LINKS: [(Asked<Three>, Refusal); 13] = [
    (Offer(5, 4, 4, OVER), NoSuchLink),
    (Offer(usize::MAX, 4, 4, OVER), NoSuchLink),
    (Offer(0, 4, 4, OVER), NoSuchSite),
    (Offer(0, 65535, 0, OVER), NoSuchSite),
    (Offer(0, 0, 4, OVER), NoSuchSite),
    (Offer(0, 3, 3, OVER), EndsMeet),
    (Offer(0, 0, 3, OVER), ValueNotAdmitted),
    (Offer(0, 0, 3, VALUE), LinkTaken),
    (Change(5, OVER), NoSuchLink),
    (Change(3, OVER), ValueNotAdmitted),
    (Change(3, VALUE), LinkEmpty),
    (Withdraw(5), NoSuchLink),
    (Withdraw(3), LinkEmpty),
];

#[test]
fn calls_on_links(rt: HostRuntime) -> Result<(), Fail> {
    check_refused(&rt, &CALLS_ON_LINKS)
}

// The workspace is right for 4 labels a site.
const QUOTES_AND_RECHECKS: [(Asked<Three>, Refusal); 14] = [
    (Quote(3, 4, 0, ZERO, 0), NoSuchCard),
    (Quote(usize::MAX, 4, 0, ZERO, 0), NoSuchCard),
    (Quote(0, 4, 0, ZERO, 0), NoSuchSite),
    (Quote(0, 0, 4, ZERO, 0), NoSuchSite),
    (Quote(0, 0, 3, ZERO, 0), LimitNotAdmitted),
    (Quote(0, 0, 3, LIMIT, 0), CardFilled),
    (Quote(1, 0, 3, LIMIT, 4), CardFilled),
    (Quote(2, 0, 3, LIMIT, 0), WorkspaceSize),
    (Quote(2, 0, 3, LIMIT, 5), WorkspaceSize),
    (Quote(2, 0, 3, LIMIT, usize::MAX), WorkspaceSize),
    (Recheck(3, 0), NoSuchCard),
    (Recheck(2, 0), CardEmpty),
    (Recheck(0, 0), WorkspaceSize),
    (Recheck(1, 3), WorkspaceSize),
];

#[test]
fn quotes_and_rechecks(rt: HostRuntime) -> Result<(), Fail> {
    check_refused(&rt, &QUOTES_AND_RECHECKS)
}

// Card 0 has two legs, and the reply four numbers.
const DISCARDS_AND_READINGS: [(Asked<Three>, Refusal); 7] = [
    (Discard(3), NoSuchCard),
    (Discard(2), CardEmpty),
    (Read(3, 5), NoSuchCard),
    (Read(2, 5), CardEmpty),
    (Read(0, 5), ReplyTooShort),
    (Read(0, 3), ReplyTooShort),
    (Read(1, 4), ReplyTooShort),
];

#[test]
fn discards_and_readings(rt: HostRuntime) -> Result<(), Fail> {
    check_refused(&rt, &DISCARDS_AND_READINGS)
}

// With a quote book that was made for other sites, or has too few numbers for a row each, the calls that take both are refused for that,
// whatever else is wrong with them; a discard and a reading take the quote book alone. There is one place for a link.
const MISFITS: [Turn<Three>; 8] = [
    (Offer(1, 4, 4, OVER), Refused(SitesDiffer)),
    (Change(1, OVER), Refused(SitesDiffer)),
    (Withdraw(1), Refused(SitesDiffer)),
    (Quote(3, 4, 0, (0, 0, 0), 0), Refused(SitesDiffer)),
    (Recheck(3, 0), Refused(SitesDiffer)),
    (Read(3, 0), Refused(NoSuchCard)),
    (Read(2, 0), Refused(CardEmpty)),
    (Discard(2), Refused(CardEmpty)),
];

// The catalogue has four sites, and there are three cards: a quote book for so many sites, with so many row numbers.
const OTHER_SITES: [(usize, usize); 6] = [(3, 9), (3, 12), (5, 12), (4, 11), (4, 0), (0, 0)];

#[test]
fn quote_books_for_other_sites(rt: HostRuntime) -> Result<(), Fail> {
    for book in OTHER_SITES {
        let sizes = Sizes {
            places: 1,
            book: Some(book),
            ..SIZES
        };
        check_trunk_day(&rt, sizes, &[Calls(&MISFITS)], Some(&[7; 12]))?;
    }
    Ok(())
}

// What is answered for a quote book that may not be.
const MISFIT: Result<(), Refusal> = Err(QuoteBookSize);

// Sites, cards and row numbers, and what is answered for a quote book that has them.
const BOOK_SIZES: [(usize, usize, usize, Result<(), Refusal>); 9] = [
    (1, 1, 1, Ok(())),
    (4, 3, 12, Ok(())),
    (256, 256, 65536, Ok(())),
    (1, 256, 256, Ok(())),
    (4, 0, 0, MISFIT),
    (4, 257, 1028, MISFIT),
    (4, 3, 11, MISFIT),
    (4, 3, 13, MISFIT),
    (usize::MAX, 2, 18446744073709551614, MISFIT),
];

#[test]
fn quote_book_sizes(rt: HostRuntime) {
    for (sites, cards, rows, want) in BOOK_SIZES {
        let came = check_book_size(sites, cards, rows);
        check_at(&rt, (sites, cards, rows), came, want);
    }
}

const LAST: u32 = 2147483647;

// Link place 4, card 2, site 3 and 2,147,483,647 are the last.
const AT_THEIR_LAST: [Turn<Three>; 7] = [
    (Offer(4, 3, 0, (LAST, 1, 1)), Counted(0)),
    (Change(4, (1, 1, LAST)), Counted(0)),
    (
        Quote(2, 3, 0, (LAST, LAST, LAST), 4),
        Best(Standing, 1, (1, 1, LAST), LAST, LAST),
    ),
    (Withdraw(4), Counted(1)),
    (Recheck(2, 4), NoRoute(Standing)),
    (Read(2, 4), NoRoute(Standing)),
    (Discard(2), Counted(0)),
];

#[test]
fn numbers_at_their_last(rt: HostRuntime) -> Result<(), Fail> {
    check_trunk_day(&rt, SIZES, &[Calls(&AT_THEIR_LAST)], None)?;
    Ok(())
}
