//! Catalogues and quote books of sizes that opening would refuse, made without asking: no call answers none where there may be a route.
use crate::checks::*;
use crate::tables::Asked::*;
use crate::tables::Step::{Calls, Links, Reply, Themselves};
use crate::tables::Want::Refused;
use crate::tables::{Three, Turn};
use report::Refusal::*;
use std::process::Abort;
use std::test::Fail;

// A limit, and one that is not admitted.
const LIMIT: Three = (10, 10, 4);

const ZERO: Three = (10, 10, 0);

// A value within the limit, and no value of the trunk kind.
const VALUE: Three = (5, 5, 1);

const OVER: Three = (1, 2147483648, 1);

// Sites, link places and cards, and the sites and row numbers that the quote book is made for. There is a label for each site.
type Made = (usize, usize, usize, (usize, usize));

fn sizes_of((sites, places, cards, book): Made) -> Sizes {
    Sizes {
        sites,
        places,
        cards,
        labels: sites,
        reply: 4,
        book: Some(book),
    }
}

// In a day of each of these sizes the calls answer what stands beside them, by way of all calls and then each by its own function, and leave
// no link, and the reply and the rows as they were.
fn check_all_made(
    rt: &(impl Abort + Alloc),
    turns: &[Turn<Three>],
    made: &[Made],
) -> Result<(), Fail> {
    for &it in made {
        let sizes = sizes_of(it);
        let rows = filled(rt, 7, row_numbers(sizes))?;
        let steps = [Calls(turns), Themselves(turns), Links(&[]), Reply(&[9; 4])];
        check_trunk_day(rt, sizes, &steps, Some(&rows))?;
    }
    Ok(())
}

// Neither has a site. Link place 4,097 and card 257 are past the last of any of the sizes below.
const NO_SITES: [Turn<Three>; 21] = [
    (Offer(0, 0, 256, VALUE), Refused(NoSuchSite)),
    (Offer(3, 0, 0, OVER), Refused(NoSuchSite)),
    (Offer(4097, 0, 256, VALUE), Refused(NoSuchLink)),
    (Change(0, VALUE), Refused(LinkEmpty)),
    (Change(3, OVER), Refused(ValueNotAdmitted)),
    (Change(4097, OVER), Refused(NoSuchLink)),
    (Withdraw(0), Refused(LinkEmpty)),
    (Withdraw(3), Refused(LinkEmpty)),
    (Withdraw(4097), Refused(NoSuchLink)),
    (Quote(0, 0, 256, LIMIT, 1), Refused(NoSuchSite)),
    (Quote(0, 0, 0, LIMIT, 1), Refused(NoSuchSite)),
    (Quote(1, 1, 0, ZERO, 0), Refused(NoSuchSite)),
    (Quote(257, 0, 256, LIMIT, 1), Refused(NoSuchCard)),
    (Recheck(0, 1), Refused(CardEmpty)),
    (Recheck(1, 0), Refused(CardEmpty)),
    (Recheck(257, 1), Refused(NoSuchCard)),
    (Discard(0), Refused(CardEmpty)),
    (Discard(257), Refused(NoSuchCard)),
    (Read(0, 0), Refused(CardEmpty)),
    (Read(1, 5), Refused(CardEmpty)),
    (Read(257, 0), Refused(NoSuchCard)),
];

// The catalogue is of a size that is refused. So is the quote book, by one number, by many or by its cards alone, or it was made for no sites.
const NEITHER_HAS_SITES: [Made; 11] = [
    (257, 4, 2, (257, 513)),
    (257, 4, 2, (257, 515)),
    (257, 4, 2, (0, 0)),
    (257, 4097, 2, (257, 513)),
    (257, 4, 257, (257, 66048)),
    (257, 4097, 257, (257, 66049)),
    (0, 4, 2, (0, 0)),
    (0, 4, 2, (4, 7)),
    (0, 4, 2, (4, 9)),
    (4, 4097, 2, (4, 7)),
    (4, 4097, 2, (4, 9)),
];

#[test]
fn neither_has_sites(rt: HostRuntime) -> Result<(), Fail> {
    check_all_made(&rt, &NO_SITES, &NEITHER_HAS_SITES)
}

// Link place 4,096, card 256 and site 256 are the last of too many.
const TOO_MANY: [Turn<Three>; 7] = [
    (Offer(4096, 0, 256, VALUE), Refused(NoSuchSite)),
    (Change(4096, VALUE), Refused(LinkEmpty)),
    (Withdraw(4096), Refused(LinkEmpty)),
    (Quote(256, 0, 256, LIMIT, 1), Refused(NoSuchSite)),
    (Recheck(256, 1), Refused(CardEmpty)),
    (Discard(256), Refused(CardEmpty)),
    (Read(256, 0), Refused(CardEmpty)),
];

#[test]
fn the_last_of_too_many(rt: HostRuntime) -> Result<(), Fail> {
    check_all_made(&rt, &TOO_MANY, &[(257, 4097, 257, (257, 66048))])
}

// One of them has sites, and the other none: the calls that take both are refused for that, whatever else is wrong with them.
const SITES_APART: [Turn<Three>; 14] = [
    (Offer(0, 0, 256, VALUE), Refused(SitesDiffer)),
    (Offer(0, 0, 1, VALUE), Refused(SitesDiffer)),
    (Offer(4097, 0, 0, OVER), Refused(SitesDiffer)),
    (Change(0, VALUE), Refused(SitesDiffer)),
    (Withdraw(0), Refused(SitesDiffer)),
    (Quote(0, 0, 256, LIMIT, 1), Refused(SitesDiffer)),
    (Quote(0, 0, 1, LIMIT, 1), Refused(SitesDiffer)),
    (Quote(0, 0, 0, LIMIT, 1), Refused(SitesDiffer)),
    (Quote(257, 0, 1, ZERO, 0), Refused(SitesDiffer)),
    (Recheck(0, 1), Refused(SitesDiffer)),
    (Discard(0), Refused(CardEmpty)),
    (Discard(257), Refused(NoSuchCard)),
    (Read(1, 0), Refused(CardEmpty)),
    (Read(257, 0), Refused(NoSuchCard)),
];

// The catalogue has no sites in the first six, and the quote book none in the last five.
const ONE_HAS_SITES: [Made; 11] = [
    (257, 4, 2, (257, 514)),
    (257, 4, 2, (256, 512)),
    (0, 4, 2, (4, 8)),
    (0, 4, 2, (1, 2)),
    (4, 4097, 2, (4, 8)),
    (4, 0, 2, (4, 8)),
    (4, 4, 2, (4, 7)),
    (4, 4, 2, (4, 9)),
    (4, 4, 257, (4, 1027)),
    (4, 4, 257, (4, 1028)),
    (4, 4, 257, (4, 1029)),
];

#[test]
fn one_has_sites(rt: HostRuntime) -> Result<(), Fail> {
    check_all_made(&rt, &SITES_APART, &ONE_HAS_SITES)
}

// With no card places the quote book has no sites either: here the catalogue has none too.
const NO_CARDS: [Turn<Three>; 7] = [
    (Offer(0, 0, 3, VALUE), Refused(NoSuchSite)),
    (Change(0, VALUE), Refused(LinkEmpty)),
    (Withdraw(0), Refused(LinkEmpty)),
    (Quote(0, 0, 3, LIMIT, 1), Refused(NoSuchCard)),
    (Recheck(0, 1), Refused(NoSuchCard)),
    (Discard(0), Refused(NoSuchCard)),
    (Read(0, 0), Refused(NoSuchCard)),
];

#[test]
fn no_card_places(rt: HostRuntime) -> Result<(), Fail> {
    check_all_made(&rt, &NO_CARDS, &[(257, 4, 0, (257, 0)), (0, 4, 0, (4, 0))])
}

// With no card places, where the catalogue has sites.
const NO_CARDS_APART: [Turn<Three>; 7] = [
    (Offer(0, 0, 256, VALUE), Refused(SitesDiffer)),
    (Change(0, VALUE), Refused(SitesDiffer)),
    (Withdraw(0), Refused(SitesDiffer)),
    (Quote(0, 0, 256, LIMIT, 1), Refused(SitesDiffer)),
    (Recheck(0, 1), Refused(SitesDiffer)),
    (Discard(0), Refused(NoSuchCard)),
    (Read(0, 0), Refused(NoSuchCard)),
];

#[test]
fn no_card_places_beside_sites(rt: HostRuntime) -> Result<(), Fail> {
    check_all_made(
        &rt,
        &NO_CARDS_APART,
        &[(4, 4, 0, (4, 0)), (4, 4, 0, (4, 1))],
    )
}
