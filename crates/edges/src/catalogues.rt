//! Catalogues at the ends of their sizes, and places and sites at their last numbers.
use crate::checks::check_at;
use catalogue::walks::{Reached, follow};
use catalogue::{Catalogue, Link, Links, check_size};
use measure::scalar::Sum;
use report::Refusal;
use std::process::Abort;

// How many sites and places.
const SIZES: [(usize, usize, Result<(), Refusal>); 10] = [
    (1, 1, Ok(())),
    (256, 4096, Ok(())),
    (1, 4096, Ok(())),
    (256, 1, Ok(())),
    (0, 1, Err(Refusal::CatalogueSize)),
    (257, 1, Err(Refusal::CatalogueSize)),
    (1, 0, Err(Refusal::CatalogueSize)),
    (1, 4097, Err(Refusal::CatalogueSize)),
    (0, 0, Err(Refusal::CatalogueSize)),
    (usize::MAX, usize::MAX, Err(Refusal::CatalogueSize)),
];

#[test]
fn sizes_at_their_ends(rt: HostRuntime) {
    for (sites, places, want) in SIZES {
        check_at(&rt, (sites, places), check_size(sites, places), want);
    }
}

// The start of a link, its end, and the number of its value.
type Numbers = (u16, u16, u32);

// Each crate of tests has its own few lines such as these.
fn link((start, end, number): Numbers) -> Link<Sum> {
    Link {
        start,
        end,
        value: Sum::new(number),
    }
}

// The link that an answer hands back.
fn answer(want: Result<Numbers, Refusal>) -> Result<Link<Sum>, Refusal> {
    Ok(link(want?))
}

// Links stored at the places answer what stands beside them.
fn check_stores(
    rt: &impl Abort,
    catalogue: &mut Catalogue<'_, Sum>,
    cases: &[(usize, Numbers, Result<(), Refusal>)],
) {
    for &(place, numbers, want) in cases {
        let stored = catalogue.store(place, link(numbers));
        check_at(rt, place, stored, want);
    }
}

// New values at the places answer what stands beside them.
fn check_values(
    rt: &impl Abort,
    catalogue: &mut Catalogue<'_, Sum>,
    cases: &[(usize, u32, Result<Numbers, Refusal>)],
) {
    for &(place, number, want) in cases {
        let replaced = catalogue.replace(place, Sum::new(number));
        check_at(rt, place, replaced, answer(want));
    }
}

// The links taken from the places are those that stand beside them.
fn check_removals(
    rt: &impl Abort,
    catalogue: &mut Catalogue<'_, Sum>,
    cases: &[(usize, Result<Numbers, Refusal>)],
) {
    for &(place, want) in cases {
        check_at(rt, place, catalogue.remove(place), answer(want));
    }
}

// In 32 places, between 16 sites: what is stored, then given another value, and then taken back.
const LAST_STORED: [(usize, Numbers, Result<(), Refusal>); 7] = [
    (31, (15, 0, 1), Ok(())),
    (32, (15, 0, 1), Err(Refusal::NoSuchLink)),
    (usize::MAX, (15, 0, 1), Err(Refusal::NoSuchLink)),
    (0, (16, 0, 1), Err(Refusal::NoSuchSite)),
    (0, (0, 65535, 1), Err(Refusal::NoSuchSite)),
    (0, (15, 15, 1), Err(Refusal::EndsMeet)),
    (31, (0, 1, 1), Err(Refusal::LinkTaken)),
];

const LAST_REPLACED: [(usize, u32, Result<Numbers, Refusal>); 2] = [
    (31, 2, Ok((15, 0, 1))),
    (32, 2, Err(Refusal::NoSuchLink)),
];

const LAST_REMOVED: [(usize, Result<Numbers, Refusal>); 3] = [
    (31, Ok((15, 0, 2))),
    (31, Err(Refusal::LinkEmpty)),
    (32, Err(Refusal::NoSuchLink)),
];

#[test]
fn places_and_sites_at_their_last(rt: HostRuntime) {
    let mut places = [None; 32];
    let mut catalogue = Catalogue::open(&mut places, 16);
    check_stores(&rt, &mut catalogue, &LAST_STORED);
    check_values(&rt, &mut catalogue, &LAST_REPLACED);
    check_removals(&rt, &mut catalogue, &LAST_REMOVED);
}

// In two places, between two sites: the greatest value, and the first that is refused.
const GREATEST_STORED: [(usize, Numbers, Result<(), Refusal>); 2] = [
    (0, (0, 1, 2147483647), Ok(())),
    (0, (1, 0, 2147483648), Err(Refusal::ValueNotAdmitted)),
];

const GREATEST_REPLACED: [(usize, u32, Result<Numbers, Refusal>); 2] = [
    (1, 2147483648, Err(Refusal::ValueNotAdmitted)),
    (1, 2147483647, Err(Refusal::LinkEmpty)),
];

#[test]
fn values_at_their_last(rt: HostRuntime) {
    let mut places = [None; 2];
    let mut catalogue = Catalogue::open(&mut places, 2);
    check_stores(&rt, &mut catalogue, &GREATEST_STORED);
    check_values(&rt, &mut catalogue, &GREATEST_REPLACED);
    let first = link((0, 1, 2147483647));
    check_at(&rt, 0, catalogue.link(0), Some(first));
    check_at(&rt, 1, catalogue.link(1), None);
    check_at(&rt, 2, catalogue.link(2), None);
}

// Two links, one in each direction.
const THERE_AND_BACK: [(usize, Numbers, Result<(), Refusal>); 2] = [
    (0, (0, 1, 2147483646), Ok(())),
    (1, (1, 0, 1), Ok(())),
];

// A source, the legs from there, and the site that they lead to, with the number of their value.
type Walk<'a> = (u16, &'a [u16], Option<(u16, u32)>);

const WALKS: [Walk<'static>; 6] = [
    (2, &[], Some((2, 0))),
    (0, &[0, 1], Some((0, 2147483647))),
    (0, &[0, 1, 0], Some((1, 2147483648))),
    (0, &[0, 0], None),
    (0, &[2], None),
    (0, &[4], None),
];

// What a walk leads to.
fn reached(want: Option<(u16, u32)>) -> Option<Reached<Sum>> {
    let (site, number) = want?;
    Some(Reached {
        site,
        value: Sum::new(number),
    })
}

// The walks lead to what stands beside them.
fn check_walks(rt: &impl Abort, catalogue: &Catalogue<'_, Sum>, walks: &[Walk<'_>]) {
    for &(source, legs, want) in walks {
        let came = follow(catalogue, source, legs);
        check_at(rt, legs.len(), came, reached(want));
    }
}

#[test]
fn legs_are_followed(rt: HostRuntime) {
    let mut places = [None; 4];
    let mut catalogue = Catalogue::open(&mut places, 3);
    check_stores(&rt, &mut catalogue, &THERE_AND_BACK);
    check_walks(&rt, &catalogue, &WALKS);
}
