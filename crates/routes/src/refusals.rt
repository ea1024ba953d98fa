//! Routes that are refused before routing begins, for the first cause in order, and the row left as it was.
use crate::checks::*;
use catalogue::Route;
use measure::Measure;
use report::Refusal;
use std::process::Abort;
use std::test::Fail;

type Pairs = (u32, u32);

const TENS: Pairs = (10, 10);

// One link between two sites.
const LINKS: [Joined<Pairs>; 1] = [(0, 1, (1, 1))];

// A question, with so many labels in all and numbers in the row.
type Attempt<N> = (Asked<N>, usize, usize);

// What an attempt leaves: its answer, and a row of two numbers.
type Left<M> = (Result<Option<Route<M>>, Refusal>, [u16; 2]);

// The attempt at a route, in a network of two sites and so many places, with the links from the first place on. The row holds nines, and as
// many of its numbers are lent as the attempt says. No label is free at first.
fn attempt<M: Measure, N: Numbers<M>>(
    rt: &(impl Abort + Alloc),
    (places, first): (usize, usize),
    links: &[Joined<N>],
    (asked, size, numbers): Attempt<N>,
) -> Result<Left<M>, Fail> {
    let mut places = vec![in rt.alloc(); None; places]?;
    let mut labels = vec![in rt.alloc(); used_slot::<M>(); size]?;
    let mut row = [9; 2];
    let network = opened(&mut places, 2, first, links)?;
    let answer = answer(
        rt,
        &network,
        &mut labels,
        asked,
        &mut row[0..numbers.min(2)],
    );
    Ok((answer, row))
}

// Each attempt at a route in a network with these links, in one place, is refused, and the row left as it was.
fn check_refused<M: Measure, N: Numbers<M>>(
    rt: &(impl Abort + Alloc),
    links: &[Joined<N>],
    attempts: &[Attempt<N>],
    why: Refusal,
) -> Result<(), Fail> {
    for &attempted in attempts {
        let ((k, ..), size, _) = attempted;
        let (answer, row) = attempt::<M, N>(rt, (1, 0), links, attempted)?;
        check_same(rt, (size, k, answer.err()), (size, k, Some(why)));
        check_same(rt, row, [9; 2]);
    }
    Ok(())
}

// Whatever else is wrong beside the sites.
#[test]
fn no_such_site(rt: HostRuntime) -> Result<(), Fail> {
    for (source, destination) in [(2, 0), (0, 2), (2, 2), (65535, 1), (1, 65535)] {
        let attempts = [
            ((1, source, destination, TENS), 2, 2),
            ((1, source, destination, (0, 10)), 2, 2),
            ((0, source, destination, (10, 0)), 1, 1),
        ];
        check_refused::<Two, _>(&rt, &LINKS, &attempts, Refusal::NoSuchSite)?;
    }
    Ok(())
}

#[test]
fn limits_that_are_not_admitted(rt: HostRuntime) -> Result<(), Fail> {
    for limit in [(0, 10), (10, 0), (2147483648, 10), (10, 4294967295)] {
        let attempts = [
            ((1, 0, 1, limit), 2, 2),
            ((0, 0, 1, limit), 0, 2),
            ((1, 0, 1, limit), 3, 0),
        ];
        check_refused::<Two, _>(&rt, &LINKS, &attempts, Refusal::LimitNotAdmitted)?;
    }
    Ok(())
}

// Labels in all, and labels a site.
const MISFITS: [(usize, usize); 10] = [
    (0, 0),
    (2, 0),
    (0, 1),
    (1, 1),
    (3, 1),
    (2, 2),
    (127, 64),
    (129, 64),
    (130, 65),
    (2, usize::MAX),
];

#[test]
fn workspaces_of_another_size(rt: HostRuntime) -> Result<(), Fail> {
    for (size, k) in MISFITS {
        let attempts = [((k, 0, 1, TENS), size, 2), ((k, 0, 1, TENS), size, 1)];
        check_refused::<Two, _>(&rt, &LINKS, &attempts, Refusal::WorkspaceSize)?;
    }
    Ok(())
}

#[test]
fn rows_too_short(rt: HostRuntime) -> Result<(), Fail> {
    for numbers in 0..2usize {
        let attempts = [
            ((1, 0, 1, TENS), 2, numbers),
            ((64, 1, 1, (1, 1)), 128, numbers),
        ];
        check_refused::<Two, _>(&rt, &LINKS, &attempts, Refusal::ReplyTooShort)?;
    }
    Ok(())
}

#[test]
fn the_most_labels_and_the_least_limit(rt: HostRuntime) -> Result<(), Fail> {
    let sizes = Sizes {
        sites: 2,
        places: 1,
        labels: 128,
    };
    let cases = [((64, 0, 1, (1, 1)), Want::Best((1, 1), 1, 1))];
    check_answers::<Two, _, _>(&rt, sizes, &LINKS, &cases)
}

// The link, at place 1 of two, is the route from site 0 to site 1 under the limit.
fn check_just_held<M: Measure, N: Numbers<M>>(
    rt: &(impl Abort + Alloc),
    links: &[Joined<N>],
    limit: N,
) -> Result<(), Fail> {
    let (answer, row) = attempt::<M, N>(rt, (2, 1), links, ((1, 0, 1, limit), 2, 2))?;
    check_same(rt, answer?.is_some(), true);
    check_same(rt, row, [1, 0]);
    Ok(())
}

#[test]
fn a_row_that_just_holds_the_sites(rt: HostRuntime) -> Result<(), Fail> {
    check_just_held::<Two, _>(&rt, &LINKS, (2147483647, 1))
}

// Sites and link places of a network, and the two sites between which a route is sought: such a size is refused, so that the network has
// no sites. A row number and a label are lent for each of up to 257 sites.
const NO_SITES: [(usize, usize, u16, u16); 8] = [
    (257, 4, 0, 256),
    (257, 4, 0, 0),
    (257, 4097, 0, 256),
    (0, 4, 0, 0),
    (0, 4, 0, 1),
    (2, 0, 0, 1),
    (2, 4097, 0, 1),
    (usize::MAX, 1, 1, 0),
];

// With one label a site, under a limit that a link would meet.
#[test]
fn networks_of_no_sites(rt: HostRuntime) -> Result<(), Fail> {
    for (sites, places, source, destination) in NO_SITES {
        let mut places = vec![in rt.alloc(); None; places]?;
        let mut labels = vec![in rt.alloc(); used_slot::<Two>(); sites.min(257)]?;
        let mut row = [9; 257];
        let network = opened::<Two, Pairs>(&mut places, sites, 0, &[])?;
        let asked = (1, source, destination, TENS);
        let answer = answer(&rt, &network, &mut labels, asked, &mut row);
        check_same(
            &rt,
            (sites, answer.err()),
            (sites, Some(Refusal::NoSuchSite)),
        );
        check_all(&rt, &row, 9);
    }
    Ok(())
}
