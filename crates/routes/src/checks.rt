//! What the tests share: values, questions, what is found for them, and how a network is asked.
use catalogue::walks::{Reached, follow};
use catalogue::{Ask, Catalogue, Link, Links, Route};
use labels::{Label, Slot, State};
use measure::pair::Pair;
use measure::scalar::Sum;
use measure::{Measure, Ratio};
use report::Refusal;
use routing::{Workspace, find_route};
use std::fmt::Debug;
use std::process::Abort;
use std::test::Fail;

pub(crate) type Two = Pair<Sum, Sum>;

pub(crate) type Three = Pair<Two, Sum>;

// The numbers of a value or of a limit, side by side, so that a table of links or questions can be a constant.
pub(crate) trait Numbers<M: Measure>: Copy {
    fn value(self) -> M;

    fn limit(self) -> M::Limit;
}

fn pair<A, B>(first: A, second: B) -> Pair<A, B> {
    Pair { first, second }
}

impl Numbers<Two> for (u32, u32) {
    fn value(self) -> Two {
        pair(Sum::new(self.0), Sum::new(self.1))
    }

    fn limit(self) -> Pair<u32, u32> {
        pair(self.0, self.1)
    }
}

impl Numbers<Three> for (u32, u32, u32) {
    fn value(self) -> Three {
        pair((self.0, self.1).value(), Sum::new(self.2))
    }

    fn limit(self) -> Pair<Pair<u32, u32>, u32> {
        pair(pair(self.0, self.1), self.2)
    }
}

// A link: its start and end, and its value.
pub(crate) type Joined<N> = (u16, u16, N);

// A question: how many labels a site has, source and destination, and the limit.
pub(crate) type Asked<N> = (usize, u16, u16, N);

// What is found: a route of this value and of a ratio with these two parts, no route, or that the labels of the site are full.
#[derive(Clone, Copy)]
pub(crate) enum Want<N> {
    Best(N, u32, u32),
    NoRoute,
    Full(usize),
}

impl<N> Want<N> {
    fn found<M: Measure>(self) -> Result<Option<(M, Ratio)>, Refusal>
    where
        N: Numbers<M>,
    {
        match self {
            Want::Best(value, top, bottom) => Ok(Some((value.value(), Ratio { top, bottom }))),
            Want::NoRoute => Ok(None),
            Want::Full(site) => Err(Refusal::LabelsFull { site }),
        }
    }
}

// A question, and what is found for it.
pub(crate) type Case<N> = (Asked<N>, Want<N>);

// How many sites and link places a network has, and how many labels there are to lend.
#[derive(Clone, Copy)]
pub(crate) struct Sizes {
    pub sites: usize,
    pub places: usize,
    pub labels: usize,
}

// Each crate of tests has its own few lines such as these two.
pub(crate) fn link<M: Measure>((start, end, value): Joined<impl Numbers<M>>) -> Link<M> {
    Link {
        start,
        end,
        value: value.value(),
    }
}

pub(crate) fn ask<M: Measure>(
    source: u16,
    destination: u16,
    limit: impl Numbers<M>,
) -> Ask<M::Limit> {
    Ask {
        source,
        destination,
        limit: limit.limit(),
    }
}

// What came is what was wanted. The assertion is proved here once, for values of any type.
pub(crate) fn check_same<T: Copy + PartialEq + Debug>(rt: &impl Abort, came: T, want: T) {
    assert_eq!(rt; came, want);
}

// Each number of the row is this one.
pub(crate) fn check_all(rt: &impl Abort, row: &[u16], want: u16) {
    for &number in row {
        check_same(rt, number, want);
    }
}

// The legs of the route stand at the head of the row: a walk from the source to the destination, of the route's value. Zeros follow.
// The two sites are handed over by themselves: the borrow checker does not cover a question that is used again once it was copied.
fn check_legs<M: Measure + PartialEq + Debug>(
    rt: &impl Abort,
    network: &Catalogue<'_, M>,
    source: u16,
    destination: u16,
    row: &[u16],
    route: Route<M>,
) -> Result<(), Fail> {
    let (legs, rest) = row.split_at_checked(route.legs).ok_or("too many legs")?;
    let end = Reached {
        site: destination,
        value: route.value,
    };
    check_same(rt, follow(network, source, legs), Some(end));
    check_all(rt, rest, 0);
    Ok(())
}

// A place as no call leaves it, with notes that lead nowhere.
pub(crate) fn used_slot<M: Measure>() -> Slot<M> {
    Slot {
        label: Label {
            state: State::Settled,
            value: M::empty(),
            previous: 5,
            link: 6,
        },
        share: Ratio { top: 9, bottom: 0 },
        winner: 60000,
        best: 60001,
        used: 60002,
        first: 60003,
        next: 60004,
    }
}

// Each of the labels is free.
fn check_free<M: Measure>(rt: &impl Abort, labels: &[Slot<M>]) {
    for &slot in labels {
        check_same(rt, slot.label.state, State::Free);
    }
}

// What routing answers, in a workspace of these labels for this call alone: afterwards each of them is free. Its contract is met here alone,
// so that no test has to carry it.
pub(crate) fn answer<M: Measure, N: Numbers<M>>(
    rt: &impl Abort,
    network: &Catalogue<'_, M>,
    labels: &mut [Slot<M>],
    (k, source, destination, limit): Asked<N>,
    row: &mut [u16],
) -> Result<Option<Route<M>>, Refusal> {
    let asked = ask(source, destination, limit);
    let answer = find_route(network, &mut Workspace::new(labels), k, asked, row);
    check_free(rt, labels);
    answer
}

// The value and the ratio of the route that is answered.
fn found<M: Measure>(
    answer: Result<Option<Route<M>>, Refusal>,
) -> Result<Option<(M, Ratio)>, Refusal> {
    match answer? {
        Some(route) => Ok(Some((route.value, route.ratio))),
        None => Ok(None),
    }
}

// The row holds the legs of a route, and zeros where there is none. A refusal leaves it as it was.
fn check_row<M: Measure + PartialEq + Debug>(
    rt: &impl Abort,
    network: &Catalogue<'_, M>,
    source: u16,
    destination: u16,
    row: &[u16],
    answer: Result<Option<Route<M>>, Refusal>,
) -> Result<(), Fail> {
    match answer {
        Ok(Some(route)) => check_legs(rt, network, source, destination, row, route)?,
        Ok(None) => check_all(rt, row, 0),
        Err(_) => check_all(rt, row, 9),
    }
    Ok(())
}

// This is found for the question, with the first of the labels that are lent.
fn check_answer<M: Measure + PartialEq + Debug, N: Numbers<M>>(
    rt: &impl Abort,
    network: &Catalogue<'_, M>,
    labels: &mut [Slot<M>],
    asked: Asked<N>,
    want: Want<N>,
) -> Result<(), Fail> {
    let (k, source, destination, _) = asked;
    let mut row = [9; 16];
    let size = network.sites().saturating_mul(k).min(labels.len());
    let answer = answer(rt, network, &mut labels[0..size], asked, &mut row);
    check_same(rt, found(answer), want.found());
    check_row(rt, network, source, destination, &row, answer)
}

// A network over these places, with the links from the first place on.
pub(crate) fn opened<'a, M: Measure, N: Numbers<M>>(
    places: &'a mut [Option<Link<M>>],
    sites: usize,
    first: usize,
    links: &[Joined<N>],
) -> Result<Catalogue<'a, M>, Refusal> {
    let mut network = Catalogue::open(places, sites);
    for (place, &joined) in links.iter().enumerate() {
        network.store(first.saturating_add(place), link(joined))?;
    }
    Ok(network)
}

// What stands beside the questions is found for them, with so many labels to lend, none of which is free at first.
fn check_cases<M: Measure + PartialEq + Debug, N: Numbers<M>>(
    rt: &(impl Abort + Alloc),
    network: &Catalogue<'_, M>,
    labels: usize,
    cases: &[Case<N>],
) -> Result<(), Fail> {
    let mut labels = vec![in rt.alloc(); used_slot::<M>(); labels]?;
    for &(asked, want) in cases {
        check_answer(rt, network, &mut labels, asked, want)?;
    }
    Ok(())
}

// In a network of these sizes, with these links from place 0 on, what stands beside them is found for the questions.
pub(crate) fn check_answers<M: Measure + PartialEq + Debug, N: Numbers<M>, R: Abort + Alloc>(
    rt: &R,
    sizes: Sizes,
    links: &[Joined<N>],
    cases: &[Case<N>],
) -> Result<(), Fail> {
    let mut places = vec![in rt.alloc(); None; sizes.places]?;
    let network = opened(&mut places, sizes.sites, 0, links)?;
    check_cases(rt, &network, sizes.labels, cases)
}

// The same, where each link stands in both directions, one after the other.
pub(crate) fn check_both_ways<M: Measure + PartialEq + Debug, N: Numbers<M>, R: Abort + Alloc>(
    rt: &R,
    sizes: Sizes,
    links: &[Joined<N>],
    cases: &[Case<N>],
) -> Result<(), Fail> {
    let mut both = Vec::new(rt.alloc());
    for &(start, end, value) in links {
        both.push((start, end, value))?;
        both.push((end, start, value))?;
    }
    check_answers(rt, sizes, &both, cases)
}
