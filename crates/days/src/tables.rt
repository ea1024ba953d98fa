//! What tables of calls are written in: plain numbers, side by side, so that a table can be a constant.
use cards::{Answer, Call, Reply};
use catalogue::{Ask, Link, Route};
use measure::pair::{Loop, Trunk, TrunkLimit, trunk_limits, trunk_value};
use measure::scalar::Sum;
use measure::{Measure, Ratio};
use report::{Mark, Refusal};
use std::alloc::AllocError;

// The numbers of a value or of a limit.
pub(crate) trait Numbers<M: Measure>: Copy {
    fn value(self) -> M;

    fn limit(self) -> M::Limit;
}

// Delay, price and class.
pub(crate) type Three = (u32, u32, u32);

impl Numbers<Trunk> for Three {
    fn value(self) -> Trunk {
        trunk_value(self.0, self.1, self.2)
    }

    fn limit(self) -> TrunkLimit {
        trunk_limits(self.0, self.1, self.2)
    }
}

impl Numbers<Loop> for u32 {
    fn value(self) -> Loop {
        Sum::new(self)
    }

    fn limit(self) -> u32 {
        self
    }
}

// A link: its start and end, and its value.
pub(crate) type Joined<N> = (u16, u16, N);

// Each crate of tests has its own few lines such as these two.
pub(crate) fn link<M: Measure>(start: u16, end: u16, value: impl Numbers<M>) -> Link<M> {
    Link {
        start,
        end,
        value: value.value(),
    }
}

pub(crate) fn ask<M: Measure>(
    source: u16,
    destination: u16,
    limit: impl Numbers<M>,
) -> Ask<M::Limit> {
    Ask {
        source,
        destination,
        limit: limit.limit(),
    }
}

// A call: an offer has the link's place, ends and value, a quote the card, both sites, the limit and the labels of a site.
#[derive(Copy)]
pub(crate) enum Asked<N> {
    Offer(usize, u16, u16, N),
    Withdraw(usize),
    Change(usize, N),
    Quote(usize, u16, u16, N, usize),
    Recheck(usize, usize),
    Discard(usize),
    Read(usize, usize),
}

// What it answers: how many cards fall into doubt; the card's mark and its route, of so many legs, with its value and the two parts of its ratio;
// that there is none; or why the call is refused.
#[derive(Copy)]
pub(crate) enum Want<N> {
    Counted(usize),
    Best(Mark, usize, N, u32, u32),
    NoRoute(Mark),
    Refused(Refusal),
}

// A clone is the copy: a derive would clone every field by itself, and have that proved.
impl<N: Copy> Clone for Asked<N> {
    fn clone(&self) -> Result<Self, AllocError> {
        Ok(*self)
    }
}

impl<N: Copy> Clone for Want<N> {
    fn clone(&self) -> Result<Self, AllocError> {
        Ok(*self)
    }
}

pub(crate) type Turn<N> = (Asked<N>, Want<N>);

impl<N> Asked<N> {
    pub(crate) fn call<M: Measure>(self) -> Call<M, M::Limit>
    where
        N: Numbers<M>,
    {
        match self {
            Asked::Offer(place, start, end, value) => Call::Offer {
                place,
                link: link(start, end, value),
            },
            Asked::Withdraw(place) => Call::Withdraw { place },
            Asked::Change(place, value) => Call::Change {
                place,
                value: value.value(),
            },
            Asked::Quote(card, source, destination, limit, k) => Call::Quote {
                card,
                ask: ask(source, destination, limit),
                k,
            },
            Asked::Recheck(card, k) => Call::Recheck { card, k },
            Asked::Discard(card) => Call::Discard { card },
            Asked::Read(card, start) => Call::Read { card, start },
        }
    }
}

// What is told of a card that holds this.
pub(crate) fn held<M: Measure>(mark: Mark, answer: Option<Route<M>>) -> Reply<M> {
    Ok(Answer::Held { mark, answer })
}

impl<N> Want<N> {
    pub(crate) fn reply<M: Measure>(self) -> Reply<M>
    where
        N: Numbers<M>,
    {
        match self {
            Want::Counted(cards) => Ok(Answer::Counted(cards)),
            Want::Best(mark, legs, value, top, bottom) => {
                let value = value.value();
                let ratio = Ratio { top, bottom };
                held(mark, Some(Route { legs, value, ratio }))
            }
            Want::NoRoute(mark) => held(mark, None),
            Want::Refused(why) => Err(why),
        }
    }
}

// A card, the start of a reading into five numbers, its reply and the numbers that it leaves.
pub(crate) type Reading<N> = (usize, usize, Want<N>, [u16; 5]);

// What a day goes through: calls by way of all calls, or each by its own function, that answer what stands beside them; the links of the first
// places, while the others hold none; readings; the numbers of the reply.
#[derive(Drop)]
pub(crate) enum Step<'a, N> {
    Calls(&'a [Turn<N>]),
    Themselves(&'a [Turn<N>]),
    Links(&'a [Joined<N>]),
    Readings(&'a [Reading<N>]),
    Reply(&'a [u16]),
}
