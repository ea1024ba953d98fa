//! Quote cards, the calls on a catalogue and its quote book, and what holds of every card after any run of these calls. There is no code
//! here: the mathematics stands below the code, so that a change of the code does not prove it again.
#![tactic(auto)]

use catalogue::{Ask, Link, Route};
use report::{Mark, Refusal};

// What is kept of a line that was asked about: what was asked, the best route or that there is none, and how far that can be trusted.
#[derive(Clone, Copy, PartialEq, Eq, Debug)]
pub struct Card<M, L> {
    pub mark: Mark,
    pub ask: Ask<L>,
    pub answer: Option<Route<M>>,
}

// What can happen to a card's mark.
#[derive(Clone, Copy, PartialEq, Eq, Debug)]
pub enum MarkEvent {
    // A link came, went or changed so that a better walk is possible or the route is gone.
    Struck,
    // A link came, went or changed, and the answer is still right.
    Spared,
    // The answer was found anew.
    Answered,
}

// A call on a catalogue and its quote book. Routing holds k walks a site; a reading copies the legs from a start place on.
#[derive(Clone, Copy, PartialEq, Eq, Debug)]
pub enum Call<M, L> {
    Offer { place: usize, link: Link<M> },
    Change { place: usize, value: M },
    Withdraw { place: usize },
    Quote { card: usize, ask: Ask<L>, k: usize },
    Recheck { card: usize, k: usize },
    Discard { card: usize },
    Read { card: usize, start: usize },
}

// What a call that is carried out answers: how many cards fell into doubt, or what a card holds.
#[derive(Clone, Copy, PartialEq, Eq, Debug)]
pub enum Answer<M> {
    Counted(usize),
    Held {
        mark: Mark,
        answer: Option<Route<M>>,
    },
}

// What a call answers, or why it was turned down.
pub type Reply<M> = Result<Answer<M>, Refusal>;
