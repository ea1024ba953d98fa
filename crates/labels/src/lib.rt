//! The labels of label-setting routing, and what is kept of them from turn to turn. There is no code here: the mathematics of routing
//! stands below its code, so that a change of the code does not prove it again.
#![tactic(auto)]

use measure::Ratio;

// What a label's place is used for. A queued label is still to be extended, and may give up its place; a settled one is for good.
#[derive(Clone, Copy, PartialEq, Eq, Debug)]
pub enum State {
    Free,
    Queued,
    Settled,
}

// A walk that is held: its value, its last link, and the place of the label that it extends. A label that extends none names itself.
// It is named by its place: the labels of all sites lie in one slice that the caller lends.
#[derive(Clone, Copy, PartialEq, Eq, Debug)]
pub struct Label<M> {
    pub state: State,
    pub previous: u16,
    pub link: u16,
    pub value: M,
}

// A place of the workspace: its label, and spare fields, in which routing keeps what it needs to find a label or a link without looking at
// all. `share` is the ratio of the label's value; the others are notes for what has the place's number among its kind: `winner` for the
// node of a tournament between the sites, `best`, `used` and `first` for a site (the place of its queued label of first rank, how many of
// its places were ever used, its first link), `next` for a link (the next link from the same site). What has a known size stands first, so
// that it lies at a known distance from the start whatever the kind of value: the check is many times faster for it.
#[derive(Clone, Copy, PartialEq, Eq, Debug)]
pub struct Slot<M> {
    pub winner: u16,
    pub best: u16,
    pub used: u16,
    pub first: u16,
    pub next: u16,
    pub share: Ratio,
    pub label: Label<M>,
}
