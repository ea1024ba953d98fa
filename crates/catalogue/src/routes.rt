//! What is asked of a catalogue, and what a route through it is.
use measure::Ratio;

// What is asked for: the first walk in rank from the source to the destination within the limit.
#[derive(Clone, Copy, PartialEq, Eq, Debug)]
pub struct Ask<L> {
    pub source: u16,
    pub destination: u16,
    pub limit: L,
}

// A route: how many legs it has, its value, and the share of the limit that it uses up.
#[derive(Clone, Copy, PartialEq, Eq, Debug)]
pub struct Route<M> {
    pub legs: usize,
    pub ratio: Ratio,
    pub value: M,
}
