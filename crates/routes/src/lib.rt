//! Tests of routing, on networks small enough to be worked out by hand.
#![tactic(auto)]

#[cfg(test)]
mod checks;
#[cfg(test)]
mod eight;
#[cfg(test)]
mod labels_kept;
#[cfg(test)]
mod refusals;
#[cfg(test)]
mod small;
