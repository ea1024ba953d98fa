//! Tests of the edges: the first and last numbers that are allowed, and those just past them.
#![tactic(auto)]

#[cfg(test)]
mod catalogues;
#[cfg(test)]
mod checks;
#[cfg(test)]
mod feeds;
#[cfg(test)]
mod lines;
#[cfg(test)]
mod measures;
