//! Tests of whole days of calls: cards and their rows, doubt, refusals, and the loop product.
#![tactic(auto)]

#[cfg(test)]
mod checks;
#[cfg(test)]
mod doubts;
#[cfg(test)]
mod loops;
#[cfg(test)]
mod refusals;
#[cfg(test)]
mod rows;
#[cfg(test)]
mod tables;
#[cfg(test)]
mod trunk_day;
#[cfg(test)]
mod unchecked;
