//! The calls that keep the cards of a quote book true to its catalogue, one by one and in runs.
#![tactic(auto)]

mod changes;
mod run;

pub use book::{QuoteBook, check_book_size, discard, quote, read, recheck};
pub use changes::{change, offer, withdraw};
pub use run::perform;
