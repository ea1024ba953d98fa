//! The records of a feed, what its bytes say at a place, and the bytes of a record. There is no code here: the mathematics of reading and
//! writing stands below the code that reads and writes, so that a change of the code does not prove it again.
#![tactic(auto)]

use report::Refusal;

// Three numbers as they came, not yet values: those of 2,147,483,648 and above stay as they are.
#[derive(Clone, Copy, PartialEq, Eq, Debug)]
pub struct Measures {
    pub delay: u32,
    pub price: u32,
    pub class: u32,
}

// One record of a feed: links and cards by their places, sites by their numbers.
#[derive(Clone, Copy, PartialEq, Eq, Debug)]
pub enum Record {
    // Kind 1: a link from the start site to the end site.
    Offer {
        link: u16,
        start: u16,
        end: u16,
        measures: Measures,
    },
    // Kind 2: other measures for a link.
    Change {
        link: u16,
        measures: Measures,
    },
    // Kind 3: a link is taken back.
    Withdraw {
        link: u16,
    },
    // Kind 4: a route within the limits is asked for, to be kept on the card.
    Quote {
        card: u16,
        source: u16,
        destination: u16,
        limits: Measures,
    },
    // Kind 5: the card's question is to be answered again.
    Recheck {
        card: u16,
    },
    // Kind 6: the card is thrown away.
    Discard {
        card: u16,
    },
    // Kind 7: what the card holds is asked for.
    Read {
        card: u16,
    },
}

// What a place of a feed holds: a record, or nothing at the feed's end and past it, or why what stands there is not read.
pub type Reading = Result<Option<Record>, Refusal>;
