//! Records of the trunk product's feed as calls on its catalogue and quote book, and what they answer as replies to be printed.
#![tactic(auto)]

ghost use Rattle.std.specs.Prelude.{◌≡◌};
ghost use Rattle.service.specs.declared.ServiceError.TheVariants as ServiceErrors;
ghost use Rattle.service.specs.Serving.{value_of, limit_of, call_of, card_read, printed};

use cards::{Answer, Call, Reply};
use catalogue::{Ask, Link, Route};
use line::Reply as Printed;
use measure::pair::{Trunk, TrunkLimit, trunk_limits, trunk_value};
use records::{Measures, Record};
use std::alloc::AllocError;
use std::io;
use thiserror::Error;

mod feeds;
mod input;
mod large;
mod serving;
mod storage;

pub use input::{read_input, serve_input};
pub use large::serve_large_input;
pub use serving::Service;

// Why the lines of a feed were not written to their end.
#[derive(Debug, Drop, Error)]
pub enum ServiceError {
    #[error("the input or the output failed: {0}")]
    Io(io::Error),
    #[error("out of memory")]
    OutOfMemory,
}

// The conversions are written out, since a derived one promises nothing, and contracts say which error came.
impl From<io::Error> for ServiceError {
    ghost from_gives = { λ error e. e ≡ ServiceErrors.Io error };

    fn from(error: io::Error) -> ServiceError {
        ServiceError::Io(error)
    }
}

impl From<AllocError> for ServiceError {
    ghost from_gives = { λ _ e. e ≡ ServiceErrors.OutOfMemory };

    fn from(_: AllocError) -> ServiceError {
        ServiceError::OutOfMemory
    }
}

// The four conversions here are functions: neither type is of this crate, so that no `From` can stand here.
fn value(measures: Measures) -> Trunk
    ensures { result ≡ value_of measures }
{
    trunk_value(measures.delay, measures.price, measures.class)
}

fn limit(limits: Measures) -> TrunkLimit
    ensures { result ≡ limit_of limits }
{
    trunk_limits(limits.delay, limits.price, limits.class)
}

// The call that a record asks for, kind by kind. Routing holds k walks a site; a reading copies the legs from the reply's first place on.
pub fn call_of(record: Record, k: usize) -> Call<Trunk, TrunkLimit>
    ensures { result ≡ call_of «record» k }
{
    match record {
        Record::Offer {
            link,
            start,
            end,
            measures,
        } => {
            let value = value(measures);
            Call::Offer {
                place: link as usize,
                link: Link { start, end, value },
            }
        }
        Record::Change { link, measures } => Call::Change {
            place: link as usize,
            value: value(measures),
        },
        Record::Withdraw { link } => Call::Withdraw {
            place: link as usize,
        },
        Record::Quote {
            card,
            source,
            destination,
            limits,
        } => {
            let card = card as usize;
            let limit = limit(limits);
            let ask = Ask {
                source,
                destination,
                limit,
            };
            Call::Quote { card, ask, k }
        }
        Record::Recheck { card } => Call::Recheck {
            card: card as usize,
            k,
        },
        Record::Discard { card } => Call::Discard {
            card: card as usize,
        },
        Record::Read { card } => Call::Read {
            card: card as usize,
            start: 0,
        },
    }
}

// The card that is read for printing once a quote or a recheck has answered what it holds: the two kinds are told from the others.
fn card_read(record: Record, reply: Reply<Trunk>) -> Option<usize>
    ensures { result ≡ card_read «record» reply }
{
    let Ok(Answer::Held { mark: _, answer: _ }) = reply else {
        return None;
    };
    match record {
        Record::Quote {
            card,
            source: _,
            destination: _,
            limits: _,
        } => Some(card as usize),
        Record::Recheck { card } => Some(card as usize),
        _ => None,
    }
}

// What is printed of a reply, case by case, and how many of the reply's numbers are the legs of its route.
pub fn print(reply: Reply<Trunk>) -> (Printed, usize)
    ensures { (result.0 ≡ (printed reply).0) × (result.1 ≡ (printed reply).1) }
{
    match reply {
        Ok(Answer::Counted(count)) => (Printed::Counted(count), 0),
        Ok(
            Answer::Held {
                mark,
                answer: Some(route),
            },
        ) => {
            let Route { legs, value, ratio } = route;
            (Printed::Route { mark, ratio, value }, legs)
        }
        Ok(Answer::Held { mark, answer: None }) => (Printed::NoRoute { mark }, 0),
        Err(why) => (Printed::Refused(why), 0),
    }
}
