//! The library's calls, and what they answer in plain numbers.
use crate::figures::Share;
use crate::kind::Kind;
use crate::model::{PlainAsk, PlainLink, PlainRoute};
use crate::request::Request;
use crate::turn::Turn;
use cards::{Answer, Call};
use catalogue::{Ask, Catalogue, Link, Route};
use quotes::{QuoteBook, change, discard, offer, perform, quote, read, recheck, withdraw};
use report::{Mark, Refusal, Returned};
use routing::Workspace;

// What a call that is carried out answers.
#[derive(Clone, Copy, PartialEq, Eq, Debug)]
pub enum PlainAnswer {
    Counted(usize),
    Held {
        mark: Mark,
        answer: Option<PlainRoute>,
    },
}

// A refusal in print: its number, and what is returned with it.
#[derive(Clone, Copy, PartialEq, Eq, Debug)]
pub struct PlainRefusal {
    pub number: u8,
    pub returned: Returned,
}

// What a call answers, or its refusal.
pub type PlainReply = Result<PlainAnswer, PlainRefusal>;

impl From<Refusal> for PlainRefusal {
    fn from(why: Refusal) -> PlainRefusal {
        PlainRefusal {
            number: why.number(),
            returned: why.returned(),
        }
    }
}

impl<M: Kind> From<Route<M>> for PlainRoute {
    fn from(route: Route<M>) -> PlainRoute {
        PlainRoute {
            legs: route.legs,
            value: route.value.figures(),
            share: Share {
                top: route.ratio.top as u64,
                bottom: route.ratio.bottom as u64,
            },
        }
    }
}

impl<M: Kind> From<Link<M>> for PlainLink {
    fn from(link: Link<M>) -> PlainLink {
        PlainLink {
            start: link.start,
            end: link.end,
            value: link.value.figures(),
        }
    }
}

// What is held: a mark and an answer, of which a `From` would have to make a pair first.
fn held<M: Kind>(mark: Mark, answer: Option<Route<M>>) -> PlainAnswer {
    PlainAnswer::Held {
        mark,
        answer: answer.map(PlainRoute::from),
    }
}

impl<M: Kind> From<Answer<M>> for PlainAnswer {
    fn from(answer: Answer<M>) -> PlainAnswer {
        match answer {
            Answer::Counted(cards) => PlainAnswer::Counted(cards),
            Answer::Held { mark, answer } => held(mark, answer),
        }
    }
}

impl<M: Kind> From<PlainLink> for Link<M> {
    fn from(link: PlainLink) -> Link<M> {
        Link {
            start: link.start,
            end: link.end,
            value: M::value_of(link.value),
        }
    }
}

// The library's question says its limit and not its kind, so that a `From` could not tell the kind.
fn ask_of<M: Kind>(ask: PlainAsk) -> Ask<M::Limit> {
    Ask {
        source: ask.source,
        destination: ask.destination,
        limit: M::limit_of(ask.limit),
    }
}

impl<M: Kind> From<Request> for Call<M, M::Limit> {
    fn from(request: Request) -> Call<M, M::Limit> {
        match request {
            Request::Offer { place, link } => Call::Offer {
                place,
                link: Link::from(link),
            },
            Request::Change { place, value } => Call::Change {
                place,
                value: M::value_of(value),
            },
            Request::Withdraw { place } => Call::Withdraw { place },
            Request::Quote { card, ask, k, .. } => Call::Quote {
                card,
                ask: ask_of::<M>(ask),
                k,
            },
            Request::Recheck { card, k, .. } => Call::Recheck { card, k },
            Request::Discard { card } => Call::Discard { card },
            Request::Read { card, start, .. } => Call::Read { card, start },
        }
    }
}

// The call that the request says, of the seven.
fn call_itself<M: Kind>(
    catalogue: &mut Catalogue<'_, M>,
    book: &mut QuoteBook<'_, M>,
    workspace: &mut Workspace<'_, M>,
    reply: &mut [u16],
    request: Request,
) -> Result<PlainAnswer, Refusal> {
    match request {
        Request::Offer { place, link } => {
            offer(catalogue, book, place, Link::from(link)).map(PlainAnswer::Counted)
        }
        Request::Change { place, value } => {
            change(catalogue, book, place, M::value_of(value)).map(PlainAnswer::Counted)
        }
        Request::Withdraw { place } => withdraw(catalogue, book, place).map(PlainAnswer::Counted),
        Request::Quote { card, ask, k, .. } => {
            quote(&*catalogue, book, workspace, card, ask_of::<M>(ask), k).map(|answer| held(
                Mark::Standing,
                answer,
            ))
        }
        Request::Recheck { card, k, .. } => recheck(&*catalogue, book, workspace, card, k).map(
            |answer| held(Mark::Standing, answer),
        ),
        Request::Discard { card } => discard(book, card).map(|()| PlainAnswer::Counted(0)),
        Request::Read { card, start, .. } => {
            read(&*book, card, reply, start).map(|(mark, answer)| held(mark, answer))
        }
    }
}

// Carries out the turn's request by its own call, or by the one call for all.
pub(crate) fn carry_out<M: Kind>(
    catalogue: &mut Catalogue<'_, M>,
    book: &mut QuoteBook<'_, M>,
    workspace: &mut Workspace<'_, M>,
    reply: &mut [u16],
    turn: Turn,
) -> PlainReply {
    if turn.by_its_own {
        return Ok(call_itself(catalogue, book, workspace, reply, turn.request)?);
    }
    let call = Call::from(turn.request);
    let answer = perform(catalogue, book, workspace, reply, call)?;
    Ok(PlainAnswer::from(answer))
}

// What a reading of the card answers.
pub(crate) fn read_card<M: Kind>(
    book: &QuoteBook<'_, M>,
    card: usize,
    reply: &mut [u16],
    start: usize,
) -> PlainReply {
    let (mark, answer) = read(book, card, reply, start)?;
    Ok(held(mark, answer))
}
