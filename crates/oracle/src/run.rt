//! A catalogue and its quote book, small and drawn at random, and a run of calls on them.
use crate::difference::{Difference, ensure};
use crate::feeds::try_bytes;
use crate::kind::Kind;
use crate::lent::are_marked;
use crate::model::{CARDS, Model, foresee_elsewhere};
use crate::random::Random;
use crate::request::{Draw, Style};
use crate::sizes::try_sizes;
use crate::tally::{Tally, count};
use crate::turn::{Trial, Turn};
use cards::Card;
use catalogue::{Catalogue, Link};
use labels::Slot;
use measure::Measure;
use quotes::QuoteBook;

// How many catalogues of each kind are tried.
const CATALOGUES: usize = 50_000;

// How many calls are made on a catalogue.
const CALLS: usize = 60;

// The most sites that are tried.
const SITES: usize = 5;

// A number for each card place and site.
const ROWS: usize = CARDS * SITES;

// How many card places the quote book has that is for another number of sites.
pub const OTHER_CARDS: usize = 2;

// A number for each of these and each site, and one site more.
const OTHER_ROWS: usize = OTHER_CARDS * (SITES + 1);

// What is lent to one catalogue after the other, to its quote book and one for another number of sites, and to their calls.
#[derive(Drop)]
pub struct Memory<'a, M: Measure> {
    pub links: &'a mut [Option<Link<M>>],
    pub cards: &'a mut [Option<Card<M, M::Limit>>],
    pub other_cards: &'a mut [Option<Card<M, M::Limit>>],
    pub labels: &'a mut [Slot<M>],
}

// What the values of a catalogue are multiplied by: 1, or so much that sums come to the end of their range.
fn scale(random: &mut Random) -> u64 {
    match random.below(8) {
        0 => 357913941,
        1 => 65537,
        _ => 1,
    }
}

// The next call, mostly on the catalogue's own quote book, and what both hold after it.
fn try_call<M: Kind>(
    trial: &mut Trial<'_, M>,
    random: &mut Random,
    style: Style,
) -> Result<(), Difference> {
    let mut draw = Draw {
        random,
        model: &trial.model,
        style,
    };
    let request = draw.request();
    let by_its_own = random.one_in(2);
    let is_elsewhere = random.one_in(24);
    let forecast = if is_elsewhere {
        foresee_elsewhere(request, OTHER_CARDS)
    } else {
        trial.model.foresee(request)
    };
    let turn = Turn {
        request,
        forecast,
        by_its_own,
        is_elsewhere,
    };
    let compared = trial.take(turn).and_then(|()| trial.audit());
    compared.map_err(|wrong| Difference::Call { request, wrong })
}

// Makes a run of calls. It stands by itself, so that a check of it need not carry the memory that the catalogue is opened over.
fn try_calls<M: Kind>(
    trial: &mut Trial<'_, M>,
    random: &mut Random,
    style: Style,
) -> Result<(), Difference> {
    for _ in 0..CALLS {
        try_call(trial, random, style)?;
    }
    let labels = &mut *trial.labels;
    ensure(are_marked(labels), Difference::Labels)?;
    count(&mut trial.tally.catalogues);
    Ok(())
}

// Opens a catalogue and its quote book, and another quote book of another size, and makes a run of calls.
fn try_catalogue<M: Kind>(
    memory: &mut Memory<'_, M>,
    random: &mut Random,
    tally: &mut Tally,
) -> Result<(), Difference> {
    let sites = random.below(4) + 2;
    let places = (random.below(4) + random.below(7) + 1).min(memory.links.len());
    let card_places = (random.below(3) + 1).min(memory.cards.len());
    let scale = scale(random);
    let style = Style {
        scale,
        has_all: M::HAS_ALL,
    };
    let mut rows = [0; ROWS];
    let numbers = (card_places * sites).min(ROWS);
    let mut other_rows = [0; OTHER_ROWS];
    let other_numbers = (random.below(3) + OTHER_CARDS * sites).min(OTHER_ROWS);
    let mut trial = Trial {
        catalogue: Catalogue::open(&mut memory.links[0..places], sites),
        book: QuoteBook::open(
            &mut memory.cards[0..card_places],
            &mut rows[0..numbers],
            sites,
        ),
        other: QuoteBook::open(
            &mut *memory.other_cards,
            &mut other_rows[0..other_numbers],
            sites + 1,
        ),
        labels: &mut *memory.labels,
        model: Model::open(sites, places, card_places),
        tally,
    };
    try_calls(&mut trial, random, style)
}

// Tries a catalogue, and beside it sizes of others and the bytes of a feed.
fn try_one<M: Kind>(
    memory: &mut Memory<'_, M>,
    random: &mut Random,
    tally: &mut Tally,
) -> Result<(), Difference> {
    try_catalogue(memory, random, tally)?;
    try_sizes(random, tally)?;
    try_bytes(random, tally)
}

// Tries catalogues of one kind, one after the other in the same places.
pub(crate) fn try_kind<M: Kind>(
    memory: &mut Memory<'_, M>,
    random: &mut Random,
    tally: &mut Tally,
) -> Result<(), Difference> {
    for _ in 0..CATALOGUES {
        try_one(memory, random, tally)?;
    }
    Ok(())
}
