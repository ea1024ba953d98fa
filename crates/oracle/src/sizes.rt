//! Which sizes can be opened.
use crate::cause::Cause;
use crate::difference::{Difference, ensure};
use crate::random::Random;
use crate::tally::Tally;
use catalogue::check_size;
use quotes::check_book_size;
use report::Refusal;

// A size that is small, or near the most that is allowed, or far beyond.
fn size(random: &mut Random, most: usize) -> usize {
    match random.below(9) {
        0 => 0,
        1 => 1,
        2 => most,
        3 => most.saturating_add(1),
        4 => usize::MAX,
        _ => random.below(most),
    }
}

// How many numbers the rows have: mostly as many as there should be.
fn row_numbers(random: &mut Random, sites: usize, cards: usize) -> usize {
    match random.below(6) {
        0 => random.below(40),
        1 => sites.wrapping_mul(cards).wrapping_add(1),
        2 => sites.wrapping_mul(cards).wrapping_sub(1),
        _ => sites.wrapping_mul(cards),
    }
}

// Notes the refusal, and compares what is answered with what should be.
fn check_answer(
    tally: &mut Tally,
    answer: Result<(), Refusal>,
    wanted: Result<(), Cause>,
) -> Result<(), Difference> {
    let answer = answer.map_err(|why| why.number());
    if let Err(number) = answer {
        tally.note_refusal(number);
    }
    let wanted = wanted.map_err(|cause| cause.number());
    ensure(answer == wanted, Difference::Size)
}

// What a catalogue of the size should be answered.
fn foresee_catalogue(sites: usize, places: usize) -> Result<(), Cause> {
    let fits = (1..=256).contains(&sites) && (1..=4096).contains(&places);
    ensure(fits, Cause::CatalogueSize)
}

// What a quote book of the size should be answered: a row for each card has a number for each site.
fn foresee_book(sites: usize, cards: usize, numbers: usize) -> Result<(), Cause> {
    let fits = (1..=256).contains(&cards) && sites.checked_mul(cards) == Some(numbers);
    ensure(fits, Cause::QuoteBookSize)
}

// Tries a size of a catalogue and one of a quote book.
pub(crate) fn try_sizes(random: &mut Random, tally: &mut Tally) -> Result<(), Difference> {
    let sites = size(random, 256);
    let places = size(random, 4096);
    let cards = size(random, 256);
    let numbers = row_numbers(random, sites, cards);
    let catalogue = check_size(sites, places);
    check_answer(tally, catalogue, foresee_catalogue(sites, places))?;
    let book = check_book_size(sites, cards, numbers);
    check_answer(tally, book, foresee_book(sites, cards, numbers))
}
