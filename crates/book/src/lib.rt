//! The quote book: cards with the best routes for what was asked, the calls on one card, and the marking of all cards by news of a link.
#![tactic(auto)]

ghost use Rattle.std.specs.Prelude.{◌≡◌, ◌+◌, ◌*◌, ◌<◌, ◌≤◌, [], length, take, None, slice_set};
ghost use Rattle.std.proofs.Math.Seq.{paste};
ghost use Rattle.cards.specs.Books.{book_size_answer, opened_book, row_at};
ghost use Rattle.cards.specs.Doubts.{uses};
ghost use Rattle.catalogue.specs.Asks.{row_with};
ghost use Rattle.std.proofs.Props.{props};
ghost use Rattle.cards.specs.Books.{SoundBook};
ghost use Rattle.book.specs.Sizes.{row_width};
ghost use Rattle.book.specs.Answers.{Refiled};

use cards::Card;
use catalogue::{empty_all, read_place};
use doubt::Cards;
use measure::Measure;
use report::Refusal;

mod answers;
mod entries;
mod marking;

// The calls are functions, and not methods, since most are of a catalogue and a quote book together.
pub use answers::{check_sites, quote, recheck};
pub use entries::{discard, read};
pub use marking::spread;

// Cards over places and rows that the caller lends: a card's row has one number for each site.
#[derive(Drop)]
pub struct QuoteBook<'a, M: Measure> {
    cards: &'a mut [Option<Card<M, M::Limit>>],
    rows: &'a mut [u16],
    sites: usize,
    ghost sound: { SoundBook M.Measure.kind sites cards.now rows.now } by { Prim.hlevel props },
}

// Whether a quote book of this size may be opened: 1 to 256 card places, and one row number for each card place and site.
pub fn check_book_size(sites: usize, cards: usize, rows: usize) -> Result<(), Refusal>
    ensures { result ≡ book_size_answer sites cards rows }
{
    if (1..=256).contains(&cards) && cards.checked_mul(sites) == Some(rows) {
        Ok(())
    } else {
        Err(Refusal::QuoteBookSize)
    }
}

// How many numbers a card's row has: one for each site, and none in a quote book of a size that is refused.
fn row_width(sites: usize, cards: usize, rows: usize) -> usize
    ensures value { result ≡ row_width sites cards rows }
    ensures fits { cards * result ≤ rows }
    ensures whole { 0 < result → rows ≡ cards * result }
{
    if check_book_size(sites, cards, rows).is_ok() {
        sites
    } else {
        0
    }
}

// The first numbers of a part, or all of it where it has fewer.
fn front(numbers: &[u16], count: usize) -> &[u16]
    ensures { result.now ≡ take count numbers.now }
{
    numbers.get(..count).unwrap_or(numbers)
}

// The row of a card: empty past the last. It is cut by its start, since `chunks` is not defined for rows of no numbers.
fn row_of(rows: &[u16], width: usize, card: usize) -> &[u16]
    ensures { result.now ≡ row_at width rows.now card }
{
    let start = card.saturating_mul(width).min(rows.len());
    front(&rows[start..], width)
}

// Whether one of the legs is the link at the place.
fn uses_leg(legs: &[u16], link: usize) -> bool
    ensures { result ≡ uses legs.now link }
{
    legs.iter().any(|leg| *leg as usize == link)
}

// The one write to a card place, by itself, so that a wrong one is refused here and not in what is proved of the calls.
fn write_place<T: Copy>(places: &mut [Option<T>], place: usize, what: Option<T>)
    requires { place < length places.old }
    ensures { places.new ≡ slice_set places.old place what }
{
    places[place] = what;
}

// Zeros the numbers from the start place on.
fn clear_row(rows: &mut [u16], start: usize, width: usize)
    requires { start + width ≤ length rows.old }
    ensures { rows.new ≡ paste rows.old start (row_with [] width) width }
{
    rows[start..start + width].fill(0);
}

impl<'a, M: Measure> QuoteBook<'a, M> {
    ghost use Rattle.book.specs.Stores.{book_of, cards_lent, rows_lent, Begins};

    // Empties every card place and leaves the rows. The size is for `check_book_size` to refuse beforehand; this cannot refuse, and of a size
    // that is refused there are no sites.
    #[tactic(auto, using(crate::proofs::Beginning::begins))]
    pub fn open(
        cards: &'a mut [Option<Card<M, M::Limit>>],
        rows: &'a mut [u16],
        sites: usize,
    ) -> QuoteBook<'a, M>
        ensures book { book_of result ≡ opened_book
            (row_width sites (length cards.old) (length rows.old)) (length cards.old) rows.old }
        ensures begins { Begins M.Measure.kind sites (length cards.old) (length rows.old) (book_of result) }
        ensures same_cards { cards_lent result ≡ cards.entry.ghost_name }
        ensures same_rows { rows_lent result ≡ rows.entry.ghost_name }
    {
        let sites = row_width(sites, cards.len(), rows.len());
        empty_all(cards);
        QuoteBook { cards, rows, sites }
    }
}

impl<M: Measure> QuoteBook<'_, M> {
    ghost use Rattle.book.specs.Stores.{book_of, SamePlaces};

    // How many numbers a card's row has.
    fn width(&self) -> usize
        ensures value { result ≡ (book_of self.now).width }
        ensures fits { length self.now.cards.now * result ≤ length self.now.rows.now }
    {
        self.sites
    }

    // Where the card's row begins.
    fn row_start(&self, card: usize) -> usize
        requires { card < length self.now.cards.now }
        ensures value { result ≡ card * (book_of self.now).width }
        ensures fits { result + (book_of self.now).width ≤ length self.now.rows.now }
    {
        card * self.width()
    }

    // The first numbers of the card's row, no more of them than it has.
    fn legs(&self, card: usize, count: usize) -> &[u16]
        requires inside { card < length self.now.cards.now }
        requires few { count ≤ (book_of self.now).width }
        ensures { result.now ≡ take count (row_at (book_of self.now).width self.now.rows.now card) }
    {
        let start = self.row_start(card);
        &self.rows[start..start + count]
    }

    // Empties the card's place, and zeros its row.
    fn empty(&mut self, card: usize)
        requires { card < length self.old.cards.now }
        ensures refiled { Refiled (book_of self.old) card None [] (book_of self.new) }
        ensures places { SamePlaces self.old self.new }
    {
        let width = self.width();
        let start = self.row_start(card);
        write_place(self.cards, card, None);
        clear_row(self.rows, start, width);
    }
}

impl<M: Measure> Cards<M, M::Limit> for QuoteBook<'_, M> {
    ghost use Rattle.book.specs.Stores.{book_of};

    ghost book = { book_of };

    fn card(&self, place: usize) -> Option<Card<M, M::Limit>> {
        read_place(self.cards, place)
    }

    fn uses_link(&self, card: usize, legs: usize, link: usize) -> bool {
        let row = row_of(self.rows, self.width(), card);
        uses_leg(front(row, legs), link)
    }
}
