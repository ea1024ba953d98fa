//! What the tests share: a day's memory, its calls, and what they answer.
use crate::tables::{Joined, Numbers, Reading, Step, Three, Turn, held, link};
use cards::{Answer, Call, Card, Reply};
use catalogue::{Ask, Catalogue, Link, Links};
use labels::{Label, Slot, State};
use measure::pair::Trunk;
use measure::{Measure, Ratio};
use quotes::{QuoteBook, change, discard, offer, perform, quote, read, recheck, withdraw};
use report::Mark;
use routing::Workspace;
use std::alloc::{AllocError, Allocator};
use std::fmt::Debug;
use std::process::Abort;

// How many sites a day has, how many places for links and cards, and how much is lent to its calls. The quote book is made for the same sites,
// with all row numbers, or for so many other sites and numbers.
#[derive(Clone, Copy)]
pub(crate) struct Sizes {
    pub sites: usize,
    pub places: usize,
    pub cards: usize,
    pub labels: usize,
    pub reply: usize,
    pub book: Option<(usize, usize)>,
}

// The memory that a day lends: its rows have a number for each card and site, or as many as the quote book is made for, if those are more.
#[derive(Drop)]
pub(crate) struct Memory<M, L, A: Allocator> {
    pub sizes: Sizes,
    pub places: Vec<Option<Link<M>>, A>,
    pub cards: Vec<Option<Card<M, L>>, A>,
    pub rows: Vec<u16, A>,
    pub labels: Vec<Slot<M>, A>,
    pub reply: Vec<u16, A>,
}

// A catalogue and its quote book, and what is lent to their calls.
#[derive(Drop)]
pub(crate) struct Day<'a, M: Measure> {
    pub catalogue: Catalogue<'a, M>,
    pub book: QuoteBook<'a, M>,
    pub workspace: Workspace<'a, M>,
    pub reply: &'a mut [u16],
}

// What came is what was wanted. The assertion is proved here once, for values of any type.
pub(crate) fn check_same<T: Copy + PartialEq + Debug>(rt: &impl Abort, came: T, want: T) {
    assert_eq!(rt; came, want);
}

// The same, at this place of a table, which is printed beside both where they differ.
pub(crate) fn check_at<A, T>(rt: &impl Abort, at: A, came: T, want: T)
where
    A: Copy + PartialEq + Debug,
    T: Copy + PartialEq + Debug,
{
    check_same(rt, (at, came), (at, want));
}

// The row numbers, or those of the reply, are these.
pub(crate) fn check_numbers(rt: &impl Abort, came: &[u16], want: &[u16]) {
    check_same(rt, came, want);
}

// So many of the value.
pub(crate) fn filled<T: Copy, R: Alloc>(
    rt: &R,
    value: T,
    length: usize,
) -> Result<Vec<T, R::A>, AllocError> {
    vec![in rt.alloc(); value; length]
}

// How many row numbers the memory of these sizes has.
pub(crate) fn row_numbers(sizes: Sizes) -> usize {
    let own = sizes.cards.saturating_mul(sizes.sites);
    match sizes.book {
        Some((_, numbers)) => own.max(numbers),
        None => own,
    }
}

// A place as no call leaves it, with notes that lead nowhere.
fn used_slot<M: Measure>() -> Slot<M> {
    Slot {
        label: Label {
            state: State::Settled,
            value: M::empty(),
            previous: 5,
            link: 6,
        },
        share: Ratio { top: 9, bottom: 0 },
        winner: 60000,
        best: 60001,
        used: 60002,
        first: 60003,
        next: 60004,
    }
}

// Each of the labels is free.
fn check_free<M: Measure>(rt: &impl Abort, labels: &[Slot<M>]) {
    for &slot in labels {
        check_same(rt, slot.label.state, State::Free);
    }
}

// Memory of these sizes: each row number is 7, each of the reply 9, and no label free.
pub(crate) fn lend<M: Measure, R: Alloc>(
    rt: &R,
    sizes: Sizes,
) -> Result<Memory<M, M::Limit, R::A>, AllocError> {
    Ok(Memory {
        sizes,
        places: filled(rt, None, sizes.places)?,
        cards: filled(rt, None, sizes.cards)?,
        rows: filled(rt, 7, row_numbers(sizes))?,
        labels: filled(rt, used_slot::<M>(), sizes.labels)?,
        reply: filled(rt, 9, sizes.reply)?,
    })
}

// A quote book for so many sites. Its contract is met here alone, so that no test has to carry it; so are those of the calls below.
pub(crate) fn open_book<'a, M: Measure>(
    cards: &'a mut [Option<Card<M, M::Limit>>],
    rows: &'a mut [u16],
    sites: usize,
) -> QuoteBook<'a, M> {
    QuoteBook::open(cards, rows, sites)
}

impl<M: Measure, A: Allocator> Memory<M, M::Limit, A> {
    // A day in this memory.
    pub(crate) fn open(&mut self) -> Day<'_, M> {
        let length = self.rows.len();
        let own_sites = self.sizes.sites;
        let (sites, numbers) = self.sizes.book.unwrap_or((own_sites, length));
        let rows = &mut self.rows[0..numbers.min(length)];
        Day {
            catalogue: Catalogue::open(&mut self.places, own_sites),
            book: open_book(&mut self.cards, rows, sites),
            workspace: Workspace::new(&mut self.labels),
            reply: &mut self.reply,
        }
    }
}

// What is told of a card after a recheck in this workspace.
fn rechecked<M: Measure>(
    network: &Catalogue<'_, M>,
    book: &mut QuoteBook<'_, M>,
    workspace: &mut Workspace<'_, M>,
    card: usize,
    k: usize,
) -> Reply<M> {
    let answer = recheck(network, book, workspace, card, k)?;
    held(Mark::Standing, answer)
}

// What is told of a card when its row is read into these numbers.
fn read_into<M: Measure>(
    book: &QuoteBook<'_, M>,
    card: usize,
    numbers: &mut [u16],
    start: usize,
) -> Reply<M> {
    let (mark, answer) = read(book, card, numbers, start)?;
    held(mark, answer)
}

impl<M: Measure> Day<'_, M> {
    // What the call answers by way of all calls.
    fn answer(&mut self, call: Call<M, M::Limit>) -> Reply<M> {
        let (network, book) = (&mut self.catalogue, &mut self.book);
        perform(network, book, &mut self.workspace, self.reply, call)
    }

    // What an offer counts, by its own function.
    fn offered(&mut self, place: usize, link: Link<M>) -> Reply<M> {
        let counted = offer(&mut self.catalogue, &mut self.book, place, link)?;
        Ok(Answer::Counted(counted))
    }

    // What a change counts.
    fn changed(&mut self, place: usize, value: M) -> Reply<M> {
        let counted = change(&mut self.catalogue, &mut self.book, place, value)?;
        Ok(Answer::Counted(counted))
    }

    // What a withdrawal counts.
    fn withdrawn(&mut self, place: usize) -> Reply<M> {
        let counted = withdraw(&mut self.catalogue, &mut self.book, place)?;
        Ok(Answer::Counted(counted))
    }

    // A discard counts nothing.
    fn discarded(&mut self, card: usize) -> Reply<M> {
        discard(&mut self.book, card)?;
        Ok(Answer::Counted(0))
    }

    // What is told of a card that is quoted.
    fn quoted(&mut self, card: usize, ask: Ask<M::Limit>, k: usize) -> Reply<M> {
        let (network, book) = (&self.catalogue, &mut self.book);
        let answer = quote(network, book, &mut self.workspace, card, ask, k)?;
        held(Mark::Standing, answer)
    }

    // What the call answers by its own function.
    fn answer_itself(&mut self, call: Call<M, M::Limit>) -> Reply<M> {
        match call {
            Call::Offer { place, link } => self.offered(place, link),
            Call::Change { place, value } => self.changed(place, value),
            Call::Withdraw { place } => self.withdrawn(place),
            Call::Quote { card, ask, k } => self.quoted(card, ask, k),
            Call::Recheck { card, k } => {
                rechecked(
                    &self.catalogue,
                    &mut self.book,
                    &mut self.workspace,
                    card,
                    k,
                )
            }
            Call::Discard { card } => self.discarded(card),
            Call::Read { card, start } => read_into(&self.book, card, self.reply, start),
        }
    }
}

// The link of these numbers, if there are any.
fn linked<M: Measure, N: Numbers<M>>(joined: Option<&Joined<N>>) -> Option<Link<M>> {
    let &(start, end, value) = joined?;
    Some(link(start, end, value))
}

impl<M: Measure + PartialEq + Debug> Day<'_, M> {
    // The calls, one after the other, answer what stands beside them.
    fn check<N: Numbers<M>>(&mut self, rt: &impl Abort, turns: &[Turn<N>]) {
        for (turn, &(asked, want)) in turns.iter().enumerate() {
            check_at(rt, turn, self.answer(asked.call()), want.reply());
        }
    }

    // The same calls, each by its own function.
    fn check_by_themselves<N: Numbers<M>>(&mut self, rt: &impl Abort, turns: &[Turn<N>]) {
        for (turn, &(asked, want)) in turns.iter().enumerate() {
            check_at(rt, turn, self.answer_itself(asked.call()), want.reply());
        }
    }

    // The first places hold links with these ends and values, and the others none.
    fn check_links<N: Numbers<M>>(&self, rt: &impl Abort, links: &[Joined<N>]) {
        for place in 0..self.catalogue.places() {
            let want = linked(links.get(place));
            check_at(rt, place, self.catalogue.link(place), want);
        }
    }

    // A reading of the card into five numbers from this start gives this reply, and leaves these numbers.
    fn check_reading<N: Numbers<M>>(
        &self,
        rt: &impl Abort,
        (card, start, want, numbers): Reading<N>,
    ) {
        let mut lent = [9; 5];
        let reply = read_into(&self.book, card, &mut lent, start);
        check_at(rt, start, reply, want.reply());
        check_at(rt, start, lent, numbers);
    }

    // The same of each of the readings.
    fn check_readings<N: Numbers<M>>(&self, rt: &impl Abort, readings: &[Reading<N>]) {
        for &reading in readings {
            self.check_reading(rt, reading);
        }
    }

    // The day goes through the step.
    fn check_step<N: Numbers<M>>(&mut self, rt: &impl Abort, step: &Step<'_, N>) {
        match *step {
            Step::Calls(turns) => self.check(rt, turns),
            Step::Themselves(turns) => self.check_by_themselves(rt, turns),
            Step::Links(links) => self.check_links(rt, links),
            Step::Readings(readings) => self.check_readings(rt, readings),
            Step::Reply(numbers) => check_numbers(rt, self.reply, numbers),
        }
    }

    // The day goes through the steps, one after the other.
    fn check_steps<N: Numbers<M>>(&mut self, rt: &impl Abort, steps: &[Step<'_, N>]) {
        for step in steps {
            self.check_step(rt, step);
        }
    }
}

// A day of these sizes goes through the steps, and leaves these row numbers, if any are given, and every label free.
pub(crate) fn check_day<M: Measure + PartialEq + Debug, N: Numbers<M>, R: Abort + Alloc>(
    rt: &R,
    sizes: Sizes,
    steps: &[Step<'_, N>],
    rows: Option<&[u16]>,
) -> Result<(), AllocError> {
    let mut memory = lend::<M, R>(rt, sizes)?;
    memory.open().check_steps(rt, steps);
    check_free(rt, &memory.labels);
    if let Some(rows) = rows {
        check_numbers(rt, &memory.rows, rows);
    }
    Ok(())
}

// The same on the trunk kind.
pub(crate) fn check_trunk_day(
    rt: &(impl Abort + Alloc),
    sizes: Sizes,
    steps: &[Step<'_, Three>],
    rows: Option<&[u16]>,
) -> Result<(), AllocError> {
    check_day::<Trunk, _, _>(rt, sizes, steps, rows)
}
