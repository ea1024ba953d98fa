//! A feed as bytes: reading its records one by one. The records are passed on from their own crate.
//!
//! A record is one byte of kind, and then a body whose length the kind fixes. Numbers are big-endian: places and sites have 16 bits,
//! measures 32.
//!
//! Each kind has one slice pattern, with its kind byte, the named bytes of its fields and the rest, so that its layout stands there byte by
//! byte: an offer and a quote, which differ in no more than names, stay two functions, and the kinds of one number four arms.
#![tactic(auto)]

ghost use Rattle.std.specs.Prelude.{◌≡◌, ℕ, ◌+◌, ◌-◌, ◌≤◌, length, drop, Some, slice_index};
ghost use Rattle.std.specs.Iterator.{YieldsFirst, item_count};
ghost use Rattle.feed.specs.Records.{unread};
ghost use Rattle.records.specs.Records.{records_from};
ghost use Rattle.records.specs.Feed.{body_length, refusal_of, number32, reading_of, unread_of, Ahead};
ghost use Rattle.records.specs.RoundTrip.{WritesBack, ReadsPart};

pub use records::{Measures, Reading, Record};
use report::Refusal;

// The measures from the four bytes of each. `Measures` is of a crate without code, so that no `From` can stand there.
fn measures_from_bytes(delay: [u8; 4], price: [u8; 4], class: [u8; 4]) -> Measures
    ensures { result ≡ record { delay = number32 delay 0; price = number32 price 0; class = number32 class 0 } }
{
    Measures {
        delay: u32::from_be_bytes(delay),
        price: u32::from_be_bytes(price),
        class: u32::from_be_bytes(class),
    }
}

// How many bytes follow the kind; none if it is the kind of no record.
fn body_length(kind: u8) -> Option<usize>
    ensures { result ≡ body_length kind }
{
    match kind {
        1 | 4 => Some(18),
        2 => Some(14),
        3 | 5 | 6 | 7 => Some(2),
        _ => None,
    }
}

// Why no record is read at the place: it holds no kind, or fewer bytes are present than the kind's body has.
fn refusal_at(kind: u8, present: usize, place: usize) -> Refusal
    ensures { result ≡ refusal_of (body_length kind) present place }
{
    match body_length(kind) {
        None => Refusal::UnknownKind { place },
        Some(length) => {
            let missing = length.saturating_sub(present);
            Refusal::CutShort { place, missing }
        }
    }
}

// What is read where the part has no whole record at its head: nothing of it is left to read.
fn read_none(part: &[u8], place: usize) -> (Reading, &[u8])
    requires { (n : ℕ) → body_length (slice_index part.now 0) ≡ Some n → length part.now ≤ n }
    ensures { ReadsPart part.now place result.0 result.1.now }
{
    match part.split_first() {
        Some((kind, body)) => {
            let why = refusal_at(*kind, body.len(), place);
            (Err(why), &part[part.len()..])
        }
        None => (Ok(None), part),
    }
}

// Reads the offer at the head of the part.
fn read_offer(part: &[u8], place: usize) -> (Reading, &[u8])
    requires { slice_index part.now 0 ≡ 1 }
    ensures { ReadsPart part.now place result.0 result.1.now }
{
    match *part {
        [
            1,
            l1,
            l0,
            s1,
            s0,
            e1,
            e0,
            d3,
            d2,
            d1,
            d0,
            p3,
            p2,
            p1,
            p0,
            c3,
            c2,
            c1,
            c0,
            ref rest @ ..,
        ] => {
            let measures = measures_from_bytes(
                [d3, d2, d1, d0],
                [p3, p2, p1, p0],
                [c3, c2, c1, c0],
            );
            let link = u16::from_be_bytes([l1, l0]);
            let start = u16::from_be_bytes([s1, s0]);
            let end = u16::from_be_bytes([e1, e0]);
            (
                Ok(Some(Record::Offer {
                    link,
                    start,
                    end,
                    measures,
                })),
                rest,
            )
        }
        _ => read_none(part, place),
    }
}

// Reads the change at the head of the part.
fn read_change(part: &[u8], place: usize) -> (Reading, &[u8])
    requires { slice_index part.now 0 ≡ 2 }
    ensures { ReadsPart part.now place result.0 result.1.now }
{
    match *part {
        [
            2,
            l1,
            l0,
            d3,
            d2,
            d1,
            d0,
            p3,
            p2,
            p1,
            p0,
            c3,
            c2,
            c1,
            c0,
            ref rest @ ..,
        ] => {
            let measures = measures_from_bytes(
                [d3, d2, d1, d0],
                [p3, p2, p1, p0],
                [c3, c2, c1, c0],
            );
            let link = u16::from_be_bytes([l1, l0]);
            (Ok(Some(Record::Change { link, measures })), rest)
        }
        _ => read_none(part, place),
    }
}

// Reads the quote at the head of the part.
fn read_quote(part: &[u8], place: usize) -> (Reading, &[u8])
    requires { slice_index part.now 0 ≡ 4 }
    ensures { ReadsPart part.now place result.0 result.1.now }
{
    match *part {
        [
            4,
            k1,
            k0,
            s1,
            s0,
            e1,
            e0,
            d3,
            d2,
            d1,
            d0,
            p3,
            p2,
            p1,
            p0,
            c3,
            c2,
            c1,
            c0,
            ref rest @ ..,
        ] => {
            let limits = measures_from_bytes([d3, d2, d1, d0], [p3, p2, p1, p0], [c3, c2, c1, c0]);
            let card = u16::from_be_bytes([k1, k0]);
            let source = u16::from_be_bytes([s1, s0]);
            let destination = u16::from_be_bytes([e1, e0]);
            (
                Ok(Some(Record::Quote {
                    card,
                    source,
                    destination,
                    limits,
                })),
                rest,
            )
        }
        _ => read_none(part, place),
    }
}

// Reads the record at the head of the part, whose first byte stands at the place in its feed.
fn read_head(part: &[u8], place: usize) -> (Reading, &[u8])
    ensures { ReadsPart part.now place result.0 result.1.now }
{
    match *part {
        [1, ..] => read_offer(part, place),
        [2, ..] => read_change(part, place),
        [3, l1, l0, ref rest @ ..] => {
            let link = u16::from_be_bytes([l1, l0]);
            (Ok(Some(Record::Withdraw { link })), rest)
        }
        [4, ..] => read_quote(part, place),
        [5, k1, k0, ref rest @ ..] => {
            let card = u16::from_be_bytes([k1, k0]);
            (Ok(Some(Record::Recheck { card })), rest)
        }
        [6, k1, k0, ref rest @ ..] => {
            let card = u16::from_be_bytes([k1, k0]);
            (Ok(Some(Record::Discard { card })), rest)
        }
        [7, k1, k0, ref rest @ ..] => {
            let card = u16::from_be_bytes([k1, k0]);
            (Ok(Some(Record::Read { card })), rest)
        }
        _ => read_none(part, place),
    }
}

// The part of the input from the start place on: empty where that is past the end.
fn part_from(input: &[u8], start: usize) -> &[u8]
    ensures { result.now ≡ drop start input.now }
{
    input.get(start..).unwrap_or_default()
}

// What the feed holds at the start place, counted from 0, and the part of it that is still to be read: empty where there is no record.
// The next start place is `input.len() - rest.len()`. A record that was read is written as the bytes that it was read from.
// The answer is the pair itself, in no Option or Result, since the unread part goes with a refusal too.
pub fn read_record(input: &[u8], start: usize) -> (Reading, &[u8])
    ensures reading { result.0 ≡ reading_of (drop start input.now) start }
    ensures rest { result.1.now ≡ unread_of (drop start input.now) }
    ensures placed { result.1.now ≡ drop (length input.now - length result.1.now) input.now }
    ensures within { length result.1.now ≤ length input.now }
    ensures ahead { Ahead result.0 (start + length result.1.now) (length input.now) }
    ensures writes_back { WritesBack result.0 (drop start input.now) result.1.now }
{
    read_head(part_from(input, start), start)
}

// The records of a feed in order: each begins where the one before it ends, and the refusal of what cannot be read is the last item.
// The start place is kept beside the whole feed, since a refusal names its place there.
#[derive(Drop)]
pub struct Records<'a> {
    feed: &'a [u8],
    start: usize,
}

impl<'a> Iterator for Records<'a> {
    type Item = Result<Record, Refusal>;

    ghost next_gives = { YieldsFirst unread };

    ghost remaining = { item_count unread };

    #[tactic(auto, using(crate::proofs::Reading::nexts))]
    fn next(&mut self) -> Option<Result<Record, Refusal>> {
        let (reading, rest) = read_record(self.feed, self.start);
        self.start = self.feed.len() - rest.len();
        reading.transpose()
    }
}

// The records of the feed from its first byte on; there are no more of them than bytes.
#[tactic(auto, using(records::proofs::Records::no_more))]
pub fn read_records(feed: &[u8]) -> Records<'_>
    ensures records { unread result ≡ records_from feed.now 0 }
    ensures within { length (unread result) ≤ length feed.now }
{
    Records { feed, start: 0 }
}
