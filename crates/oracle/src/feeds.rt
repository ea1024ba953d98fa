//! Records of a feed: read from bytes by a decoding written anew, and written back.
use crate::difference::{Difference, ensure};
use crate::lent::has_only;
use crate::random::Random;
use crate::tally::{Tally, count};
use encoding::write_record;
use feed::{Measures, Reading, Record, read_record};
use report::Refusal;
use std::array;

// How many bytes of a feed are tried.
const FEED: usize = 24;

// Room to write a record into.
const BUFFER: usize = 32;

// What stands in the buffer before.
const UNWRITTEN: u8 = 238;

// How many bytes follow the kind of a record: said anew, since nothing here is taken from the library's reader.
fn body_of(kind: u8) -> Option<usize> {
    match kind {
        1 | 4 => Some(18),
        2 => Some(14),
        3 | 5 | 6 | 7 => Some(2),
        _ => None,
    }
}

// The number in so many bytes from the place on, the greatest first.
fn number(bytes: &[u8], place: usize, width: usize) -> u32 {
    bytes
        .iter()
        .skip(place)
        .take(width)
        .fold(0u32, |number, byte| {
            number.wrapping_mul(256).wrapping_add(u32::from(*byte))
        })
}

fn short(bytes: &[u8], place: usize) -> u16 {
    u16::try_from(number(bytes, place, 2)).unwrap_or(0)
}

fn measures(bytes: &[u8], place: usize) -> Measures {
    Measures {
        delay: number(bytes, place, 4),
        price: number(bytes, place.saturating_add(4), 4),
        class: number(bytes, place.saturating_add(8), 4),
    }
}

// The record whose kind byte stands at the head.
fn record_of(bytes: &[u8], kind: u8) -> Record {
    let first = short(bytes, 1);
    match kind {
        1 => Record::Offer {
            link: first,
            start: short(bytes, 3),
            end: short(bytes, 5),
            measures: measures(bytes, 7),
        },
        2 => Record::Change {
            link: first,
            measures: measures(bytes, 3),
        },
        3 => Record::Withdraw { link: first },
        4 => Record::Quote {
            card: first,
            source: short(bytes, 3),
            destination: short(bytes, 5),
            limits: measures(bytes, 7),
        },
        5 => Record::Recheck { card: first },
        6 => Record::Discard { card: first },
        _ => Record::Read { card: first },
    }
}

// What the feed holds at the place, and how many bytes are left to read after it.
fn foreseen(bytes: &[u8], place: usize) -> (Reading, usize) {
    let part = bytes.get(place..).unwrap_or_default();
    let Some((kind, body)) = part.split_first() else {
        return (Ok(None), 0);
    };
    let Some(length) = body_of(*kind) else {
        return (Err(Refusal::UnknownKind { place }), 0);
    };
    if body.len() < length {
        let missing = length - body.len();
        return (Err(Refusal::CutShort { place, missing }), 0);
    }
    (Ok(Some(record_of(part, *kind))), body.len() - length)
}

// Writes the record, which was read from these bytes, where there is room for it or not.
fn try_writing(
    random: &mut Random,
    record: Record,
    bytes: &[u8],
    tally: &mut Tally,
) -> Result<(), Difference> {
    // an array, as a buffer is lent
    let mut buffer = [UNWRITTEN; BUFFER];
    let room = random.below(BUFFER + 1);
    let place = random.below(BUFFER + 2);
    let lent = &mut buffer[0..room];
    let outcome = write_record(record, lent, place);
    let next = place.saturating_add(bytes.len());
    let is_right = match outcome {
        Ok(end) => next <= room && end == next && has_only(lent, place, bytes, UNWRITTEN),
        Err(why) => {
            tally.note_refusal(why.number());
            next > room && why == Refusal::BufferTooShort && has_only(lent, 0, &[], UNWRITTEN)
        }
    };
    ensure(is_right, Difference::Writing)
}

fn random_byte(random: &mut Random) -> u8 {
    let number = if random.one_in(3) {
        random.below(9)
    } else {
        random.below(256)
    };
    u8::try_from(number).unwrap_or(0)
}

// Reads a record from random bytes, and writes it back if there is one.
pub(crate) fn try_bytes(random: &mut Random, tally: &mut Tally) -> Result<(), Difference> {
    // an array: there are always as many, and they are used here alone
    let bytes = array::from_fn::<u8, FEED, _>(|_| random_byte(random));
    let feed = &bytes[0..random.below(FEED + 1)];
    let place = random.below(FEED + 2).saturating_sub(random.below(FEED));
    let (reading, rest) = read_record(feed, place);
    let is_right = (reading, rest.len()) == foreseen(feed, place);
    ensure(is_right, Difference::Reading)?;
    count(&mut tally.records);
    match reading {
        Ok(Some(record)) => {
            let end = feed.len() - rest.len();
            try_writing(random, record, &feed[place.min(end)..end], tally)
        }
        Err(why) => {
            tally.note_refusal(why.number());
            Ok(())
        }
        Ok(None) => Ok(()),
    }
}
