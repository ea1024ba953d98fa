//! Writing a feed's records: the bytes of each kind, and putting them into a buffer. It is a crate of its own, since a program that reads a
//! feed writes none.
#![tactic(auto)]

ghost use Rattle.std.specs.Prelude.{◌≡◌, ◌+◌, ◌∷◌, ◌++◌};
ghost use Rattle.report.specs.Buffers.{Put};
ghost use Rattle.records.specs.RoundTrip.{ReadsBack};
ghost use Rattle.records.specs.Write.{bytes16, measures_bytes, encode, Fit};

use records::{Measures, Record};
use report::Refusal;

// The bytes of the first part, and behind them those of the second.
fn join<const A: usize, const B: usize, const N: usize>(first: [u8; A], second: [u8; B]) -> [u8; N]
    requires { A + B ≡ N }
    ensures { result ≡ first.entry ++ second.entry }
{
    let mut bytes = [0; N];
    let joined = &mut bytes[..];
    joined[..A].copy_from_slice(&first);
    joined[A..].copy_from_slice(&second);
    bytes
}

// The bytes of the measures, in their order. `Measures` is of a crate without code, so that no `From` can stand there.
fn measures_to_bytes(measures: Measures) -> [u8; 12]
    ensures { result ≡ measures_bytes measures }
{
    let price_and_class: [u8; 8] = join(measures.price.to_be_bytes(), measures.class.to_be_bytes());
    join(measures.delay.to_be_bytes(), price_and_class)
}

// The bytes of a kind with one number. This and the two below are the three layouts that records have, of three lengths.
fn short_bytes(kind: u8, number: u16) -> [u8; 3]
    ensures { result ≡ kind ∷ bytes16 number }
{
    let [n1, n0] = number.to_be_bytes();
    [kind, n1, n0]
}

// The bytes of a change.
fn change_bytes(link: u16, measures: Measures) -> [u8; 15]
    ensures { result ≡ 2 ∷ (bytes16 link ++ measures_bytes measures) }
{
    join(short_bytes(2, link), measures_to_bytes(measures))
}

// The bytes of a kind with three numbers and three measures.
fn long_bytes(kind: u8, first: u16, second: u16, third: u16, measures: Measures) -> [u8; 19]
    ensures { result ≡ kind ∷ (bytes16 first ++ (bytes16 second ++ (bytes16 third ++ measures_bytes measures))) }
{
    let sites: [u8; 4] = join(second.to_be_bytes(), third.to_be_bytes());
    let numbers: [u8; 7] = join(short_bytes(kind, first), sites);
    join(numbers, measures_to_bytes(measures))
}

// Copies the bytes into the lent buffer from the caller's start place on, and returns the place after them; a buffer that is too short stays
// as it was.
pub fn put_bytes(bytes: &[u8], buffer: &mut [u8], start: usize) -> Result<usize, Refusal>
    ensures { Put bytes.now start buffer.old buffer.new result }
{
    match start.checked_add(bytes.len()) {
        Some(next) if next <= buffer.len() => {
            buffer[start..next].copy_from_slice(bytes);
            Ok(next)
        }
        _ => Err(Refusal::BufferTooShort),
    }
}

// Writes the record, kind by kind, from the place on: the byte of each kind stands in its arm. That its numbers fit their widths, as the
// types say, is what makes it read back.
fn put_record(record: Record, buffer: &mut [u8], place: usize) -> Result<usize, Refusal>
    ensures put { Put (encode «record») place buffer.old buffer.new result }
    ensures fit { Fit «record» }
{
    match record {
        Record::Offer {
            link,
            start,
            end,
            measures,
        } => put_bytes(&long_bytes(1, link, start, end, measures), buffer, place),
        Record::Change { link, measures } => put_bytes(
            &change_bytes(link, measures),
            buffer,
            place,
        ),
        Record::Withdraw { link } => put_bytes(&short_bytes(3, link), buffer, place),
        Record::Quote {
            card,
            source,
            destination,
            limits,
        } => put_bytes(
            &long_bytes(4, card, source, destination, limits),
            buffer,
            place,
        ),
        Record::Recheck { card } => put_bytes(&short_bytes(5, card), buffer, place),
        Record::Discard { card } => put_bytes(&short_bytes(6, card), buffer, place),
        Record::Read { card } => put_bytes(&short_bytes(7, card), buffer, place),
    }
}

// Writes the record from the start place on, and returns the place after it; a buffer that is too short stays as it was.
// What was written reads back as the same record.
#[tactic(auto, using(records::proofs::RoundTrip::put_reads_back))]
pub fn write_record(record: Record, buffer: &mut [u8], start: usize) -> Result<usize, Refusal>
    ensures put { Put (encode «record») start buffer.old buffer.new result }
    ensures reads_back { ReadsBack «record» start buffer.new result }
{
    put_record(record, buffer, start)
}
