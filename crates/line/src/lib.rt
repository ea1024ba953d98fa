//! The lines that are printed, one for each record, composed as bytes in a lent buffer.
#![tactic(auto)]

ghost use Rattle.std.specs.Prelude.{◌≡◌, ◌+◌, ◌<◌, ◌≤◌, true, [], length, IsOk, nat_le};
ghost use Rattle.std.specs.List.{flat_map};
ghost use Rattle.line.specs.Lines.{mark_word, words, after_space, line_of};
ghost use Rattle.report.specs.Buffers.{Put};

mod sinks;
mod words;

use crate::sinks::{Room, Sink, Writer};
use crate::words::{Word, number_word, put_number, put_words, share_word};
use measure::Ratio;
use measure::pair::Trunk;
use report::{Mark, Refusal, Returned};

// What is printed of a record. A route's legs are passed beside it. Four sorts of lines, and no `Result`: a refusal is a line like the
// others, and no error of printing.
#[derive(Clone, Copy, PartialEq, Eq, Debug)]
pub enum Reply {
    // It was carried out, and returned this count.
    Counted(usize),
    // A card's route, with the share of the limit that it uses up.
    Route {
        mark: Mark,
        ratio: Ratio,
        value: Trunk,
    },
    // A card for which there is no route.
    NoRoute {
        mark: Mark,
    },
    // It was turned down.
    Refused(Refusal),
}

// A mark's word, as bytes: by `Display` it could only be printed through `fmt`.
fn mark_text(mark: Mark) -> &'static [u8]
    ensures { result.now ≡ mark_word mark }
{
    match mark {
        Mark::Standing => b"standing",
        Mark::Doubtful => b"doubtful",
    }
}

// Puts the words of a refusal into a sink: its number, and what it returns. That is a word of eight bytes with its space, and three numbers
// at the most.
fn put_refusal<S: Sink>(why: Refusal, sink: &mut S)
    ensures words { S.took sink.old (flat_map after_space (words (Reply.Refused why) [])) sink.new }
    ensures short { length (flat_map after_space (words (Reply.Refused why) [])) ≤ 71 }
{
    let refused = Word::Text(b"refused");
    let number = number_word(usize::from(why.number()));
    match why.returned() {
        Returned::Nothing => put_words(&[refused, number], &[], sink),
        Returned::One(a) => put_words(&[refused, number, number_word(a)], &[], sink),
        Returned::Two(a, b) => put_words(
            &[refused, number, number_word(a), number_word(b)],
            &[],
            sink,
        ),
    }
}

impl Reply {
    // Puts its words into a sink, and of a route its legs too. Of 2,048 bytes they leave 21, for the record's number and the newline.
    fn put<S: Sink>(self, legs: &[u16], sink: &mut S)
        ensures words { S.took sink.old (flat_map after_space (words self legs.now)) sink.new }
        ensures short { length legs.now < 256 → length (flat_map after_space (words self legs.now)) ≤ 2027 }
    {
        match self {
            Reply::Counted(n) => put_words(&[Word::Text(b"ok"), number_word(n)], &[], sink),
            Reply::Route { mark, ratio, value } => {
                let words = [
                    Word::Text(b"route"),
                    Word::Text(mark_text(mark)),
                    share_word(ratio.top, ratio.bottom),
                    number_word(value.first.first.number() as usize),
                    number_word(value.first.second.number() as usize),
                    number_word(value.second.number() as usize),
                    number_word(legs.len()),
                ];
                put_words(&words, legs, sink)
            }
            Reply::NoRoute { mark } => {
                put_words(
                    &[Word::Text(b"none"), Word::Text(mark_text(mark))],
                    &[],
                    sink,
                )
            }
            Reply::Refused(why) => put_refusal(why, sink),
        }
    }
}

// The line of the record with this number.
#[derive(Clone, Copy)]
struct Line<'a> {
    number: usize,
    reply: Reply,
    legs: &'a [u16],
}

impl Line<'_> {
    // Puts the line into a sink: one that counts it, or one that writes it.
    fn put<S: Sink>(self, sink: &mut S)
        ensures bytes { S.took sink.old (line_of self.entry.number self.entry.reply self.entry.legs.now) sink.new }
        ensures short { length self.entry.legs.now < 256 →
            length (line_of self.entry.number self.entry.reply self.entry.legs.now) ≤ 2048 }
    {
        put_number(self.number, sink);
        self.reply.put(self.legs, sink);
        sink.put(b"\n");
    }

    // Whether the buffer has room for the line from the start place on.
    fn fits(self, buffer: &[u8], start: usize) -> bool
        ensures fits { result ≡ nat_le
            (start + length (line_of self.entry.number self.entry.reply self.entry.legs.now)) (length buffer.now) }
        ensures room { length self.entry.legs.now < 256 → start + 2048 ≤ length buffer.now → result ≡ true }
    {
        let mut room = Room(buffer.len().checked_sub(start));
        self.put(&mut room);
        room.0.is_some()
    }
}

// Writes the line of the record with this number into the lent buffer from the caller's start place on, and returns the place after it.
// The legs are those of a route; the other replies have none, and what is passed is not read.
// A buffer that is too short is left as it was; for fewer than 256 legs, 2,048 bytes from the start place on are enough.
pub fn write_line(
    number: usize,
    reply: Reply,
    legs: &[u16],
    buffer: &mut [u8],
    start: usize,
) -> Result<usize, Refusal>
    ensures put { Put (line_of number reply legs.now) start buffer.old buffer.new result }
    ensures room { length legs.now < 256 → start + 2048 ≤ length buffer.old → IsOk result }
{
    let line = Line {
        number,
        reply,
        legs,
    };
    if !line.fits(buffer, start) {
        return Err(Refusal::BufferTooShort);
    }
    let mut writer = Writer { buffer, at: start };
    line.put(&mut writer);
    Ok(writer.at)
}
