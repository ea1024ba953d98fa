//! The words of a line.
ghost use Rattle.std.specs.Prelude.{◌≡◌, ◌≤◌, ◌++◌, map, length, decimal};
ghost use Rattle.std.specs.List.{flat_map};
ghost use Rattle.line.specs.Lines.{after_space};
ghost use Rattle.line.specs.Words.{spelled, share_of};

use crate::sinks::Sink;
use measure::Ratio;

// Puts a number in decimal: of 64 bits it has twenty digits at the most.
#[tactic(auto, using(crate::proofs::Lengths::twenty_digits))]
pub(crate) fn put_number<S: Sink>(n: usize, sink: &mut S)
    ensures digits { S.took sink.old (decimal n) sink.new }
    ensures short { length (decimal n) ≤ 20 }
{
    sink.put_number(n)
}

#[derive(Clone, Copy)]
pub(crate) enum Word {
    Text(&'static [u8]),
    Number(usize),
    Share(Ratio),
}

// A number as a word: of 64 bits it has twenty digits at the most.
#[tactic(auto, using(crate::proofs::Lengths::twenty_digits))]
pub(crate) fn number_word(n: usize) -> Word
    ensures word { result ≡ Word.Number n }
    ensures short { length (decimal n) ≤ 20 }
{
    Word::Number(n)
}

// A share as a word: its numbers have ten digits at the most.
#[tactic(auto, using(crate::proofs::Lengths::ten_digits))]
pub(crate) fn share_word(top: u32, bottom: u32) -> Word
    ensures word { result ≡ Word.Share (share_of top bottom) }
    ensures short { (length (decimal top) ≤ 10) × (length (decimal bottom) ≤ 10) }
{
    Word::Share(Ratio { top, bottom })
}

impl Word {
    fn put<S: Sink>(self, sink: &mut S)
        ensures { S.took sink.old (spelled self) sink.new }
    {
        match self {
            Word::Text(text) => sink.put(text),
            Word::Number(n) => sink.put_number(n),
            Word::Share(ratio) => {
                sink.put_number(ratio.top as usize);
                sink.put(b"/");
                sink.put_number(ratio.bottom as usize);
            }
        }
    }
}

// Puts the words and then the legs into a sink, each after one space; a sink that is full needs no more legs. One `for` over the chain of
// the two got no proof: in a function with a type parameter the check refuses its own statement of what such a chain yields.
pub(crate) fn put_words<S: Sink>(words: &[Word], legs: &[u16], sink: &mut S)
    ensures { S.took sink.old (flat_map after_space (map spelled words.now ++ map decimal legs.now)) sink.new }
{
    for word in words {
        sink.put(b" ");
        word.put(sink);
    }
    for leg in legs {
        if sink.is_full() {
            return;
        }
        sink.put(b" ");
        sink.put_number(*leg as usize);
    }
}
