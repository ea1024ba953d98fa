//! The trunk product's program: the input is read as a feed and served from its first record to its last.
ghost use Rattle.std.specs.Prelude.{IfOk};
ghost use Rattle.service.specs.Input.{Fills, small, PrintsInput};

use crate::storage::{Sizes, Storage};
use routing::free_slot;
use std::io;
use std::io::{Read, Write};

// The program's memory: arrays by repetition, which are lent to the library. Their sizes are written out.
const SITES: usize = 16;

const PLACES: usize = 32;

const CARDS: usize = 8;

// How many walks routing can hold at a site.
const WALKS: usize = 8;

// A number for each card place and site.
const ROWS: usize = 128;

// A label for each site and walk.
const LABELS: usize = 128;

// How much of the input is read.
const INPUT: usize = 65536;

const SIZES: Sizes = Sizes {
    sites: SITES,
    places: PLACES,
    cards: CARDS,
    walks: WALKS,
    input: INPUT,
};

// Fills the buffer from the reader, to the buffer's end or the reader's, and answers how many bytes came: std's calls that read on fill a
// `Vec`, or fail where the reader ends before the buffer.
pub fn read_input<R: Read>(input: &mut R, buffer: &mut [u8]) -> io::Result<usize>
    ensures { IfOk result (Fills (R.Read.remaining input.old) (R.Read.remaining input.new) buffer.new) }
{
    let mut got = 0;
    while got < buffer.len() {
        let n = input.read(&mut buffer[got..])?;
        if n == 0 {
            break;
        }
        got += n;
    }
    Ok(got)
}

// Opens a catalogue of sixteen sites and thirty-two link places and a quote book of eight cards, reads up to 65,536 bytes of input as a
// feed, and writes a line for each record, with eight labels a site. It fails only where the reader or the writer does.
pub fn serve_input<R: Read, W: Write>(input: &mut R, out: &mut W) -> io::Result<()>
    ensures { IfOk result (λ _. PrintsInput small
        (R.Read.remaining input.old) (R.Read.remaining input.new) (W.Write.contents out.old) (W.Write.contents out.new)) }
{
    let mut buffer = [0u8; INPUT];
    let mut links = [None; PLACES];
    let mut cards = [None; CARDS];
    let mut rows = [0u16; ROWS];
    let mut labels = [free_slot(); LABELS];
    let mut reply = [0u16; SITES];
    let mut storage = Storage {
        links: &mut links,
        cards: &mut cards,
        rows: &mut rows,
        labels: &mut labels,
        reply: &mut reply,
        input: &mut buffer,
    };
    storage.serve(SIZES, input, out)
}
