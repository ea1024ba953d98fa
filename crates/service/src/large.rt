//! The same program at full size, with its memory on the heap.
ghost use Rattle.std.specs.Prelude.{◌≡◌, Err, IfOk, vec_len};
ghost use Rattle.service.specs.Input.{large, PrintsInput};
ghost use Rattle.service.specs.declared.ServiceError.TheVariants as ServiceErrors;

use crate::ServiceError;
use crate::storage::{Sizes, Storage};
use routing::free_slot;
use std::alloc::{AllocError, Global};
use std::io::{Read, Write};

// The sizes are the largest that a catalogue and a quote book can be opened with, written out.
const SITES: usize = 256;

const PLACES: usize = 4096;

const CARDS: usize = 256;

// How many walks routing can hold at a site.
const WALKS: usize = 64;

// A number for each card place and site.
const ROWS: usize = 65536;

// A label for each site and walk.
const LABELS: usize = 16384;

// How much of the input is read: 64 MiB.
const INPUT: usize = 67108864;

const SIZES: Sizes = Sizes {
    sites: SITES,
    places: PLACES,
    cards: CARDS,
    walks: WALKS,
    input: INPUT,
};

// Memory for so many values. Only their number is told, since no more is needed, and lists of so many are not to be written out in a proof.
fn lend<T: Copy>(alloc: Global, value: T, count: usize) -> Result<Vec<T>, AllocError>
    ensures { IfOk result (λ lent. vec_len lent ≡ count) }
{
    vec![in alloc; value; count]
}

// Opens a catalogue of 256 sites and 4,096 link places and a quote book of 256 cards, reads up to 67,108,864 bytes of input as a feed, and
// writes a line for each record, with 64 labels a site. All memory is taken first: where it runs out, nothing was read and nothing written.
pub fn serve_large_input<R: Read, W: Write>(
    alloc: Global,
    input: &mut R,
    out: &mut W,
) -> Result<(), ServiceError>
    ensures printed { IfOk result (λ _. PrintsInput large
        (R.Read.remaining input.old) (R.Read.remaining input.new) (W.Write.contents out.old) (W.Write.contents out.new)) }
    ensures unread { result ≡ Err ServiceErrors.OutOfMemory → R.Read.remaining input.new ≡ R.Read.remaining input.old }
    ensures unwritten { result ≡ Err ServiceErrors.OutOfMemory → W.Write.contents out.new ≡ W.Write.contents out.old }
{
    let mut buffer = lend(alloc, 0u8, INPUT)?;
    let mut links = lend(alloc, None, PLACES)?;
    let mut cards = lend(alloc, None, CARDS)?;
    let mut rows = lend(alloc, 0u16, ROWS)?;
    let mut labels = lend(alloc, free_slot(), LABELS)?;
    let mut reply = lend(alloc, 0u16, SITES)?;
    let mut storage = Storage {
        links: &mut links,
        cards: &mut cards,
        rows: &mut rows,
        labels: &mut labels,
        reply: &mut reply,
        input: &mut buffer,
    };
    storage.serve(SIZES, input, out)?;
    Ok(())
}
