//! What a line is put into, part after part: one sink counts the bytes, and one writes them.
ghost use Rattle.std.specs.Prelude.{◌≡◌, ℕ, ◌≤◌, true, List, [], ◌++◌, length, drop, decimal};
ghost use Rattle.line.specs.Sinks.{left, Counted, Written, counted_none, counted_both, written_none, written_both};

// A sink takes all that is put into it. std's `fmt::Write` may fail, and its contract leaves open when a `write!` does,
// so by it a line that has no room could not be told from one that failed.
pub(crate) trait Sink {
    // Relates the sink before some bytes were put into it, the bytes, and the sink after.
    ghost took: { Self → List ℕ → Self → Type 0 };

    fn put(&mut self, bytes: &[u8])
        ensures { took self.old bytes.now self.new };

    // A number in decimal. std prints numbers through `fmt` alone, whose contract does not say when it succeeds.
    fn put_number(&mut self, n: usize)
        ensures { took self.old (decimal n) self.new };

    // Whether it stays as it is, whatever else is put into it.
    fn is_full(&self) -> bool
        ensures { result ≡ true → (bytes : List ℕ) → took self.now bytes self.now };

    // No bytes change nothing, and bytes that are put after others were put with them.
    ghost nothing: { (s : Self) → took s [] s };

    ghost both: { (s t u : Self) (a b : List ℕ) → took s a t → took t b u → took s (a ++ b) u };
}

// How many digits a number has.
fn digits(n: usize) -> usize
    ensures count { result ≡ length (decimal n) }
    ensures few { result ≤ 20 }
{
    if n < 10 { 1 } else { digits(n / 10) + 1 }
}

// Spells a number in decimal at the end of the text, and returns the place of its first digit.
fn spell(n: usize, text: &mut [u8]) -> usize
    requires { 20 ≤ length text.old }
    ensures inside { result ≤ length text.new }
    ensures digits { drop result text.new ≡ decimal n }
{
    let mut rest = n;
    let mut first = text.len();
    while rest >= 10 {
        first -= 1;
        text[first] = b'0' + (rest % 10) as u8;
        rest /= 10;
    }
    first -= 1;
    text[first] = b'0' + rest as u8;
    first
}

// How much room is left for more bytes: none at all once more were put than there was room for.
#[derive(Drop)]
pub(crate) struct Room(pub(crate) Option<usize>);

impl Room {
    // Takes room for so many bytes.
    fn take(&mut self, count: usize)
        ensures { self.new.0 ≡ left self.old.0 count }
    {
        if let Some(room) = self.0 {
            self.0 = room.checked_sub(count);
        }
    }
}

impl Sink for Room {
    ghost took = { Counted };

    ghost nothing = { counted_none };

    ghost both = { counted_both };

    fn put(&mut self, bytes: &[u8]) {
        self.take(bytes.len())
    }

    fn put_number(&mut self, n: usize) {
        self.take(digits(n))
    }

    fn is_full(&self) -> bool {
        self.0.is_none()
    }
}

// Writes from a place of the buffer on, which is the caller's start place at first. What has no room there is left out. It writes by
// index, as `get_mut` says nothing of what a write through it leaves in the slice.
#[derive(Drop)]
pub(crate) struct Writer<'a> {
    pub(crate) buffer: &'a mut [u8],
    pub(crate) at: usize,
}

impl Sink for Writer<'_> {
    ghost took = { Written };

    ghost nothing = { written_none };

    ghost both = { written_both };

    fn put(&mut self, bytes: &[u8]) {
        let end = self.at.saturating_add(bytes.len());
        if end <= self.buffer.len() {
            self.buffer[self.at..end].copy_from_slice(bytes);
            self.at = end;
        }
    }

    fn put_number(&mut self, n: usize) {
        let mut text = [0u8; 20];
        let first = spell(n, &mut text);
        self.put(&text[first..]);
    }

    fn is_full(&self) -> bool {
        false
    }
}
