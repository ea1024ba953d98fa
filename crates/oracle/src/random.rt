//! Numbers that look random and are the same in every run.
ghost use Rattle.std.specs.Prelude.{◌<◌, ◌≤◌, ◌^◌};

// A generator: each number comes from the one before it.
#[derive(Drop)]
pub struct Random {
    state: u64,
}

impl Random {
    pub(crate) fn from_seed(seed: u64) -> Random {
        Random { state: seed }
    }

    // The next number; its low bits, which repeat soon, are left out.
    fn draw(&mut self) -> usize {
        let state = self
            .state
            .wrapping_mul(6364136223846793005)
            .wrapping_add(1442695040888963407);
        self.state = state;
        (state >> 33) as usize
    }

    // A number below the end; 0 if the end is 0.
    pub(crate) fn below(&mut self, end: usize) -> usize
        ensures most { result ≤ end }
        ensures below { 0 < end → result < end }
    {
        let number = self.draw();
        if end == 0 { 0 } else { number % end }
    }

    // True once in so many times.
    pub(crate) fn one_in(&mut self, times: usize) -> bool {
        self.below(times) == 0
    }

    // A number that a link or a question has for a site: small, so that it fits.
    pub(crate) fn site_below(&mut self, end: usize) -> u16
        ensures { 0 < end → end < 2 ^ 16 → result < end }
    {
        u16::try_from(self.below(end)).unwrap_or(u16::MAX)
    }
}
