//! Ratios of whole numbers, compared by cross products.
ghost use Rattle.std.specs.Prelude.{◌≡◌, ◌*◌};
ghost use Rattle.measure.specs.Ratios.{less, equal};

// The share `top / bottom` of a limit. `==` is of the two numbers, which are printed: it tells 1/2 from 2/4.
// Shares are compared by methods, since `PartialOrd` would have to call only those equal that `==` does.
#[derive(Clone, Copy, PartialEq, Eq, Debug)]
pub struct Ratio {
    pub top: u32,
    pub bottom: u32,
}

impl Ratio {
    pub fn is_less(self, other: Ratio) -> bool
        ensures { result ≡ less self other }
    {
        self.cross(other) < other.cross(self)
    }

    // Whether the two are the same share, as 1/2 and 2/4 are.
    pub fn equals(self, other: Ratio) -> bool
        ensures { result ≡ equal self other }
    {
        self.cross(other) == other.cross(self)
    }

    fn cross(self, other: Ratio) -> u64
        ensures { result ≡ self.top * other.bottom }
    {
        u64::from(self.top) * u64::from(other.bottom)
    }
}
