//! Whether a site has more walks to it, none as good as another, than its labels can hold.
use crate::figures::{Figures, is_no_worse};
use crate::model::{Model, Sought};
use crate::walks::Meets;
use arrayvec::ArrayVec;

// How many different values are looked at; one more is left out, which can only make too few of them.
const VALUES: usize = 128;

// The different values of those that were met.
#[derive(Drop)]
struct Different {
    values: ArrayVec<Figures, VALUES>,
}

impl Meets for Different {
    fn meet(&mut self, value: Figures) {
        if !self.values.contains(&value) {
            let _left_out = self.values.try_push(value);
        }
    }
}

// Whether neither value is as good as the other in every number.
fn are_apart(one: Figures, two: Figures) -> bool {
    !is_no_worse(one, two) && !is_no_worse(two, one)
}

// Those of the values that are apart from this one.
fn apart_from(values: &[Figures], value: Figures) -> ArrayVec<Figures, VALUES> {
    let mut apart = ArrayVec::new();
    for other in values.iter().copied() {
        if are_apart(value, other) {
            let _left_out = apart.try_push(other);
        }
    }
    apart
}

// Whether so many of the values are apart from each other.
fn has_apart(values: &[Figures], wanted: usize) -> bool {
    if wanted == 0 {
        return true;
    }
    if values.len() < wanted {
        return false;
    }
    for (i, value) in values.iter().copied().enumerate() {
        if has_apart(&apart_from(&values[i..], value), wanted - 1) {
            return true;
        }
    }
    false
}

impl Model {
    // Whether there are more than k walks from the source that is asked for to the site within the limit, none dominating another. Other
    // walks may well dominate some of these.
    pub(crate) fn is_crowded(&self, sought: Sought, site: u16) -> bool {
        let none = Different {
            values: ArrayVec::new(),
        };
        let met = self.meet_walks(sought.ask, site, none);
        has_apart(&met.values, sought.k.saturating_add(1))
    }
}
