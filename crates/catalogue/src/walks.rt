//! Walks along the links of anything that answers the questions of a catalogue.
ghost use Rattle.std.specs.Prelude.{◌≡◌};
ghost use Rattle.catalogue.specs.Walks.{extend, Follows};

use crate::{Link, Links};
use measure::Measure;

// The site that a walk comes to, and what the walk is worth.
#[derive(Clone, Copy, PartialEq, Eq, Debug)]
pub struct Reached<M> {
    pub site: u16,
    pub value: M,
}

// What a walk of this value is worth with the link more at its end.
pub fn extended<M: Measure>(value: M, link: Link<M>) -> M
    ensures { result ≡ extend M.Measure.kind value link.value }
{
    value.join(link.value)
}

// Where the legs lead from the source, and what that walk is worth; none where they are no walk.
pub fn follow<M: Measure, N: Links<M>>(network: &N, source: u16, legs: &[u16]) -> Option<Reached<M>>
    ensures { Follows M.Measure.kind (N.Links.links network.now) source legs.now result }
{
    let mut site = source;
    let mut value = M::empty();
    for leg in legs {
        let link = network.link(*leg as usize)?;
        if link.start != site {
            return None;
        }
        site = link.end;
        value = extended(value, link);
    }
    Some(Reached { site, value })
}
