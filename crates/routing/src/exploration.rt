//! One exploration of a network: from the source on, walk by walk in the order of their ranks, until the destination is reached.
ghost use Rattle.std.specs.Prelude.{◌≡◌, ◌+◌, ◌*◌, ◌<◌, ◌≤◌, length, reverse, take, MatchOption, MatchResult};
ghost use Rattle.catalogue.specs.Walks.{Holds, Walk, Simple};
ghost use Rattle.labels.specs.Labels.{slot, table, Steady, Offered, OffersNone, Opens, Rests, Wins, Frees};
ghost use Rattle.labels.specs.Outgoing.{Listed};
ghost use Rattle.labels.specs.Tournament.{Unused};
ghost use Rattle.routing.specs.Finds.{IsFull, EndsSo, WroteLegs, Indexed};

use crate::outgoing::{first_link, link_after};
use crate::tournament::Tournament;
use catalogue::Links;
use catalogue::walks::extended;
use labels::{Label, Slot, State};
use measure::Measure;
use report::Refusal;

// What one call asks for: the first walk in rank from the source to the destination within the tournament's limit.
// The workspace is lent to each method on its own: what a method leaves of it is said without saying that the rest stays as it was.
#[derive(Drop)]
pub(crate) struct Exploration<'a, M: Measure, N: Links<M>> {
    pub network: &'a N,
    pub source: usize,
    pub destination: usize,
    pub tournament: Tournament<M>,
    ghost spans: { tournament.sites ≡ N.Links.span network.now },
    ghost source_in: { source < N.Links.span network.now },
    ghost destination_in: { destination < N.Links.span network.now },
}

// A value that a link brings to a site.
#[derive(Clone, Copy)]
struct Offer<M> {
    site: usize,
    value: M,
}

impl<M: Measure, N: Links<M>> Exploration<'_, M, N> {
    // What the link at `i` brings from the label at `h`, which stands at `site`: nothing where it is outside the limit.
    fn offered(&self, slots: &[Slot<M>], h: usize, site: usize, i: usize) -> Option<Offer<M>>
        requires { h < length slots.now }
        ensures { MatchOption result (OffersNone M.Measure.kind self.now.tournament.limit (N.Links.links self.now.network.now) (table M.Measure.kind slots.now) h site i) (λ o. Offered M.Measure.kind self.now.tournament.limit (N.Links.links self.now.network.now) (table M.Measure.kind slots.now) h site i o.site o.value) }
    {
        let link = self.network.link(i)?;
        if link.start as usize != site {
            return None;
        }
        let value = extended(slots[h].label.value, link);
        let site = link.end as usize;
        if value.within(self.tournament.limit) {
            Some(Offer { site, value })
        } else {
            None
        }
    }

    // Extends the label at `h`, which stands at `site`, by the link at `i`.
    fn extend_by(
        &self,
        slots: &mut [Slot<M>],
        h: usize,
        site: usize,
        i: usize,
    ) -> Result<(), Refusal>
        requires size { length slots.old ≡ self.now.tournament.sites * self.now.tournament.k }
        requires inside { i < length (N.Links.links self.now.network.now) }
        requires opens { Opens M.Measure.kind self.now.tournament.limit (N.Links.links self.now.network.now) self.now.tournament.k self.now.source self.now.destination (table M.Measure.kind slots.old) h site i }
        requires indexed { Indexed M.Measure.kind self.now.tournament.limit (N.Links.links self.now.network.now) slots.old self.now.tournament.k self.now.tournament.sites }
        ensures unused { Unused (table M.Measure.kind slots.new) (slot M.Measure.kind slots.new) self.now.tournament.k self.now.tournament.sites }
        ensures opens { MatchResult result (λ _. Opens M.Measure.kind self.now.tournament.limit (N.Links.links self.now.network.now) self.now.tournament.k self.now.source self.now.destination (table M.Measure.kind slots.new) h site (i + 1) × Steady (table M.Measure.kind slots.old) (table M.Measure.kind slots.new) × Indexed M.Measure.kind self.now.tournament.limit (N.Links.links self.now.network.now) slots.new self.now.tournament.k self.now.tournament.sites) (IsFull M.Measure.kind self.now.tournament.limit (N.Links.links self.now.network.now) self.now.tournament.k self.now.source) }
    {
        let Some(offer) = self.offered(slots, h, site, i) else {
            return Ok(());
        };
        if self
            .tournament
            .is_beaten(slots, self.destination, offer.value)
        {
            return Ok(());
        }
        if self.tournament.is_covered(slots, offer.site, offer.value) {
            return Ok(());
        }
        let newcomer = Label {
            state: State::Queued,
            value: offer.value,
            previous: h as u16,
            link: i as u16,
        };
        self.tournament.put(slots, offer.site, newcomer)
    }

    // Extends the label at `h`, which stands at `site`, by every link from there.
    fn extend(&self, slots: &mut [Slot<M>], h: usize, site: usize) -> Result<(), Refusal>
        requires size { length slots.old ≡ self.now.tournament.sites * self.now.tournament.k }
        requires here { site < self.now.tournament.sites }
        requires opens { Opens M.Measure.kind self.now.tournament.limit (N.Links.links self.now.network.now) self.now.tournament.k self.now.source self.now.destination (table M.Measure.kind slots.old) h site 0 }
        requires indexed { Indexed M.Measure.kind self.now.tournament.limit (N.Links.links self.now.network.now) slots.old self.now.tournament.k self.now.tournament.sites }
        ensures unused { Unused (table M.Measure.kind slots.new) (slot M.Measure.kind slots.new) self.now.tournament.k self.now.tournament.sites }
        ensures rests { MatchResult result (λ _. Rests M.Measure.kind self.now.tournament.limit (N.Links.links self.now.network.now) self.now.tournament.k self.now.source self.now.destination (table M.Measure.kind slots.new) × Steady (table M.Measure.kind slots.old) (table M.Measure.kind slots.new) × Indexed M.Measure.kind self.now.tournament.limit (N.Links.links self.now.network.now) slots.new self.now.tournament.k self.now.tournament.sites) (IsFull M.Measure.kind self.now.tournament.limit (N.Links.links self.now.network.now) self.now.tournament.k self.now.source) }
    {
        let mut i = first_link(self.network, slots, site);
        while i < self.network.places() {
            self.extend_by(slots, h, site, i)?;
            i = link_after(self.network, slots, site, i);
        }
        Ok(())
    }

    // The place of the first walk's label, or none where no walk is within the limit. It takes from a queue that it fills.
    pub(crate) fn explore(&self, slots: &mut [Slot<M>]) -> Result<Option<usize>, Refusal>
        requires size { length slots.old ≡ self.now.tournament.sites * self.now.tournament.k }
        requires free { Frees (table M.Measure.kind slots.old) (length slots.old) }
        requires listed { length (N.Links.links self.now.network.now) ≤ length slots.old → Listed (N.Links.links self.now.network.now) (slot M.Measure.kind slots.old) self.now.tournament.sites 0 }
        ensures unused { Unused (table M.Measure.kind slots.new) (slot M.Measure.kind slots.new) self.now.tournament.k self.now.tournament.sites }
        ensures ends { EndsSo M.Measure.kind self.now.tournament.limit (N.Links.links self.now.network.now) self.now.tournament.k self.now.source self.now.destination (table M.Measure.kind slots.new) result }
    {
        self.tournament.start(slots, self.source);
        while let Some(h) = self.tournament.first_queued(slots) {
            let site = h / self.tournament.k;
            if site == self.destination {
                return Ok(Some(h));
            }
            self.tournament.settle(slots, h, site);
            self.extend(slots, h, site)?;
        }
        Ok(None)
    }

    // Writes the legs of the walk of the label at `p` to the front of the row, the last leg first, and answers how many there are.
    // There are fewer than sites, so that the row is never used up.
    fn trace(&self, slots: &[Slot<M>], p: usize, row: &mut [u16]) -> usize
        requires wins { Wins M.Measure.kind self.now.tournament.limit (N.Links.links self.now.network.now) self.now.tournament.k self.now.source self.now.destination (table M.Measure.kind slots.now) p }
        requires room { N.Links.span self.now.network.now ≤ length row.old }
        ensures inside { result ≤ length row.old }
        ensures walk { Walk M.Measure.kind (Holds (N.Links.links self.now.network.now)) self.now.source (reverse (take result row.new)) self.now.destination (table M.Measure.kind slots.now p).value }
        ensures simple { Simple (Holds (N.Links.links self.now.network.now)) self.now.source (reverse (take result row.new)) }
    {
        let mut q = p;
        for (i, leg) in row.iter_mut().enumerate() {
            let label = slots[q].label;
            let previous = usize::from(label.previous);
            if previous == q {
                return i;
            }
            *leg = label.link;
            q = previous;
        }
        unreachable!()
    }

    // Writes the legs of the walk of the label at `p` to the front of the row and zeros after them, and answers how many legs there are.
    pub(crate) fn write_legs(&self, slots: &[Slot<M>], p: usize, row: &mut [u16]) -> usize
        requires wins { Wins M.Measure.kind self.now.tournament.limit (N.Links.links self.now.network.now) self.now.tournament.k self.now.source self.now.destination (table M.Measure.kind slots.now) p }
        requires room { N.Links.span self.now.network.now ≤ length row.old }
        ensures { WroteLegs M.Measure.kind (N.Links.links self.now.network.now) self.now.source self.now.destination (table M.Measure.kind slots.now p).value (length row.old) row.new result }
    {
        let legs = self.trace(slots, p, row);
        row[..legs].reverse();
        row[legs..].fill(0);
        legs
    }
}
