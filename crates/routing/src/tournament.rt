//! A tournament between the sites of a network: which queued label ranks first, kept in spare fields of the labels' places.
ghost use Rattle.std.specs.Prelude.{◌≡◌, ℕ, ◌+◌, ◌*◌, ◌<◌, ◌≤◌, true, ◌&&◌, ◌||◌, length};
ghost use Rattle.measure.specs.Ratios.{less, equal};
ghost use Rattle.labels.specs.Labels.{is_queued, slot, table, Beaten, Fits, FirstBelow, Frees};
ghost use Rattle.labels.specs.Tournament.{named, Better, SiteBest, Shares, Inside, Grounds, Noted, NotedBut, NotedUnder, Entered, SameLabels, SameUsed, SameLists};

use labels::{Slot, State};
use measure::{Measure, Ratio};

// The sites of a network, each with k places for labels, and the limit under which these rank: what a tournament between the sites is held over.
// Its nodes are those of a heap: the root is 1, the node j has the children 2 j and 2 j + 1, and the leaf of a site is that many past the
// inner nodes. The places are lent to each method on their own, as the labels of an exploration are.
#[derive(Drop)]
pub(crate) struct Tournament<M: Measure> {
    pub sites: usize,
    pub k: usize,
    pub limit: M::Limit,
    ghost admitted: { M.Measure.kind.limit_admitted limit ≡ true },
    ghost some: { 0 < k },
    ghost any: { 0 < sites },
    ghost few_sites: { sites ≤ 256 },
    ghost few: { sites * k ≤ 16384 },
    ghost room: { sites ≤ sites * k },
    ghost few_labels: { k ≤ 64 },
}

// Whether the label at this place is queued.
fn is_waiting<M: Measure>(slot: &Slot<M>) -> bool
    ensures { result ≡ is_queued slot.now.label.state }
{
    slot.label.state == State::Queued
}

// Whether a value with this share of the limit ranks before the label at the place, by the share that is kept with that.
fn precedes<M: Measure>(share: Ratio, value: M, slot: &Slot<M>) -> bool
    ensures { result ≡ (less share slot.now.share || (equal share slot.now.share && M.Measure.kind.before value slot.now.label.value)) }
{
    share.is_less(slot.share) || (share.equals(slot.share) && value.before(slot.label.value))
}

// Whether the label at the one place ranks before that at the other, by the shares that are kept with them.
fn outranks<M: Measure>(one: &Slot<M>, other: &Slot<M>) -> bool
    ensures { result ≡ (less one.now.share other.now.share || (equal one.now.share other.now.share && M.Measure.kind.before one.now.label.value other.now.label.value)) }
{
    precedes(one.share, one.label.value, other)
}

impl<M: Measure> Tournament<M> {
    // The place that the node names: an inner node its winner, a leaf the best of its site.
    fn named(&self, slots: &[Slot<M>], node: usize) -> usize
        requires size { length slots.now ≡ self.now.sites * self.now.k }
        requires inside { node < 2 * self.now.sites }
        ensures { result ≡ named (slot M.Measure.kind slots.now) self.now.sites node }
    {
        if node < self.sites {
            slots[node].winner as usize
        } else {
            slots[node - self.sites].best as usize
        }
    }

    // The better of two places: the one whose label is queued, and of two of these the one that ranks first.
    // The share that is kept with a label is its value's ratio, so that none is worked out here.
    fn better(&self, slots: &[Slot<M>], a: usize, b: usize) -> usize
        requires fits { Fits M.Measure.kind self.now.limit (table M.Measure.kind slots.now) }
        requires shares { Shares M.Measure.kind self.now.limit (table M.Measure.kind slots.now) (slot M.Measure.kind slots.now) }
        requires left { a < length slots.now }
        requires right { b < length slots.now }
        ensures { Better M.Measure.kind self.now.limit (table M.Measure.kind slots.now) a b result }
    {
        let first = &slots[a];
        let second = &slots[b];
        if !is_waiting(second) {
            return a;
        }
        if !is_waiting(first) {
            return b;
        }
        if outranks(second, first) { b } else { a }
    }

    // The best place of the site: a place that was never used is free, and need not be looked at.
    fn rescan(&self, slots: &[Slot<M>], site: usize) -> usize
        requires size { length slots.now ≡ self.now.sites * self.now.k }
        requires fits { Fits M.Measure.kind self.now.limit (table M.Measure.kind slots.now) }
        requires grounds { Grounds M.Measure.kind self.now.limit (table M.Measure.kind slots.now) (slot M.Measure.kind slots.now) self.now.k self.now.sites }
        requires here { site < self.now.sites }
        ensures { SiteBest M.Measure.kind self.now.limit (table M.Measure.kind slots.now) self.now.k site result }
    {
        let start = site * self.k;
        let used = slots[site].used as usize;
        let mut best = start;
        for place in start + 1..start + used {
            best = self.better(slots, best, place);
        }
        best
    }

    // From the leaf of the site up to the root each node names the better of the places that its children name.
    // The one child's is the winner so far, so that of each two children only the other is read.
    fn climb(&self, slots: &mut [Slot<M>], site: usize)
        requires size { length slots.old ≡ self.now.sites * self.now.k }
        requires fits { Fits M.Measure.kind self.now.limit (table M.Measure.kind slots.old) }
        requires here { site < self.now.sites }
        requires under { NotedUnder M.Measure.kind self.now.limit (table M.Measure.kind slots.old) (slot M.Measure.kind slots.old) self.now.k self.now.sites (self.now.sites + site) }
        ensures noted { Noted M.Measure.kind self.now.limit (table M.Measure.kind slots.new) (slot M.Measure.kind slots.new) self.now.k self.now.sites }
        ensures labels { SameLabels (slot M.Measure.kind slots.old) (slot M.Measure.kind slots.new) }
        ensures used { SameUsed (slot M.Measure.kind slots.old) (slot M.Measure.kind slots.new) }
        ensures links { SameLists (slot M.Measure.kind slots.old) (slot M.Measure.kind slots.new) }
    {
        let mut node = self.sites + site;
        let mut winner = slots[site].best as usize;
        while node > 1 {
            let other = self.named(slots, node ^ 1);
            winner = self.better(slots, winner, other);
            node /= 2;
            slots[node].winner = winner as u16;
        }
    }

    // Sets the notes right after labels of the site were settled or freed.
    pub(crate) fn refresh(&self, slots: &mut [Slot<M>], site: usize)
        requires size { length slots.old ≡ self.now.sites * self.now.k }
        requires fits { Fits M.Measure.kind self.now.limit (table M.Measure.kind slots.old) }
        requires here { site < self.now.sites }
        requires but { NotedBut M.Measure.kind self.now.limit (table M.Measure.kind slots.old) (slot M.Measure.kind slots.old) self.now.k self.now.sites site }
        ensures noted { Noted M.Measure.kind self.now.limit (table M.Measure.kind slots.new) (slot M.Measure.kind slots.new) self.now.k self.now.sites }
        ensures labels { SameLabels (slot M.Measure.kind slots.old) (slot M.Measure.kind slots.new) }
        ensures used { SameUsed (slot M.Measure.kind slots.old) (slot M.Measure.kind slots.new) }
        ensures links { SameLists (slot M.Measure.kind slots.old) (slot M.Measure.kind slots.new) }
    {
        let best = self.rescan(slots, site);
        slots[site].best = best as u16;
        self.climb(slots, site);
    }

    // The queued label of first rank: the root's place, unless nothing is queued.
    pub(crate) fn first_queued(&self, slots: &[Slot<M>]) -> Option<usize>
        requires size { length slots.now ≡ self.now.sites * self.now.k }
        requires fits { Fits M.Measure.kind self.now.limit (table M.Measure.kind slots.now) }
        requires noted { Noted M.Measure.kind self.now.limit (table M.Measure.kind slots.now) (slot M.Measure.kind slots.now) self.now.k self.now.sites }
        ensures { FirstBelow M.Measure.kind self.now.limit (table M.Measure.kind slots.now) (length slots.now) result }
    {
        let place = self.named(slots, 1);
        if is_waiting(&slots[place]) {
            Some(place)
        } else {
            None
        }
    }

    // Whether a label that is queued at the site ranks no later than a walk of this value. If any does, the site's best does.
    pub(crate) fn is_beaten(&self, slots: &[Slot<M>], site: usize, value: M) -> bool
        requires size { length slots.now ≡ self.now.sites * self.now.k }
        requires here { site < self.now.sites }
        requires noted { Noted M.Measure.kind self.now.limit (table M.Measure.kind slots.now) (slot M.Measure.kind slots.now) self.now.k self.now.sites }
        ensures { result ≡ true → Beaten M.Measure.kind self.now.limit self.now.k (table M.Measure.kind slots.now) site value }
    {
        let place = slots[site].best as usize;
        let best = &slots[place];
        is_waiting(best) && !precedes(value.ratio(self.limit), value, best)
    }

    // Notes that a queued label came to the place. It is compared with the best place of its site alone, and what stands above the site is
    // gone over only where it is better.
    pub(crate) fn enter(&self, slots: &mut [Slot<M>], site: usize, place: usize)
        requires size { length slots.old ≡ self.now.sites * self.now.k }
        requires fits { Fits M.Measure.kind self.now.limit (table M.Measure.kind slots.old) }
        requires here { site < self.now.sites }
        requires entered { Entered M.Measure.kind self.now.limit (table M.Measure.kind slots.old) (slot M.Measure.kind slots.old) self.now.k self.now.sites site place }
        ensures noted { Noted M.Measure.kind self.now.limit (table M.Measure.kind slots.new) (slot M.Measure.kind slots.new) self.now.k self.now.sites }
        ensures labels { SameLabels (slot M.Measure.kind slots.old) (slot M.Measure.kind slots.new) }
        ensures used { SameUsed (slot M.Measure.kind slots.old) (slot M.Measure.kind slots.new) }
        ensures links { SameLists (slot M.Measure.kind slots.old) (slot M.Measure.kind slots.new) }
    {
        let best = slots[site].best as usize;
        if best == place || self.better(slots, best, place) == place {
            slots[site].best = place as u16;
            self.climb(slots, site);
        }
    }

    // Notes of each site that none of its places is used, and that its first is its best.
    fn seed_sites(&self, slots: &mut [Slot<M>])
        requires size { length slots.old ≡ self.now.sites * self.now.k }
        ensures bests { (s : ℕ) → s < self.now.sites → (slot M.Measure.kind slots.new s).best ≡ s * self.now.k }
        ensures unused { (s : ℕ) → s < self.now.sites → (slot M.Measure.kind slots.new s).used ≡ 0 }
        ensures labels { SameLabels (slot M.Measure.kind slots.old) (slot M.Measure.kind slots.new) }
        ensures links { SameLists (slot M.Measure.kind slots.old) (slot M.Measure.kind slots.new) }
    {
        for site in 0..self.sites {
            let slot = &mut slots[site];
            slot.best = (site * self.k) as u16;
            slot.used = 0;
        }
    }

    // Has each inner node name the place that its first child names.
    fn seed_nodes(&self, slots: &mut [Slot<M>])
        requires size { length slots.old ≡ self.now.sites * self.now.k }
        requires bests { (s : ℕ) → s < self.now.sites → (slot M.Measure.kind slots.old s).best ≡ s * self.now.k }
        ensures named { (i : ℕ) → 1 ≤ i → i < self.now.sites → (slot M.Measure.kind slots.new i).winner ≡ named (slot M.Measure.kind slots.new) self.now.sites (2 * i) }
        ensures inside { Inside (slot M.Measure.kind slots.new) self.now.k self.now.sites }
        ensures bests { (s : ℕ) → (slot M.Measure.kind slots.new s).best ≡ (slot M.Measure.kind slots.old s).best }
        ensures labels { SameLabels (slot M.Measure.kind slots.old) (slot M.Measure.kind slots.new) }
        ensures used { SameUsed (slot M.Measure.kind slots.old) (slot M.Measure.kind slots.new) }
        ensures links { SameLists (slot M.Measure.kind slots.old) (slot M.Measure.kind slots.new) }
    {
        for node in (1..self.sites).rev() {
            slots[node].winner = self.named(slots, 2 * node) as u16;
        }
    }

    // Notes of free labels: no place of a site is used, its first is its best, and each inner node names the place that its first child names.
    pub(crate) fn seed(&self, slots: &mut [Slot<M>])
        requires size { length slots.old ≡ self.now.sites * self.now.k }
        requires free { Frees (table M.Measure.kind slots.old) (length slots.old) }
        ensures noted { Noted M.Measure.kind self.now.limit (table M.Measure.kind slots.new) (slot M.Measure.kind slots.new) self.now.k self.now.sites }
        ensures labels { SameLabels (slot M.Measure.kind slots.old) (slot M.Measure.kind slots.new) }
        ensures links { SameLists (slot M.Measure.kind slots.old) (slot M.Measure.kind slots.new) }
        ensures unused { (s : ℕ) → s < self.now.sites → (slot M.Measure.kind slots.new s).used ≡ 0 }
    {
        self.seed_sites(slots);
        self.seed_nodes(slots);
    }
}
