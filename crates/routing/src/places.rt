//! How a workspace changes in a turn: which places are looked at, given up, taken and settled.
ghost use Rattle.std.specs.Prelude.{◌≡◌, ℕ, ◌+◌, ◌*◌, ◌<◌, ◌≤◌, true, false, length, MatchOption, MatchResult};
ghost use Rattle.measure.specs.Ranks.{Fit};
ghost use Rattle.labels.specs.Labels.{is_held, is_queued, slot, table, In, Held, Waits, Settles, Adds, Swept, Fits, Frees, Starts};
ghost use Rattle.labels.specs.Tournament.{Unused, Noted, Wrote, SameLabels, SameWinners, SameUsed, SameLists};
ghost use Rattle.report.specs.declared.Refusal.TheVariants.{LabelsFull};

use crate::scan::{clear_dominated, free_all, free_place, is_dominated};
use crate::tournament::Tournament;
use labels::{Label, Slot, State};
use measure::Measure;
use report::Refusal;

impl<M: Measure> Tournament<M> {
    // The place of a site's first label.
    fn first_place(&self, site: usize) -> usize
        requires { site < self.now.sites }
        ensures value { result ≡ site * self.now.k }
        ensures room { result + self.now.k ≤ self.now.sites * self.now.k }
    {
        site * self.k
    }

    // How many of the site's places were ever used: all that are held are among these.
    fn used(&self, slots: &[Slot<M>], site: usize) -> usize
        requires size { length slots.now ≡ self.now.sites * self.now.k }
        requires here { site < self.now.sites }
        ensures { result ≡ (slot M.Measure.kind slots.now site).used }
    {
        slots[site].used as usize
    }

    // Whether a label of the site dominates the value.
    pub(crate) fn is_covered(&self, slots: &[Slot<M>], site: usize, value: M) -> bool
        requires size { length slots.now ≡ self.now.sites * self.now.k }
        requires here { site < self.now.sites }
        requires unused { Unused (table M.Measure.kind slots.now) (slot M.Measure.kind slots.now) self.now.k self.now.sites }
        ensures yes { result ≡ true → (p : ℕ) × In self.now.k site p × Held (table M.Measure.kind slots.now) p × (M.Measure.kind.dominates (table M.Measure.kind slots.now p).value value ≡ true) }
        ensures no { result ≡ false → (p : ℕ) → In self.now.k site p → Held (table M.Measure.kind slots.now) p → M.Measure.kind.dominates (table M.Measure.kind slots.now p).value value ≡ false }
    {
        let start = self.first_place(site);
        let used = self.used(slots, site);
        is_dominated(&slots[start..start + used], value)
    }

    // Frees the queued labels of the site that the value dominates, and answers which of the used places is free, if one is: how many come
    // before it.
    fn sweep(&self, slots: &mut [Slot<M>], site: usize, value: M) -> Option<usize>
        requires size { length slots.old ≡ self.now.sites * self.now.k }
        requires here { site < self.now.sites }
        requires unused { Unused (table M.Measure.kind slots.old) (slot M.Measure.kind slots.old) self.now.k self.now.sites }
        ensures swept { Swept M.Measure.kind (slot M.Measure.kind slots.old) (slot M.Measure.kind slots.new) self.now.k site value }
        ensures used { SameUsed (slot M.Measure.kind slots.old) (slot M.Measure.kind slots.new) }
        ensures found { MatchOption result ((p : ℕ) → site * self.now.k ≤ p → p < site * self.now.k + (slot M.Measure.kind slots.old site).used → Held (table M.Measure.kind slots.new) p) (λ x. (x < (slot M.Measure.kind slots.old site).used) × (is_held (table M.Measure.kind slots.new (site * self.now.k + x)).state ≡ false)) }
    {
        let start = self.first_place(site);
        let used = self.used(slots, site);
        let there = &mut slots[start..start + used];
        clear_dominated(there, value);
        free_place(there)
    }

    // A free place of the site, once the queued labels that the value dominates have given up theirs. It is used from now on.
    fn make_room(&self, slots: &mut [Slot<M>], site: usize, value: M) -> Result<usize, Refusal>
        requires size { length slots.old ≡ self.now.sites * self.now.k }
        requires here { site < self.now.sites }
        requires unused { Unused (table M.Measure.kind slots.old) (slot M.Measure.kind slots.old) self.now.k self.now.sites }
        ensures swept { Swept M.Measure.kind (slot M.Measure.kind slots.old) (slot M.Measure.kind slots.new) self.now.k site value }
        ensures unused { Unused (table M.Measure.kind slots.new) (slot M.Measure.kind slots.new) self.now.k self.now.sites }
        ensures room { MatchResult result (λ x. In self.now.k site x × (x < site * self.now.k + (slot M.Measure.kind slots.new site).used) × (is_held (table M.Measure.kind slots.new x).state ≡ false)) (λ why. (why ≡ LabelsFull site) × ((p : ℕ) → In self.now.k site p → Held (table M.Measure.kind slots.new) p)) }
    {
        let start = self.first_place(site);
        if let Some(free) = self.sweep(slots, site, value) {
            return Ok(start + free);
        }
        let used = self.used(slots, site);
        if used == self.k {
            return Err(Refusal::LabelsFull { site });
        }
        slots[site].used = used as u16 + 1;
        Ok(start + used)
    }

    // Writes the label at the place, with its share of the limit.
    fn write(&self, slots: &mut [Slot<M>], place: usize, label: Label<M>)
        requires { place < length slots.old }
        ensures { Wrote M.Measure.kind self.now.limit (slot M.Measure.kind slots.old) (slot M.Measure.kind slots.new) place label }
    {
        let share = label.value.ratio(self.limit);
        let slot = slots[place];
        slots[place] = Slot {
            label,
            share,
            ..slot
        };
    }

    // Puts the newcomer among the labels of its site, where the queued ones that it dominates give up their places.
    pub(crate) fn put(
        &self,
        slots: &mut [Slot<M>],
        site: usize,
        newcomer: Label<M>,
    ) -> Result<(), Refusal>
        requires size { length slots.old ≡ self.now.sites * self.now.k }
        requires here { site < self.now.sites }
        requires noted { Noted M.Measure.kind self.now.limit (table M.Measure.kind slots.old) (slot M.Measure.kind slots.old) self.now.k self.now.sites }
        requires fits { Fits M.Measure.kind self.now.limit (table M.Measure.kind slots.old) }
        requires fit { Fit M.Measure.kind self.now.limit newcomer.value }
        requires waits { is_queued newcomer.state ≡ true }
        ensures unused { Unused (table M.Measure.kind slots.new) (slot M.Measure.kind slots.new) self.now.k self.now.sites }
        ensures links { SameLists (slot M.Measure.kind slots.old) (slot M.Measure.kind slots.new) }
        ensures put { MatchResult result (λ _. (x : ℕ) × Adds M.Measure.kind (table M.Measure.kind slots.old) (table M.Measure.kind slots.new) (site * self.now.k) (site * self.now.k + self.now.k) x newcomer × Noted M.Measure.kind self.now.limit (table M.Measure.kind slots.new) (slot M.Measure.kind slots.new) self.now.k self.now.sites) (λ why. (why ≡ LabelsFull site) × ((p : ℕ) → In self.now.k site p → Held (table M.Measure.kind slots.old) p × (Waits (table M.Measure.kind slots.old) p → M.Measure.kind.dominates newcomer.value (table M.Measure.kind slots.old p).value ≡ false))) }
    {
        let place = self.make_room(slots, site, newcomer.value)?;
        self.write(slots, place, newcomer);
        self.enter(slots, site, place);
        Ok(())
    }

    // Settles the queued label at `h`, of the site.
    pub(crate) fn settle(&self, slots: &mut [Slot<M>], h: usize, site: usize)
        requires size { length slots.old ≡ self.now.sites * self.now.k }
        requires here { site < self.now.sites }
        requires at { In self.now.k site h }
        requires waits { Waits (table M.Measure.kind slots.old) h }
        requires fits { Fits M.Measure.kind self.now.limit (table M.Measure.kind slots.old) }
        requires noted { Noted M.Measure.kind self.now.limit (table M.Measure.kind slots.old) (slot M.Measure.kind slots.old) self.now.k self.now.sites }
        ensures settles { Settles (table M.Measure.kind slots.old) (table M.Measure.kind slots.new) h }
        ensures noted { Noted M.Measure.kind self.now.limit (table M.Measure.kind slots.new) (slot M.Measure.kind slots.new) self.now.k self.now.sites }
        ensures links { SameLists (slot M.Measure.kind slots.old) (slot M.Measure.kind slots.new) }
    {
        slots[h].label.state = State::Settled;
        self.refresh(slots, site);
    }

    // Notes that the first place of the site is used.
    fn use_first(&self, slots: &mut [Slot<M>], site: usize)
        requires { site < length slots.old }
        ensures labels { SameLabels (slot M.Measure.kind slots.old) (slot M.Measure.kind slots.new) }
        ensures winners { SameWinners (slot M.Measure.kind slots.old) (slot M.Measure.kind slots.new) }
        ensures links { SameLists (slot M.Measure.kind slots.old) (slot M.Measure.kind slots.new) }
        ensures here { (slot M.Measure.kind slots.new site).used ≡ 1 }
        ensures other { (s : ℕ) → (s ≡ site → ⊥) → (slot M.Measure.kind slots.new s).used ≡ (slot M.Measure.kind slots.old s).used }
    {
        slots[site].used = 1;
    }

    // Begins with one label, of the walk with no links, at the site.
    pub(crate) fn start(&self, slots: &mut [Slot<M>], site: usize)
        requires size { length slots.old ≡ self.now.sites * self.now.k }
        requires here { site < self.now.sites }
        requires free { Frees (table M.Measure.kind slots.old) (length slots.old) }
        ensures starts { Starts M.Measure.kind (table M.Measure.kind slots.new) (site * self.now.k) }
        ensures noted { Noted M.Measure.kind self.now.limit (table M.Measure.kind slots.new) (slot M.Measure.kind slots.new) self.now.k self.now.sites }
        ensures links { SameLists (slot M.Measure.kind slots.old) (slot M.Measure.kind slots.new) }
    {
        self.seed(slots);
        let place = self.first_place(site);
        let label = Label {
            state: State::Queued,
            value: M::empty(),
            previous: place as u16,
            link: 0,
        };
        self.write(slots, place, label);
        self.use_first(slots, site);
        self.enter(slots, site, place);
    }

    // Frees the site's used places, where these are all that may be held.
    fn free_site(&self, slots: &mut [Slot<M>], site: usize)
        requires size { length slots.old ≡ self.now.sites * self.now.k }
        requires here { site < self.now.sites }
        requires used { (slot M.Measure.kind slots.old site).used ≤ self.now.k }
        ensures here { (p : ℕ) → site * self.now.k ≤ p → p < site * self.now.k + (slot M.Measure.kind slots.old site).used → is_held (table M.Measure.kind slots.new p).state ≡ false }
        ensures other { (p : ℕ) → Held (table M.Measure.kind slots.new) p → Held (table M.Measure.kind slots.old) p }
        ensures used { SameUsed (slot M.Measure.kind slots.old) (slot M.Measure.kind slots.new) }
    {
        let start = self.first_place(site);
        let used = self.used(slots, site);
        free_all(&mut slots[start..start + used]);
    }

    // Frees every label: places that were never used are free already.
    pub(crate) fn free_used(&self, slots: &mut [Slot<M>])
        requires size { length slots.old ≡ self.now.sites * self.now.k }
        requires unused { Unused (table M.Measure.kind slots.old) (slot M.Measure.kind slots.old) self.now.k self.now.sites }
        ensures { Frees (table M.Measure.kind slots.new) (length slots.new) }
    {
        for site in 0..self.sites {
            self.free_site(slots, site);
        }
    }
}
