//! The links of a network by the site that they leave: lists that are kept in spare fields of the places that routing is lent, so that a
//! label is extended by the links of its own site alone. A list is noted at a site's number and at each of its links' places.
ghost use Rattle.std.specs.Prelude.{◌≡◌, ℕ, ◌+◌, ◌<◌, ◌≤◌, false, length};
ghost use Rattle.labels.specs.Labels.{slot};
ghost use Rattle.labels.specs.Outgoing.{Skips, Lands, Listed};
ghost use Rattle.labels.specs.Tournament.{SameLabels};

use catalogue::Links;
use labels::Slot;
use measure::Measure;

// Has each of these sites name `none` as its first link.
fn clear_firsts<M: Measure>(slots: &mut [Slot<M>], none: u16)
    ensures firsts { (s : ℕ) → s < length slots.old → (slot M.Measure.kind slots.new s).first ≡ none }
    ensures labels { SameLabels (slot M.Measure.kind slots.old) (slot M.Measure.kind slots.new) }
{
    for slot in slots.iter_mut() {
        slot.first = none;
    }
}

// Puts the link at the place in front of its site's list.
fn note_link<M: Measure>(slots: &mut [Slot<M>], site: usize, place: usize)
    requires here { site < length slots.old }
    requires inside { place < length slots.old }
    requires few { place < 4096 }
    ensures first { (slot M.Measure.kind slots.new site).first ≡ place }
    ensures next { (slot M.Measure.kind slots.new place).next ≡ (slot M.Measure.kind slots.old site).first }
    ensures firsts { (s : ℕ) → (s ≡ site → ⊥) → (slot M.Measure.kind slots.new s).first ≡ (slot M.Measure.kind slots.old s).first }
    ensures nexts { (p : ℕ) → (p ≡ place → ⊥) → (slot M.Measure.kind slots.new p).next ≡ (slot M.Measure.kind slots.old p).next }
    ensures labels { SameLabels (slot M.Measure.kind slots.old) (slot M.Measure.kind slots.new) }
{
    slots[place].next = slots[site].first;
    slots[site].first = place as u16;
}

// Looks at one place: a link there is put in front of its site's list.
fn list_link<M: Measure, N: Links<M>>(network: &N, slots: &mut [Slot<M>], place: usize)
    requires room { N.Links.span network.now ≤ length slots.old }
    requires inside { place < length slots.old }
    requires few { place < 4096 }
    requires listed { Listed (N.Links.links network.now) (slot M.Measure.kind slots.old) (N.Links.span network.now) (place + 1) }
    ensures listed { Listed (N.Links.links network.now) (slot M.Measure.kind slots.new) (N.Links.span network.now) place }
    ensures labels { SameLabels (slot M.Measure.kind slots.old) (slot M.Measure.kind slots.new) }
{
    if let Some(link) = network.link(place) {
        note_link(slots, link.start as usize, place);
    }
}

// Lists the links, the last first, so that each list goes up. Only places that were ever used are looked at.
// Where the network has more places than there are slots, some link would have no slot for its note, and there are no lists.
pub(crate) fn list_links<M: Measure, N: Links<M>>(network: &N, slots: &mut [Slot<M>])
    requires room { N.Links.span network.now ≤ length slots.old }
    requires some { 0 < N.Links.span network.now }
    ensures listed { length (N.Links.links network.now) ≤ length slots.old → Listed (N.Links.links network.now) (slot M.Measure.kind slots.new) (N.Links.span network.now) 0 }
    ensures labels { SameLabels (slot M.Measure.kind slots.old) (slot M.Measure.kind slots.new) }
{
    let sites = network.sites();
    let places = network.places();
    if places > slots.len() {
        return;
    }
    clear_firsts(&mut slots[..sites], places as u16);
    let used = network.used_places().min(places);
    for place in (0..used).rev() {
        list_link(network, slots, place);
    }
}

// Whether a link leaves the site from the place.
fn leaves<M: Measure, N: Links<M>>(network: &N, site: usize, place: usize) -> bool
    ensures none { result ≡ false → Skips (N.Links.links network.now) site place (place + 1) }
{
    match network.link(place) {
        Some(link) => link.start as usize == site,
        None => false,
    }
}

// The first place from this one on with a link from the site, found without lists: past the last where there is none.
fn scan_from<M: Measure, N: Links<M>>(network: &N, site: usize, from: usize) -> usize
    ensures skips { Skips (N.Links.links network.now) site from result }
{
    let mut place = from;
    while place < network.places() && !leaves(network, site, place) {
        place += 1;
    }
    place
}

// The first place with a link from the site: past the last where none leaves it.
pub(crate) fn first_link<M: Measure, N: Links<M>>(
    network: &N,
    slots: &[Slot<M>],
    site: usize,
) -> usize
    requires here { site < N.Links.span network.now }
    requires room { N.Links.span network.now ≤ length slots.now }
    requires listed { length (N.Links.links network.now) ≤ length slots.now → Listed (N.Links.links network.now) (slot M.Measure.kind slots.now) (N.Links.span network.now) 0 }
    ensures skips { Skips (N.Links.links network.now) site 0 result }
    ensures lands { length (N.Links.links network.now) ≤ length slots.now → Lands (N.Links.links network.now) site result }
{
    if network.places() > slots.len() {
        scan_from(network, site, 0)
    } else {
        slots[site].first as usize
    }
}

// The place of the next link from the site after the one at `i`: past the last where none is left.
pub(crate) fn link_after<M: Measure, N: Links<M>>(
    network: &N,
    slots: &[Slot<M>],
    site: usize,
    i: usize,
) -> usize
    requires here { site < N.Links.span network.now }
    requires inside { i < length (N.Links.links network.now) }
    requires listed { length (N.Links.links network.now) ≤ length slots.now → Listed (N.Links.links network.now) (slot M.Measure.kind slots.now) (N.Links.span network.now) 0 }
    requires lands { length (N.Links.links network.now) ≤ length slots.now → Lands (N.Links.links network.now) site i }
    ensures skips { Skips (N.Links.links network.now) site (i + 1) result }
    ensures lands { length (N.Links.links network.now) ≤ length slots.now → Lands (N.Links.links network.now) site result }
{
    if network.places() > slots.len() {
        scan_from(network, site, i + 1)
    } else {
        slots[i].next as usize
    }
}
