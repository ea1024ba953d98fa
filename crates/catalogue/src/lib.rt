//! The catalogue: directed links, each at a numbered place, between numbered sites.
#![tactic(auto)]

ghost use Rattle.std.specs.Prelude.{◌≡◌, ◌<◌, ◌≤◌, ℕ, List, length, replicate, None, Option as Maybe};
ghost use Rattle.catalogue.specs.declared.Link.{Link as Edge};
ghost use Rattle.catalogue.specs.Places.{at, EmptyFrom};
ghost use Rattle.catalogue.specs.Calls.{size_answer, opened_sites, store_answer, stored, replace_answer, replaced, remove_answer, removed};
ghost use Rattle.catalogue.specs.Routes.{Sound};
ghost use Rattle.std.proofs.Props.{props};

use measure::Measure;
use report::Refusal;

pub mod routes;
pub mod walks;

pub use routes::{Ask, Route};

// A directed link that can be rented, from one site to another.
#[derive(Clone, Copy, PartialEq, Eq, Debug)]
pub struct Link<M> {
    pub start: u16,
    pub end: u16,
    pub value: M,
}

// What can be asked of anything that holds links: routing needs no more.
pub trait Links<M: Measure> {
    // the places, each with its link or none
    ghost links: { Self → List (Maybe (Edge M)) };

    // how many sites there are
    ghost span: { Self → ℕ };

    fn places(&self) -> usize
        ensures { result ≡ length (links self.now) };

    fn sites(&self) -> usize
        ensures { result ≡ span self.now };

    // How many places, from the first on, have to be looked at for links: later ones are empty. It is for speed alone.
    fn used_places(&self) -> usize
        ensures { EmptyFrom (links self.now) result };

    // The link at the place: none at an empty place, and none past the last.
    fn link(&self, place: usize) -> Option<Link<M>>
        ensures { result ≡ at (links self.now) place };

    // the links that are held are sound
    ghost sound: { (n : Self) → Sound M.Measure.kind (span n) (links n) };
}

// Links over places that the caller lends.
#[derive(Drop)]
pub struct Catalogue<'a, M: Measure> {
    links: &'a mut [Option<Link<M>>],
    sites: usize,
    // Links were only ever stored at places before this one.
    used: usize,
    ghost rest: { EmptyFrom links.now used } by { Prim.hlevel props },
    ghost sound: { Sound M.Measure.kind sites links.now } by { Prim.hlevel props },
}

// Whether a catalogue of this size may be opened: 1 to 256 sites and 1 to 4,096 places.
pub fn check_size(sites: usize, places: usize) -> Result<(), Refusal>
    ensures { result ≡ size_answer sites places }
{
    if (1..=256).contains(&sites) && (1..=4096).contains(&places) {
        Ok(())
    } else {
        Err(Refusal::CatalogueSize)
    }
}

// How many sites a catalogue has that is opened with so many sites and places: none where the size is one that is refused.
fn opened_sites(sites: usize, places: usize) -> usize
    ensures value { result ≡ opened_sites sites places }
    ensures few_sites { result ≤ 256 }
    ensures some_places { 0 < result → 1 ≤ places }
    ensures few_places { 0 < result → places ≤ 4096 }
{
    if check_size(sites, places).is_ok() {
        sites
    } else {
        0
    }
}

// Empties every place.
pub fn empty_all<T: Copy>(places: &mut [Option<T>])
    ensures { places.new ≡ replicate (length places.old) None }
{
    places.fill(None);
}

// What stands at a place: nothing past the last.
pub fn read_place<T: Copy>(places: &[Option<T>], place: usize) -> Option<T>
    ensures { result ≡ at places.now place }
{
    places.get(place).copied().flatten()
}

// The three below are what the methods pass their lent slice on to. They look the place up before they write, as `get_mut` says nothing of
// what a write through it leaves in the slice.
fn store_at<M: Measure>(
    links: &mut [Option<Link<M>>],
    sites: usize,
    place: usize,
    link: Link<M>,
) -> Result<(), Refusal>
    ensures answer { result ≡ store_answer M.Measure.kind sites links.old place link }
    ensures links { links.new ≡ stored M.Measure.kind sites links.old place link }
{
    let slot = links.get(place).ok_or(Refusal::NoSuchLink)?;
    if link.start as usize >= sites || link.end as usize >= sites {
        return Err(Refusal::NoSuchSite);
    }
    if link.start == link.end {
        return Err(Refusal::EndsMeet);
    }
    if !link.value.admitted() {
        return Err(Refusal::ValueNotAdmitted);
    }
    if slot.is_some() {
        return Err(Refusal::LinkTaken);
    }
    links[place] = Some(link);
    Ok(())
}

fn replace_at<M: Measure>(
    links: &mut [Option<Link<M>>],
    place: usize,
    value: M,
) -> Result<Link<M>, Refusal>
    ensures answer { result ≡ replace_answer M.Measure.kind links.old place value }
    ensures links { links.new ≡ replaced M.Measure.kind links.old place value }
{
    let slot = links.get(place).ok_or(Refusal::NoSuchLink)?;
    if !value.admitted() {
        return Err(Refusal::ValueNotAdmitted);
    }
    let link = slot.ok_or(Refusal::LinkEmpty)?;
    links[place] = Some(Link { value, ..link });
    Ok(link)
}

fn remove_at<M: Measure>(links: &mut [Option<Link<M>>], place: usize) -> Result<Link<M>, Refusal>
    ensures answer { result ≡ remove_answer links.old place }
    ensures links { links.new ≡ removed links.old place }
{
    let slot = links.get(place).ok_or(Refusal::NoSuchLink)?;
    let link = slot.ok_or(Refusal::LinkEmpty)?;
    links[place] = None;
    Ok(link)
}

impl<'a, M: Measure> Catalogue<'a, M> {
    ghost use Rattle.catalogue.specs.Keeping.{sites_of, links_of, links_lent};

    // Empties every place. The size is for `check_size` to refuse beforehand; this cannot refuse, and of a size that is refused there are no
    // sites.
    pub fn open(links: &'a mut [Option<Link<M>>], sites: usize) -> Catalogue<'a, M>
        ensures links { links_of result ≡ replicate (length links.old) None }
        ensures sites { sites_of result ≡ opened_sites sites (length links.old) }
        ensures same { links_lent result ≡ links.entry.ghost_name }
    {
        let sites = opened_sites(sites, links.len());
        empty_all(links);
        Catalogue {
            links,
            sites,
            used: 0,
        }
    }
}

impl<M: Measure> Catalogue<'_, M> {
    ghost use Rattle.catalogue.specs.Keeping.{sites_of, links_of, Keeps};

    // Puts the link at an empty place.
    #[tactic(auto, using(crate::proofs::Keeping::storing))]
    pub fn store(&mut self, place: usize, link: Link<M>) -> Result<(), Refusal>
        ensures answer { result ≡ store_answer M.Measure.kind (sites_of self.old) (links_of self.old) place link }
        ensures links { links_of self.new ≡ stored M.Measure.kind (sites_of self.old) (links_of self.old) place link }
        ensures keeps { Keeps self.old self.new }
    {
        store_at(self.links, self.sites, place, link)?;
        self.used = self.used.max(place + 1);
        Ok(())
    }

    // Gives the link at the place another value, and answers the link as it was.
    pub fn replace(&mut self, place: usize, value: M) -> Result<Link<M>, Refusal>
        ensures answer { result ≡ replace_answer M.Measure.kind (links_of self.old) place value }
        ensures links { links_of self.new ≡ replaced M.Measure.kind (links_of self.old) place value }
        ensures keeps { Keeps self.old self.new }
    {
        replace_at(self.links, place, value)
    }

    // Empties the place, and answers the link that stood there.
    pub fn remove(&mut self, place: usize) -> Result<Link<M>, Refusal>
        ensures answer { result ≡ remove_answer (links_of self.old) place }
        ensures links { links_of self.new ≡ removed (links_of self.old) place }
        ensures keeps { Keeps self.old self.new }
    {
        remove_at(self.links, place)
    }
}

impl<M: Measure> Links<M> for Catalogue<'_, M> {
    ghost use Rattle.catalogue.specs.Keeping.{sites_of, links_of};

    ghost links = { links_of };

    ghost span = { sites_of };

    ghost sound = { λ c. c.sound };

    fn places(&self) -> usize {
        self.links.len()
    }

    fn sites(&self) -> usize {
        self.sites
    }

    fn used_places(&self) -> usize {
        self.used
    }

    fn link(&self, place: usize) -> Option<Link<M>> {
        read_place(self.links, place)
    }
}
