//! What every call reports in the same words: why it was refused, and whether a card may be printed.
#![tactic(auto)]

ghost use Rattle.std.specs.Prelude.{◌≡◌};
ghost use Rattle.report.specs.Refusals.{number as number_of, returned as returned_with, values};

// Why a call was turned down. `number` has the number that is printed for each case.
#[derive(Clone, Copy, PartialEq, Eq, Debug)]
pub enum Refusal {
    // Opening: the sites or the link places are too few or too many.
    CatalogueSize,
    // Opening: the card places are too few or too many, or the rows do not hold one number for each card place and site.
    QuoteBookSize,
    // The quote book and the catalogue differ in their number of sites.
    SitesDiffer,
    NoSuchLink,
    NoSuchCard,
    // One of the two ends.
    NoSuchSite,
    // A link that would start and end at one site.
    EndsMeet,
    ValueNotAdmitted,
    LimitNotAdmitted,
    LinkTaken,
    LinkEmpty,
    CardFilled,
    CardEmpty,
    // The workspace does not hold k labels a site, or k is too small or too large.
    WorkspaceSize,
    // The reply's start place is past its end, or too few numbers follow it for the legs.
    ReplyTooShort,
    // Routing met one walk more than the site's labels can hold.
    LabelsFull { site: usize },
    // A feed's byte, at this place, is the kind of no record.
    UnknownKind { place: usize },
    // The record whose kind byte stands at this place lacks the last bytes of its body.
    CutShort { place: usize, missing: usize },
    // A buffer has no room for the record or the line.
    BufferTooShort,
}

// The numbers that go with a refusal. A case for each count: a pair of `Option` would allow a second number with no first.
#[derive(Clone, Copy, PartialEq, Eq, Debug)]
pub enum Returned {
    Nothing,
    One(usize),
    Two(usize, usize),
}

impl Refusal {
    // The number by which the refusal is known in print. A method and no `From`, since the name says which number it is.
    pub fn number(self) -> u8
        ensures { result ≡ number_of self }
    {
        match self {
            Refusal::CatalogueSize => 1,
            Refusal::QuoteBookSize => 2,
            Refusal::SitesDiffer => 3,
            Refusal::NoSuchLink => 4,
            Refusal::NoSuchCard => 5,
            Refusal::NoSuchSite => 6,
            Refusal::EndsMeet => 7,
            Refusal::ValueNotAdmitted => 8,
            Refusal::LimitNotAdmitted => 9,
            Refusal::LinkTaken => 10,
            Refusal::LinkEmpty => 11,
            Refusal::CardFilled => 12,
            Refusal::CardEmpty => 13,
            Refusal::WorkspaceSize => 14,
            Refusal::ReplyTooShort => 15,
            Refusal::LabelsFull { .. } => 16,
            Refusal::UnknownKind { .. } => 17,
            Refusal::CutShort { .. } => 18,
            Refusal::BufferTooShort => 19,
        }
    }

    // What is returned with the number.
    pub fn returned(self) -> Returned
        ensures { values result ≡ returned_with self }
    {
        match self {
            Refusal::LabelsFull { site } => Returned::One(site),
            Refusal::UnknownKind { place } => Returned::One(place),
            Refusal::CutShort { place, missing } => Returned::Two(place, missing),
            _ => Returned::Nothing,
        }
    }
}

// How far a card can be trusted: a standing one is printed, a doubtful one is held back until its route is found again.
#[derive(Clone, Copy, PartialEq, Eq, Debug)]
pub enum Mark {
    Standing,
    Doubtful,
}
