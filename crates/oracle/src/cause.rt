//! Why a call is refused, with the numbers of the printed table, stated anew: none of them is taken from the library.
use crate::calls::PlainRefusal;
use report::Returned;

// The refusals of calls and sizes.
#[derive(Clone, Copy, PartialEq, Eq, Debug)]
pub enum Cause {
    CatalogueSize = 1,
    QuoteBookSize = 2,
    SitesDiffer = 3,
    NoSuchLink = 4,
    NoSuchCard = 5,
    NoSuchSite = 6,
    EndsMeet = 7,
    ValueNotAdmitted = 8,
    LimitNotAdmitted = 9,
    LinkTaken = 10,
    LinkEmpty = 11,
    CardFilled = 12,
    CardEmpty = 13,
    WorkspaceSize = 14,
    ReplyTooShort = 15,
    LabelsFull = 16,
}

impl Cause {
    pub(crate) fn number(self) -> u8 {
        self as u8
    }

    // The refusal for this cause, if nothing is returned with it.
    pub(crate) fn alone(self) -> PlainRefusal {
        PlainRefusal {
            number: self.number(),
            returned: Returned::Nothing,
        }
    }
}
