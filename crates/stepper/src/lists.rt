// How long the lists are that a caller lends.
ghost use Rattle.std.specs.Prelude.{◌≡◌};
ghost use Rattle.stepper.specs.Lists.{lengths_of, lengths_fit};

use crate::limits::EACH;
use slots::Slots;

#[derive(Clone, Copy, PartialEq, Eq)]
pub(crate) struct Lengths {
    book: usize,
    rows: usize,
    givens: usize,
}

impl Lengths {
    pub(crate) fn of<H, G>(book: &[H], rows: &[H], givens: &[G]) -> Lengths
        ensures { result ≡ lengths_of book.now rows.now givens.now }
    {
        Lengths {
            book: book.len(),
            rows: rows.len(),
            givens: givens.len(),
        }
    }

    // Whether these are the lengths for a book of so many places and slots.
    pub(crate) fn fit(self, places: usize, slots: Slots) -> bool
        ensures { result ≡ lengths_fit places slots.count self }
    {
        let held = EACH * slots.count();
        self == Lengths {
            book: places,
            rows: held,
            givens: held,
        }
    }
}
