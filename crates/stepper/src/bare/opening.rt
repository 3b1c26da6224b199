// Making, presetting and opening.
ghost use Rattle.std.specs.Prelude.{◌≡◌, Some, None, MatchResult};
ghost use Rattle.stepper.specs.Bare.{DidMake, DidPreset, DidOpen, opening_refusal};

use super::{BareBook, Ready};
use crate::lists::Lengths;
use crate::open::OpenBook;
use entry::Kind;
use lock::Lock;
use range::PLACES;
use refusal::Refusal;
use slots::Slots;

impl BareBook {
    // Every place of the book is emptied.
    pub fn new<K: Kind>(book: &mut [K::Held]) -> Result<BareBook, Refusal>
        ensures { DidMake K.Kind book.old result book.new }
    {
        let places = book.len();
        if !(1..=PLACES).contains(&places) {
            return Err(Refusal::ListLength);
        }
        book.fill_with(|| K::empty_entry());
        Ok(BareBook { places })
    }

    // Any entry of the kind may be stored.
    pub fn preset<K: Kind>(
        &self,
        book: &mut [K::Held],
        place: usize,
        entry: K::Held,
    ) -> Result<(), Refusal>
        ensures { DidPreset self.now book.old place entry result book.new }
    {
        if book.len() != self.places {
            return Err(Refusal::ListLength);
        }
        // Tested and then indexed: `get_mut` of a slice tells a proof nothing of the elements.
        if place >= self.places {
            return Err(Refusal::OutsideLimits);
        }
        book[place] = entry;
        Ok(())
    }

    // The lock is fresh, and no job is accepted yet. Rows and givens are 32 entries for each slot.
    pub fn open<L: Lock, K: Kind>(
        self,
        slots: usize,
        book: &[K::Held],
        rows: &[K::Held],
        givens: &[K::Given],
    ) -> Result<OpenBook<L>, (BareBook, Refusal)>
        ensures { DidOpen L.Lock self slots book.now rows.now givens.now result }
    {
        let ready = self.check(slots, Lengths::of(book, rows, givens))?;
        Ok(OpenBook::start(ready))
    }

    // May refuse, and then hands the bare book back.
    fn check(self, slots: usize, lent: Lengths) -> Result<Ready, (BareBook, Refusal)>
        ensures { MatchResult result (λ x. (opening_refusal self slots lent ≡ None) × (x.slots.count ≡ slots) × (x.bare ≡ self)) (λ e. (opening_refusal self slots lent ≡ Some e.1) × (e.0 ≡ self)) }
    {
        let Some(slots) = Slots::new(slots) else {
            return Err((self, Refusal::SlotCount));
        };
        if !lent.fit(self.places, slots) {
            return Err((self, Refusal::ListLength));
        }
        Ok(Ready { slots, bare: self })
    }
}
