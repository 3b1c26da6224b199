// A book before it is opened: it can be preset and opened, and nothing else.
ghost use Rattle.std.specs.Prelude.{◌≤◌};

use slots::Slots;

mod opening;

// It moves and is never copied, so that no place is preset after opening.
#[derive(Drop)]
pub struct BareBook {
    pub(crate) places: usize,
    ghost sized: { (1 ≤ places) × (places ≤ 4096) },
}

// A bare book that passed the check of an opening.
pub(crate) struct Ready {
    pub(crate) slots: Slots,
    pub(crate) bare: BareBook,
}
