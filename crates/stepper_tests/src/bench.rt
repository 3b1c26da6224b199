// Books of legs with their lists.
use entry::{Leg, LegKind};
use lock::{Lock, Phase};
use refusal::Refusal;
use std::alloc::{AllocError, Global};
use std::process::Abort;
use std::test::Fail;
use stepper::{BareBook, Claim, OpenBook};

// What a caller lends.
#[derive(Drop)]
pub struct Lists {
    pub book: Vec<Leg>,
    pub rows: Vec<Leg>,
    pub givens: Vec<u32>,
}

// A leg of so many readings, with this length for all else.
pub fn leg(readings: u32, length: u32) -> Leg {
    Leg {
        readings,
        total: length,
        least: length,
        greatest: length,
    }
}

// Entries that no job made, so that a place which is not emptied shows.
pub fn lend(heap: Global, book: usize, rows: usize, givens: usize) -> Result<Lists, AllocError> {
    Ok(Lists {
        book: vec![in heap; leg(7, 7); book]?,
        rows: vec![in heap; leg(8, 8); rows]?,
        givens: vec![in heap; 9; givens]?,
    })
}

impl Lists {
    // The bare book is gone, also where it is not opened.
    pub fn open<L: Lock>(&self, bare: BareBook, slots: usize) -> Result<OpenBook<L>, Refusal> {
        bare.open::<L, LegKind>(slots, &self.book, &self.rows, &self.givens)
            .map_err(|(_, refusal)| refusal)
    }

    // The claim is given up at once.
    pub fn read<L: Lock>(
        &self,
        legs: &mut OpenBook<L>,
        slot: usize,
        first: usize,
        count: usize,
    ) -> Result<(usize, u32), Refusal> {
        legs.read::<LegKind>(&self.book, &self.rows, &self.givens, slot, first, count)
            .map(Claim::give_up)
    }

    // The claim is given up at once.
    pub fn write<L: Lock>(
        &mut self,
        legs: &mut OpenBook<L>,
        slot: usize,
        first: usize,
        handed: &[u32],
    ) -> Result<(usize, u32), Refusal> {
        legs.write::<LegKind>(
            &self.book,
            &self.rows,
            &mut self.givens,
            slot,
            first,
            handed,
        )
        .map(Claim::give_up)
    }

    pub fn step<L: Lock>(
        &mut self,
        legs: &mut OpenBook<L>,
        slot: usize,
    ) -> Result<(Phase, L::Label), Refusal> {
        legs.step::<LegKind>(&mut self.book, &mut self.rows, &self.givens, slot)
    }
}

// The number of the refusal, or 0.
pub fn number<T: Drop>(asked: Result<T, Refusal>) -> u32 {
    asked.err().map_or(0, Refusal::number)
}

// The list has these entries from `first` on.
pub fn shows<const N: usize>(rt: &impl Abort, list: &[Leg], first: usize, entries: [Leg; N]) {
    for (entry, shown) in entries.iter().zip(list.iter().skip(first)) {
        assert_eq!(rt; *shown, *entry);
    }
    assert!(rt; list.len() >= first && list.len() - first >= N);
}

// A fresh book over its lists.
pub fn opened<L: Lock>(slots: usize, lists: &mut Lists) -> Result<OpenBook<L>, Fail> {
    let bare = BareBook::new::<LegKind>(&mut lists.book)?;
    Ok(lists.open(bare, slots)?)
}
