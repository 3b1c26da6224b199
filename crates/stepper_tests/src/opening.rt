// Making, presetting and opening at their limits.
use crate::bench::{leg, lend, number, shows};
use entry::{Leg, LegKind};
use plain_lock::PlainLock;
use refusal::Refusal;
use std::alloc::{AllocError, Global};
use std::test::Fail;
use stepper::{BareBook, OpenBook};

// The refusal's number of making a book and then opening it with such lists, or 0.
fn refused(
    heap: Global,
    slots: usize,
    places: usize,
    book: usize,
    rows: usize,
    givens: usize,
) -> Result<u32, AllocError> {
    let mut made = lend(heap, places, 0, 0)?;
    let lent = lend(heap, book, rows, givens)?;
    let opened: Result<OpenBook<PlainLock>, Refusal> = BareBook::new::<LegKind>(
        &mut made.book,
    ).and_then(|bare| lent.open(bare, slots));
    Ok(number(opened))
}

#[test]
fn opens_within_the_limits(rt: HostRuntime) -> Result<(), Fail> {
    let cases = [
        (0, 4, 4, 0, 0, 1),
        (1, 4, 4, 32, 32, 0),
        (32, 4, 4, 1_024, 1_024, 0),
        (33, 4, 4, 1_056, 1_056, 1),
        (2, 4, 4, 64, 64, 0),
        (2, 4, 3, 64, 64, 2),
        (2, 4, 5, 64, 64, 2),
        (2, 4, 4, 63, 64, 2),
        (2, 4, 4, 65, 64, 2),
        (2, 4, 4, 64, 63, 2),
        (2, 4, 4, 64, 65, 2),
        (0, 4, 3, 64, 64, 1),
        (2, 0, 0, 64, 64, 2),
        (2, 1, 1, 64, 64, 0),
        (2, 4_096, 4_096, 64, 64, 0),
        (2, 4_097, 4_097, 64, 64, 2),
    ];
    for (slots, places, book, rows, givens, refusal) in cases {
        assert_eq!(rt;
            refused(rt.alloc(), slots, places, book, rows, givens)?,
            refusal
        );
    }
    Ok(())
}

#[test]
fn presets_any_entry(rt: HostRuntime) -> Result<(), Fail> {
    let mut made = lend(rt.alloc(), 3, 0, 0)?;
    let mut longer = lend(rt.alloc(), 4, 0, 0)?;
    let bare = BareBook::new::<LegKind>(&mut made.book)?;
    let empty = leg(0, 0);
    let odd = Leg {
        readings: 0,
        total: 1,
        least: 2,
        greatest: 3,
    };
    shows(&rt, &made.book, 0, [empty; 3]);
    let inside = number(bare.preset::<LegKind>(&mut made.book, 2, odd));
    let past = number(bare.preset::<LegKind>(&mut made.book, 3, empty));
    let far = number(bare.preset::<LegKind>(&mut made.book, 18_446_744_073_709_551_615, empty));
    let elsewhere = number(bare.preset::<LegKind>(&mut longer.book, 4, empty));
    assert_eq!(rt; (inside, past, far, elsewhere), (0, 5, 5, 2));
    shows(&rt, &made.book, 0, [empty, empty, odd]);
    shows(&rt, &longer.book, 0, [leg(7, 7); 4]);
    Ok(())
}
