// Reads and writes at their limits.
use crate::bench::{lend, number, opened};
use entry::LegKind;
use plain_lock::PlainLock;
use std::test::Fail;

#[test]
fn reads_within_the_limits(rt: HostRuntime) -> Result<(), Fail> {
    let cases = [
        (0, 8, 32, 0),
        (0, 9, 32, 5),
        (0, 7, 33, 5),
        (0, 39, 1, 0),
        (0, 40, 1, 5),
        (0, 8, 0, 5),
        (1, 4_294_967_295, 1, 5),
        (1, 18_446_744_073_709_551_615, 1, 5),
        (1, 18_446_744_073_709_551_609, 8, 5),
        (2, 0, 1, 3),
        (2, 40, 1, 3),
    ];
    let mut lent = lend(rt.alloc(), 40, 64, 64)?;
    for (slot, first, count, refusal) in cases {
        let mut legs = opened::<PlainLock>(2, &mut lent)?;
        assert_eq!(rt; number(lent.read(&mut legs, slot, first, count)), refusal);
    }
    Ok(())
}

#[test]
fn a_slot_takes_one_job_at_a_time(rt: HostRuntime) -> Result<(), Fail> {
    let mut lent = lend(rt.alloc(), 40, 64, 64)?;
    let mut legs = opened::<PlainLock>(2, &mut lent)?;
    assert_eq!(rt; number(lent.read(&mut legs, 0, 0, 1)), 0);
    assert_eq!(rt; number(lent.read(&mut legs, 0, 40, 1)), 4);
    let claim = legs.read::<LegKind>(&lent.book, &lent.rows, &lent.givens, 1, 0, 1)?;
    let asked = (claim.slot(), claim.number());
    assert_eq!(rt; claim.give_up(), asked);
    assert_eq!(rt; asked, (1, 2));
    Ok(())
}

#[test]
fn lists_are_as_when_opened(rt: HostRuntime) -> Result<(), Fail> {
    let cases = [
        (40, 64, 64, 0),
        (39, 64, 64, 2),
        (41, 64, 64, 2),
        (40, 63, 64, 2),
        (40, 65, 64, 2),
        (40, 64, 63, 2),
        (40, 64, 65, 2),
    ];
    let mut lent = lend(rt.alloc(), 40, 64, 64)?;
    for (book, rows, givens, refusal) in cases {
        let mut legs = opened::<PlainLock>(2, &mut lent)?;
        let mut other = lend(rt.alloc(), book, rows, givens)?;
        assert_eq!(rt; number(other.read(&mut legs, 0, 0, 1)), refusal);
        assert_eq!(rt; number(other.write(&mut legs, 1, 0, &[5])), refusal);
    }
    Ok(())
}

#[test]
fn a_refused_write_changes_nothing(rt: HostRuntime) -> Result<(), Fail> {
    let mut lent = lend(rt.alloc(), 40, 64, 64)?;
    let mut legs = opened::<PlainLock>(2, &mut lent)?;
    let third = number(lent.write(&mut legs, 1, 0, &[5, 6, 0]));
    let outside = number(lent.write(&mut legs, 1, 38, &[5, 6, 0]));
    let none = number(lent.write(&mut legs, 1, 0, &[]));
    let many = number(lent.write(&mut legs, 1, 0, &[5; 33]));
    assert_eq!(rt; (third, outside, none, many), (6, 5, 5, 5));
    assert!(rt; lent.givens.iter().all(|given| *given == 9));
    assert_eq!(rt; lent.write(&mut legs, 1, 37, &[5, 6, 4])?, (1, 1));
    assert!(rt; lent.givens.len() == 64);
    let part = (
        lent.givens[31],
        lent.givens[32],
        lent.givens[34],
        lent.givens[35],
    );
    assert_eq!(rt; part, (9, 5, 4, 9));
    Ok(())
}
