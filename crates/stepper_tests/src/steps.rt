// Jobs step by step.
use crate::bench::{Lists, leg, lend, number, opened, shows};
use lock::{Lock, Phase};
use plain_lock::PlainLock;
use plain_words::Label;
use std::test::Fail;
use stepper::OpenBook;
use ticket_lock::TicketLock;

// Steps the slot until it is idle, and answers how many steps that took.
fn steps_to_end<L: Lock>(
    legs: &mut OpenBook<L>,
    lent: &mut Lists,
    slot: usize,
) -> Result<u32, Fail> {
    for count in 1..=100 {
        let (phase, _) = lent.step(legs, slot)?;
        if phase == Phase::Idle {
            return Ok(count);
        }
    }
    Err(Fail::new("no end"))
}

#[test]
fn a_write_by_the_plain_lock(rt: HostRuntime) -> Result<(), Fail> {
    let mut lent = lend(rt.alloc(), 4, 64, 64)?;
    let mut legs = opened::<PlainLock>(2, &mut lent)?;
    assert_eq!(rt; lent.write(&mut legs, 0, 1, &[3_120])?, (0, 1));
    for label in [Label::H, Label::H, Label::P5, Label::I] {
        let (_, at) = lent.step(&mut legs, 0)?;
        assert_eq!(rt; at, label);
    }
    shows(&rt, &lent.book, 0, [leg(0, 0), leg(1, 3_120)]);
    assert_eq!(rt; lent.step(&mut legs, 1)?, (Phase::Idle, Label::I));
    Ok(())
}

// How many steps a lone read takes, from its acceptance on.
fn steps_of_read<L: Lock>(
    legs: &mut OpenBook<L>,
    lent: &mut Lists,
    slot: usize,
    first: usize,
    count: usize,
) -> Result<u32, Fail> {
    lent.read(legs, slot, first, count)?;
    steps_to_end(legs, lent, slot)
}

#[test]
fn lone_jobs_by_the_ticket_lock(rt: HostRuntime) -> Result<(), Fail> {
    let mut lent = lend(rt.alloc(), 4, 64, 64)?;
    let mut legs = opened::<TicketLock>(2, &mut lent)?;
    lent.write(&mut legs, 1, 3, &[5])?;
    assert_eq!(rt; steps_to_end(&mut legs, &mut lent, 1)?, 5);
    assert_eq!(rt; steps_of_read(&mut legs, &mut lent, 0, 3, 1)?, 4);
    shows(&rt, &lent.rows, 0, [leg(1, 5), leg(8, 8)]);
    Ok(())
}

#[test]
fn ranges_and_a_given_that_is_no_longer_accepted(rt: HostRuntime) -> Result<(), Fail> {
    let mut lent = lend(rt.alloc(), 5, 64, 64)?;
    let mut legs = opened::<TicketLock>(2, &mut lent)?;
    lent.write(&mut legs, 0, 1, &[5, 6, 4])?;
    assert!(rt; lent.givens.len() == 64);
    lent.givens[1] = 0;
    assert_eq!(rt; steps_to_end(&mut legs, &mut lent, 0)?, 9);
    assert_eq!(rt; steps_of_read(&mut legs, &mut lent, 1, 0, 5)?, 8);
    let empty = leg(0, 0);
    shows(
        &rt,
        &lent.rows,
        32,
        [empty, leg(1, 5), empty, leg(1, 4), empty],
    );
    Ok(())
}

#[test]
fn a_step_is_refused_as_it_should_be(rt: HostRuntime) -> Result<(), Fail> {
    let cases = [
        (5, 64, 64, 1, 0),
        (5, 64, 64, 2, 3),
        (4, 64, 64, 2, 2),
        (6, 64, 64, 0, 2),
        (5, 63, 64, 0, 2),
        (5, 65, 64, 0, 2),
        (5, 64, 63, 0, 2),
        (5, 64, 65, 0, 2),
    ];
    let mut lent = lend(rt.alloc(), 5, 64, 64)?;
    let mut legs = opened::<PlainLock>(2, &mut lent)?;
    for (book, rows, givens, slot, refusal) in cases {
        let mut other = lend(rt.alloc(), book, rows, givens)?;
        assert_eq!(rt; number(other.step(&mut legs, slot)), refusal);
    }
    Ok(())
}
