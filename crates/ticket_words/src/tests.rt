// A slot alone, and how a half is counted.
use crate::counting::{count_writer, lower_half};
use crate::{Label, Words};
use lock::Class;
use slots::Slot;
use std::test::Fail;

// The labels of a lone job, from its call to its end.
fn lone(class: Class) -> Result<[Label; 5], Fail> {
    let slot = Slot::new(0).ok_or("no slot 0")?;
    let mut words = Words::fresh();
    words.call(slot, class);
    let called = words.standing(slot).label();
    words.step(slot);
    let first = words.standing(slot).label();
    words.step(slot);
    let second = words.standing(slot).label();
    words.finish(slot);
    let finished = words.standing(slot).label();
    words.step(slot);
    Ok([
        called,
        first,
        second,
        finished,
        words.standing(slot).label(),
    ])
}

#[test]
fn a_lone_read(rt: HostRuntime) -> Result<(), Fail> {
    assert_eq!(rt;
        lone(Class::Reading)?,
        [Label::T1, Label::T2, Label::H, Label::T3, Label::I]
    );
    Ok(())
}

#[test]
fn a_lone_write(rt: HostRuntime) -> Result<(), Fail> {
    assert_eq!(rt;
        lone(Class::Writing)?,
        [Label::T4, Label::T5, Label::H, Label::T6, Label::I]
    );
    Ok(())
}

#[test]
fn a_half_comes_round(rt: HostRuntime) {
    let mut word = 0;
    for _ in 0..32768 {
        word = count_writer(word);
    }
    assert_eq!(rt; lower_half(word), 0x8000);
    assert_eq!(rt; lower_half(count_writer(word)), 0x0001);
}
