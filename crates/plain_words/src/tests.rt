// The plain lock on examples: alone, and two slots of which one waits.
use crate::{Label, Words};
use lock::Class;
use slots::Slot;
use std::test::Fail;

fn slot(index: usize) -> Result<Slot, Fail> {
    Ok(Slot::new(index).ok_or("no such slot")?)
}

fn called(slot: Slot, class: Class) -> Words {
    let mut words = Words::fresh();
    words.call(slot, class);
    words
}

// The label where the slot stands after a step.
fn stepped(words: &mut Words, slot: Slot) -> Label {
    words.step(slot);
    words.at(slot).label()
}

// The label where the slot stands after a finish.
fn finished(words: &mut Words, slot: Slot) -> Label {
    words.finish(slot);
    words.at(slot).label()
}

#[test]
fn lone_read(rt: HostRuntime) -> Result<(), Fail> {
    let one = slot(0)?;
    let mut words = called(one, Class::Reading);
    assert_eq!(rt; words.at(one).label(), Label::P1);
    assert_eq!(rt; stepped(&mut words, one), Label::P2);
    assert_eq!(rt; stepped(&mut words, one), Label::H);
    assert_eq!(rt; finished(&mut words, one), Label::P3);
    assert_eq!(rt; stepped(&mut words, one), Label::I);
    Ok(())
}

#[test]
fn lone_write(rt: HostRuntime) -> Result<(), Fail> {
    let one = slot(0)?;
    let mut words = called(one, Class::Writing);
    assert_eq!(rt; words.at(one).label(), Label::P4);
    assert_eq!(rt; stepped(&mut words, one), Label::H);
    assert_eq!(rt; finished(&mut words, one), Label::P5);
    assert_eq!(rt; stepped(&mut words, one), Label::I);
    Ok(())
}

#[test]
fn reader_waits_for_writer(rt: HostRuntime) -> Result<(), Fail> {
    let (one, other) = (slot(0)?, slot(1)?);
    let mut words = called(one, Class::Writing);
    assert_eq!(rt; stepped(&mut words, one), Label::H);
    words.call(other, Class::Reading);
    assert_eq!(rt; stepped(&mut words, other), Label::P2);
    assert_eq!(rt; stepped(&mut words, other), Label::P2);
    words.finish(one);
    assert_eq!(rt; stepped(&mut words, one), Label::I);
    assert_eq!(rt; stepped(&mut words, other), Label::H);
    Ok(())
}

#[test]
fn writer_waits_for_reader(rt: HostRuntime) -> Result<(), Fail> {
    let (one, other) = (slot(0)?, slot(1)?);
    let mut words = called(one, Class::Reading);
    assert_eq!(rt; stepped(&mut words, one), Label::P2);
    assert_eq!(rt; stepped(&mut words, one), Label::H);
    words.call(other, Class::Writing);
    assert_eq!(rt; stepped(&mut words, other), Label::P4);
    assert_eq!(rt; stepped(&mut words, other), Label::P4);
    words.finish(one);
    assert_eq!(rt; stepped(&mut words, one), Label::I);
    assert_eq!(rt; stepped(&mut words, other), Label::H);
    Ok(())
}
