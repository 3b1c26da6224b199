// The driver of a bench: the slots take turns.
ghost use Rattle.std.specs.Prelude.{◌≡◌, ◌+◌, ◌*◌, ◌≤◌};
ghost use Rattle.lock_runs.specs.Acts.{Acted};
ghost use Rattle.lock_runs.specs.Drive.{Driven, class_in, next_act};

use lock::{Class, Lock, Phase};
use slots::{Slot, Slots};

// Operation k is of slot k mod slots. An idle slot calls, for writing in every fourth round.
pub fn drive<L: Lock>(lock: &mut L, slots: Slots, steps: u64)
    ensures { Driven L.Lock slots.count lock.old steps lock.new }
{
    let count = slots.count() as u64;
    let rounds = steps / count;
    for round in 0..rounds {
        take_turns(lock, slots, slots.count(), round);
    }
    take_turns(lock, slots, (steps % count) as usize, rounds);
}

// The first n slots take their turns of a round; as many operations as the rounds before have were done.
fn take_turns<L: Lock>(lock: &mut L, slots: Slots, n: usize, round: u64)
    requires { n ≤ slots.count }
    ensures { (s : L) → Driven L.Lock slots.count s (round * slots.count) lock.old → Driven L.Lock slots.count s (round * slots.count + n) lock.new }
{
    let class = class_in(round);
    for index in 0..n {
        let Some(slot) = slots.get(index) else {
            unreachable!()
        };
        turn(lock, slot, class);
    }
}

fn class_in(round: u64) -> Class
    ensures { result ≡ class_in round }
{
    if round % 4 == 0 {
        Class::Writing
    } else {
        Class::Reading
    }
}

fn turn<L: Lock>(lock: &mut L, slot: Slot, class: Class)
    ensures { Acted L.Lock lock.old slot.index (next_act (L.Lock.phases lock.old slot.index) class) lock.new }
{
    match lock.phase(slot) {
        Phase::Idle => {
            let _ = lock.call(slot, class);
        }
        Phase::Holds => {
            lock.finish(slot);
        }
        Phase::Called | Phase::Waits | Phase::Leaves => {
            lock.step(slot);
        }
    }
}
