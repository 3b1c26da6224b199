// Runs a script or a bench from standard input on a lock, and prints the answers and the words.
#![tactic(auto)]

use anyhow::anyhow;
use lock::Lock;
use lock_runs::drive::drive;
use lock_runs::line::Line;
use lock_runs::script::read_line;
use lock_runs::shown::Shown;
use lock_runs::trace::trace;
use plain_lock::PlainLock;
use slots::Slots;
use std::alloc::Global;
use std::io;
use std::io::Write;
use std::time::{Clock, Instant};
use ticket_lock::TicketLock;

fn main(rt: HostRuntime) -> anyhow::Result<()> {
    answer(&rt)
}

fn answer(rt: &HostRuntime) -> anyhow::Result<()> {
    let text = io::read_to_string(rt.alloc(), rt.stdin())?;
    let printed = run(rt, rt.alloc(), text.as_str())?;
    rt.stdout().write_all(printed.as_str().as_bytes())?;
    Ok(())
}

// A script after the name of a lock, or a bench. Both match on a lock's name: a closure can't be generic in the lock that it
// is called with.
fn run<R: Clock>(clock: &R, heap: Global, text: &str) -> anyhow::Result<String> {
    let (first, script) = text.split_once('\n').unwrap_or((text, ""));
    match first {
        "plain" => Ok(trace::<PlainLock>(heap, read_script(heap, script)?.as_slice())?),
        "ticket" => Ok(trace::<TicketLock>(heap, read_script(heap, script)?.as_slice())?),
        _ if script.is_empty() => bench(clock, heap, first),
        _ => Err(anyhow!("no lock in line 1")),
    }
}

fn read_script(heap: Global, script: &str) -> anyhow::Result<Vec<Line>> {
    let mut lines = Vec::new(heap);
    for text in script.lines() {
        let Some(line) = read_line(text.as_bytes()) else {
            return Err(anyhow!("no operation: {text}"));
        };
        lines.push(line)?;
    }
    Ok(lines)
}

fn bench<R: Clock>(clock: &R, heap: Global, first: &str) -> anyhow::Result<String> {
    let mut words = first.split(' ');
    let (Some("bench"), Some(name), Some(slots), Some(steps), None) = (
        words.next(),
        words.next(),
        words.next(),
        words.next(),
        words.next(),
    ) else {
        return Err(anyhow!("no bench in line 1"));
    };
    let count = slots.parse::<usize>()?;
    let steps = steps.parse::<u64>()?;
    let slots = Slots::new(count).ok_or_else(|| anyhow!("slots are 1 to 32"))?;
    let (nanos, sum) = match name {
        "plain" => measure::<R, PlainLock>(clock, slots, steps)?,
        "ticket" => measure::<R, TicketLock>(clock, slots, steps)?,
        _ => return Err(anyhow!("no such lock")),
    };
    Ok(format!(in heap; "{name} {count} {steps} {nanos}\nchecksum {sum}\n")?)
}

// How long the driver takes, in nanoseconds, and the checksum of the words at the end.
fn measure<R: Clock, L: Shown + Drop>(
    clock: &R,
    slots: Slots,
    steps: u64,
) -> anyhow::Result<(u128, u32)> {
    let mut lock = L::fresh(slots);
    let start = Instant::now(clock)?;
    drive(&mut lock, slots, steps);
    let time = start.elapsed(clock)?;
    Ok((time.as_nanos(), lock.checksum()))
}
