// A lock run by the lines of a script.
ghost use Rattle.std.specs.Prelude.{◌≡◌, ◌++◌, IfOk, string_bytes, OnOk};
ghost use Rattle.lock_runs.specs.Acts.{Acted};
ghost use Rattle.lock_runs.specs.Traces.{Prints, printed};

use crate::act::perform;
use crate::line::Line;
use crate::shown::Shown;
use slots::Slots;
use std::alloc::{AllocError, Global};

// What is printed of a fresh lock's run.
pub fn trace<L: Shown + Drop>(heap: Global, lines: &[Line]) -> Result<String, AllocError>
    ensures { IfOk result (λ out. Prints L.Lock L.Shown.shows lines.now (string_bytes out)) }
{
    let Some(slots) = Slots::new(32) else {
        unreachable!()
    };
    let mut lock = L::fresh(slots);
    let mut out = String::new(heap);
    for line in lines {
        trace_line(heap, &mut lock, *line, &mut out)?;
    }
    Ok(out)
}

fn trace_line<L: Shown>(
    heap: Global,
    lock: &mut L,
    line: Line,
    out: &mut String,
) -> Result<(), AllocError>
    ensures left { Acted L.Lock lock.old line.slot.index line.act lock.new }
    ensures out { OnOk result (string_bytes out.new ≡ string_bytes out.old ++ printed L.Lock L.Shown.shows lock.old line lock.new) }
{
    let answer = perform(lock, line.slot, line.act);
    let shown = lock.show(heap, line.slot)?;
    let text = format!(in heap; "{answer} {shown}\n")?;
    out.push_str(text.as_str())
}
