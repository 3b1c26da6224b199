// Runs the sheet on standard input, and prints its answers to standard output.
#![tactic(auto)]

use sheets::{LONGEST, run_sheet};
use std::io::{Read, Write};

// One byte more than a sheet may have, so that a longer one is seen to be too long.
const ENOUGH: u64 = LONGEST as u64 + 1;

fn run(rt: &HostRuntime) -> anyhow::Result<()> {
    let mut sheet = Vec::new(rt.alloc());
    let mut input = rt.stdin().take(ENOUGH);
    input.read_to_end(&mut sheet)?;
    let printed = run_sheet(rt.alloc(), sheet.as_slice())?;
    let mut output = rt.stdout();
    output.write_all(printed.as_slice())?;
    Ok(())
}

fn main(rt: HostRuntime) -> anyhow::Result<()> {
    run(&rt)
}
