// What one line of a sheet is answered.
#[derive(Clone, Copy, Debug, PartialEq, Eq)]
pub enum Answer {
    // A book was opened for so many slots.
    Opened { slots: u32 },
    // The run ends at this line, with the number of a refusal. It is no `Refusal`, since any number can be printed.
    Fault { line: u32, number: u32 },
}
