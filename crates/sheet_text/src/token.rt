// A part of a line, with the bytes that it borrows from the sheet and the offset in the line where it begins.
#[derive(Clone, Copy)]
pub enum Token<'a> {
    Open(usize),
    Close(usize),
    Word(&'a [u8], usize),
    Number(u32, &'a [u8], usize),
    // The byte that ends the line.
    End(usize),
}

// The parts that are of one byte, whichever line they stand in.
#[derive(Clone, Copy)]
pub enum Mark {
    Open,
    Close,
    End,
}
