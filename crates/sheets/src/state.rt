// A sheet's run so far.
ghost use Rattle.std.specs.Prelude.{◌≡◌};
ghost use Rattle.sheets.specs.Lines.{fresh};

#[derive(Clone, Copy)]
pub struct Sheet {
    // How many lines have been answered.
    lines: u32,
    // Whether a line has opened the book.
    opened: bool,
}

pub mod line;

impl Sheet {
    pub fn new() -> Sheet
        ensures { result ≡ fresh }
    {
        Sheet {
            lines: 0,
            opened: false,
        }
    }
}
