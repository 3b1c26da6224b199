// The words beside the line. The invariant ties them together.
ghost use Rattle.std.specs.Prelude.{◌≡◌, ⊤};
ghost use Rattle.line_table.specs.Lines.{in_line};

use crate::words::Procedures;
use line_table::Line;
use std::alloc::AllocError;
use std::marker::PhantomData;

pub mod ordered;
pub mod steps;

#[derive(Copy)]
pub struct LinedLock<P: Procedures<W>, W: Copy> {
    words: W,
    line: Line,
    of: PhantomData<P>,
    ghost keeps: { P.keeps words (in_line line) } by { P.keeps_once words (in_line line) },
}

// By hand, since `Clone` cannot be derived beside a ghost field of a bound.
impl<P: Procedures<W> + Copy, W: Copy> Clone for LinedLock<P, W> {
    ghost is_clone = { λ v w. w ≡ v };

    ghost is_infallible = { λ v. ⊤ };

    fn clone(&self) -> Result<LinedLock<P, W>, AllocError> {
        Ok(*self)
    }
}

impl<P: Procedures<W>, W: Copy> LinedLock<P, W> {
    pub fn words(&self) -> W
        ensures { result ≡ self.now.words }
    {
        self.words
    }
}
