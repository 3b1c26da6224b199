// A range of places. Once made it lies inside its book, so whoever has one needs no test of its places.
ghost use Rattle.range.specs.Limits.{Inside};

#[derive(Clone, Copy)]
pub struct Range {
    first: usize,
    count: usize,
    places: usize,
    ghost inside: { Inside places first count },
}

pub mod making;
