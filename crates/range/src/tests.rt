// Ranges at their limits.
use crate::stretch::Range;
use refusal::Refusal;
use std::test::Fail;

// The refusal's number, or 0 where the range is made.
fn refused(places: usize, first: usize, count: usize) -> u32 {
    Range::within(places, first, count)
        .err()
        .map_or(0, Refusal::number)
}

#[test]
fn at_the_limits(rt: HostRuntime) {
    let cases = [
        (40, 8, 32, 0),
        (40, 9, 32, 5),
        (40, 8, 33, 5),
        (40, 39, 1, 0),
        (40, 40, 1, 5),
        (40, 8, 0, 5),
        (0, 0, 1, 5),
        (1, 0, 1, 0),
        (4_096, 4_064, 32, 0),
        (4_096, 4_065, 32, 5),
        (4_097, 0, 1, 5),
        (40, 4_294_967_295, 1, 5),
        (40, 4_294_967_290, 8, 5),
        (40, 18_446_744_073_709_551_615, 1, 5),
        (40, 18_446_744_073_709_551_609, 8, 5),
        (18_446_744_073_709_551_615, 0, 1, 5),
    ];
    for (places, first, count, number) in cases {
        assert_eq!(rt; refused(places, first, count), number);
    }
}

#[test]
fn holds_what_it_was_made_of(rt: HostRuntime) -> Result<(), Fail> {
    let range = Range::within(40, 8, 32)?;
    assert_eq!(rt; range.first(), 8);
    assert_eq!(rt; range.count(), 32);
    assert_eq!(rt; range.places(), 40);
    Ok(())
}
