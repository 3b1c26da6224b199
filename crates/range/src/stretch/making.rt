// Making a range, and what it is made of.
ghost use Rattle.std.specs.Prelude.{◌≡◌};
ghost use Rattle.range.specs.Makings.{Makes};

use super::Range;
use refusal::Refusal;

// The most places of a book.
pub const PLACES: usize = 4_096;

// The most places of one range.
pub const COUNT: usize = 32;

impl Range {
    // The `count` places from `first` on, of a book of `places` places.
    pub fn within(places: usize, first: usize, count: usize) -> Result<Range, Refusal>
        ensures { Makes places first count result }
    {
        let is_inside = (1..=PLACES).contains(&places)
            && (1..=COUNT).contains(&count)
            && first.checked_add(count).is_some_and(|end| end <= places);
        if is_inside {
            Ok(Range {
                first,
                count,
                places,
            })
        } else {
            Err(Refusal::OutsideLimits)
        }
    }

    pub fn first(&self) -> usize
        ensures { result ≡ self.now.first }
    {
        self.first
    }

    pub fn count(&self) -> usize
        ensures { result ≡ self.now.count }
    {
        self.count
    }

    pub fn places(&self) -> usize
        ensures { result ≡ self.now.places }
    {
        self.places
    }
}
