// A leg: the tape lengths that were read between two stations.
ghost use Rattle.entry.specs.Legs.{empty_leg, leg_accepted, leg_joined, leg_checked};

use crate::kind::Kind;

#[derive(Clone, Copy, Debug, Default, PartialEq, Eq)]
pub struct Leg {
    pub readings: u32,
    pub total: u32,
    pub least: u32,
    pub greatest: u32,
}

// A tape length in millimetres, at least and at most.
const SHORTEST: u32 = 1;

const LONGEST: u32 = 100_000;

// A leg has been checked once it was read this often.
const CHECKED: u32 = 2;

pub struct LegKind;

impl Kind for LegKind {
    type Held = Leg;

    type Given = u32;

    ghost empty = { empty_leg };

    ghost accepted = { leg_accepted };

    ghost joined = { leg_joined };

    ghost checked = { leg_checked };

    fn empty_entry() -> Leg {
        Leg::default()
    }

    fn accepts(given: u32) -> bool {
        (SHORTEST..=LONGEST).contains(&given)
    }

    fn join(entry: Leg, given: u32) -> Leg {
        if !Self::accepts(given) {
            return entry;
        }
        let (least, greatest) = if entry.readings == 0 {
            (given, given)
        } else {
            (entry.least.min(given), entry.greatest.max(given))
        };
        Leg {
            readings: entry.readings.saturating_add(1),
            total: entry.total.saturating_add(given),
            least,
            greatest,
        }
    }

    fn is_checked(entry: Leg) -> bool {
        CHECKED <= entry.readings
    }
}
