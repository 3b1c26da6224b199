// A station: which expeditions have been at it, and which of them was first.
ghost use Rattle.entry.specs.Stations.{empty_station, station_accepted, station_joined, station_checked};

use crate::kind::Kind;

#[derive(Clone, Copy, Debug, PartialEq, Eq)]
pub struct Station {
    pub first: u8,
    pub set: u32,
}

// Expeditions are numbered below this.
const EXPEDITIONS: u8 = 32;

// `first` of a station that no expedition has been at. It is a number and no Option, since a station is defined as
// just these 8 and 32 bits.
const NOBODY: u8 = 255;

// A station has been checked once this many expeditions were at it.
const CHECKED: u32 = 2;

pub struct StationKind;

impl Kind for StationKind {
    type Held = Station;

    type Given = u8;

    ghost empty = { empty_station };

    ghost accepted = { station_accepted };

    ghost joined = { station_joined };

    ghost checked = { station_checked };

    fn empty_entry() -> Station {
        Station {
            first: NOBODY,
            set: 0,
        }
    }

    fn accepts(given: u8) -> bool {
        given < EXPEDITIONS
    }

    fn join(entry: Station, given: u8) -> Station {
        if !Self::accepts(given) {
            return entry;
        }
        let first = if entry.first == NOBODY {
            given
        } else {
            entry.first
        };
        Station {
            first,
            set: entry.set | (1 << given),
        }
    }

    fn is_checked(entry: Station) -> bool {
        CHECKED <= entry.set.count_ones()
    }
}
