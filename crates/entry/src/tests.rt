// Joins worked by hand.
use crate::kind::Kind;
use crate::{Leg, LegKind, Station, StationKind};

const MOST: u32 = 4_294_967_295;

fn leg(readings: u32, total: u32, least: u32, greatest: u32) -> Leg {
    Leg {
        readings,
        total,
        least,
        greatest,
    }
}

#[test]
fn legs_accept_lengths_of_a_tape(rt: HostRuntime) {
    for (given, accepted) in [(0, false), (1, true), (100_000, true), (100_001, false)] {
        assert_eq!(rt; LegKind::accepts(given), accepted);
    }
}

#[test]
fn legs_join(rt: HostRuntime) {
    let preset = leg(0, 7, 1, 900_000);
    let full = leg(MOST, MOST - 295, 5, 50);
    let cases = [
        (LegKind::empty_entry(), 1, leg(1, 1, 1, 1)),
        (
            LegKind::empty_entry(),
            100_000,
            leg(1, 100_000, 100_000, 100_000),
        ),
        (preset, 3_120, leg(1, 3_127, 3_120, 3_120)),
        (full, 295, leg(MOST, MOST, 5, 295)),
        (full, 296, leg(MOST, MOST, 5, 296)),
        (full, 3, leg(MOST, MOST - 292, 3, 50)),
        (full, 0, full),
        (full, 100_001, full),
    ];
    for (entry, given, joined) in cases {
        assert_eq!(rt; LegKind::join(entry, given), joined);
    }
}

#[test]
fn legs_are_checked_by_a_second_reading(rt: HostRuntime) {
    let once = LegKind::join(LegKind::empty_entry(), 3_120);
    assert!(rt; !LegKind::is_checked(once));
    assert!(rt; LegKind::is_checked(LegKind::join(once, 3_120)));
}

#[test]
fn stations_join(rt: HostRuntime) {
    let station = [3, 3, 0]
        .into_iter()
        .fold(StationKind::empty_entry(), StationKind::join);
    assert_eq!(rt; station, Station { first: 3, set: 9 });
    assert_eq!(rt; StationKind::join(station, 32), station);
    assert_eq!(rt;
        StationKind::join(station, 31),
        Station {
            first: 3,
            set: 0x8000_0009,
        }
    );
}

#[test]
fn stations_are_checked_by_a_second_expedition(rt: HostRuntime) {
    let once = StationKind::join(StationKind::empty_entry(), 3);
    assert!(rt; !StationKind::is_checked(StationKind::join(once, 3)));
    assert!(rt; StationKind::is_checked(StationKind::join(once, 0)));
}
