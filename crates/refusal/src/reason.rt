// One case for each reason that a call can have to refuse, with the number that a caller is shown for it.
#[derive(Clone, Copy, Debug, PartialEq, Eq)]
pub enum Refusal {
    SlotCount = 1,
    ListLength = 2,
    NoSuchSlot = 3,
    SlotBusy = 4,
    OutsideLimits = 5,
    GivenNotAccepted = 6,
    SlotBarred = 7,
    JobsExhausted = 8,
    NotTheSlotsJob = 9,
    JobNotEnded = 10,
    LineNotWellFormed = 11,
    OpenMisplaced = 12,
    SheetSize = 13,
    OutputShort = 14,
}
