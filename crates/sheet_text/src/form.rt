// What a line can ask for.
#[derive(Clone, Copy, Debug, PartialEq, Eq)]
pub enum LockName {
    Queue,
    Ticket,
    Plain,
}

#[derive(Clone, Copy, Debug, PartialEq, Eq)]
pub enum KindName {
    Leg,
    Station,
}

#[derive(Clone, Copy, Debug, PartialEq, Eq)]
pub enum Form {
    Open {
        lock: LockName,
        slots: u32,
        places: u32,
        kind: KindName,
    },
}
