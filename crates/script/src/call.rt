use thiserror::Error;

/// What a line asks for.
#[derive(Clone, Copy, PartialEq, Eq, Debug)]
pub enum Call {
    MakeMap(u8, u8),
    ChangeMap(Change),
    DrawMap,
    ChoosePlan(PlanKind),
    AddDetour,
    ChangeVias(ViaChange),
    CheckPlan,
    OpenFloor,
    UseFloor(FloorUse),
}

/// A change of the map that is there.
#[derive(Clone, Copy, PartialEq, Eq, Debug)]
pub enum Change {
    MarkStop(u8),
    UnmarkStop(u8),
    Close(Part),
    Reopen(Part),
}

/// A part of the map, as `table 5` and `segment 21` name them.
#[derive(Clone, Copy, PartialEq, Eq, Debug)]
pub enum Part {
    Table(u8),
    Segment(u16),
}

/// The plans that can be named.
#[derive(Clone, Copy, PartialEq, Eq, Debug)]
pub enum PlanKind {
    RowFirst,
    Tree,
}

/// A change of the detour that is there: origin, destination and, where one is added, the via.
#[derive(Clone, Copy, PartialEq, Eq, Debug)]
pub enum ViaChange {
    AddVia(u8, u8, u8),
    RemoveVia(u8, u8),
}

/// A call of the floor that is open.
#[derive(Clone, Copy, PartialEq, Eq, Debug)]
pub enum FloorUse {
    /// From an origin to a destination.
    EnterTray(u8, u8),
    AdvanceTray(u16),
    CountLeft(u16),
    LookAt(u16),
    TellCounts,
}

/// Why a line is no call.
#[derive(Clone, Copy, PartialEq, Eq, Debug, Error)]
pub enum Fault {
    #[error("no such call")]
    NoSuchCall,
    #[error("wrong number of words")]
    WrongWords,
    #[error("not a number")]
    NoNumber,
    #[error("number out of range")]
    TooLarge,
}
