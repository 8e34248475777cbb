// The types of components, one for each kind.

/// A place.
#[derive(Clone, Copy, PartialEq, Eq)]
pub struct Position {
    pub x: i64,
    pub y: i64,
}

/// A step.
#[derive(Clone, Copy, PartialEq, Eq)]
pub struct Velocity {
    pub x: i64,
    pub y: i64,
}

/// How much an entity can still take.
#[derive(Clone, Copy, PartialEq, Eq)]
pub struct Health {
    pub v: i64,
}

/// How much an entity takes from others.
#[derive(Clone, Copy, PartialEq, Eq)]
pub struct Damage {
    pub v: i64,
}

/// The number of the side on which an entity is.
#[derive(Clone, Copy, PartialEq, Eq)]
pub struct Team {
    pub v: i64,
}

/// A count of time.
#[derive(Clone, Copy, PartialEq, Eq)]
pub struct Timer {
    pub v: i64,
}

/// A count of points.
#[derive(Clone, Copy, PartialEq, Eq)]
pub struct Score {
    pub v: i64,
}

/// How much an entity can spend.
#[derive(Clone, Copy, PartialEq, Eq)]
pub struct Energy {
    pub v: i64,
}

/// How much is stored up.
#[derive(Clone, Copy, PartialEq, Eq)]
pub struct Charge {
    pub v: i64,
}

/// The number of what an entity is after.
#[derive(Clone, Copy, PartialEq, Eq)]
pub struct Target {
    pub v: i64,
}

/// A mark: the entity is frozen.
#[derive(Clone, Copy, PartialEq, Eq)]
pub struct Frozen;

/// A mark: the entity is hidden.
#[derive(Clone, Copy, PartialEq, Eq)]
pub struct Hidden;

/// A place to return to.
#[derive(Clone, Copy, PartialEq, Eq)]
pub struct Home {
    pub x: i64,
    pub y: i64,
}

/// How heavy an entity is.
#[derive(Clone, Copy, PartialEq, Eq)]
pub struct Mass {
    pub v: i64,
}

/// How much of what would hurt an entity is kept off.
#[derive(Clone, Copy, PartialEq, Eq)]
pub struct Armor {
    pub v: i64,
}

/// How far an entity reaches.
#[derive(Clone, Copy, PartialEq, Eq)]
pub struct Range {
    pub v: i64,
}

/// The number of a step that was reached.
#[derive(Clone, Copy, PartialEq, Eq)]
pub struct Level {
    pub v: i64,
}

/// The number of a place among others.
#[derive(Clone, Copy, PartialEq, Eq)]
pub struct Rank {
    pub v: i64,
}

/// A mark: the entity sleeps.
#[derive(Clone, Copy, PartialEq, Eq)]
pub struct Sleeping;

/// A mark that a program gives the meaning of.
#[derive(Clone, Copy, PartialEq, Eq)]
pub struct Marked;
