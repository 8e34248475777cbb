// Where the systems of a schedule stand: a column for each level, in which they have rows in schedule order.
//
// Where a drawing is folded, some systems stand for others: each has a leader, and only leaders have rows.

ghost use Rattle.std.specs.Prelude.{ℕ, ◌≡◌, ◌<◌, get_or, max};
ghost use Rattle.model.specs.steps.Schedule.{level_of as level_in};
ghost use Rattle.schedule_drawing.specs.Places.{column, line, leader_of as leader_in, row_from, row_of as row_in, next_row, most_rows, is_leading as is_leading_in};

use schedule_builder::Built;

// The first column, and how far each is from the next.
const LEFT: u64 = 140;

const COLUMN: u64 = 380;

// The first row, and how far each is from the next.
const TOP: u64 = 76;

const ROW: u64 = 112;

/// Where the column of a level stands.
pub(crate) fn column_x(level: u32) -> u64
    ensures { result ≡ column level }
{
    LEFT + COLUMN * u64::from(level)
}

/// Where a row stands.
pub(crate) fn row_y(row: u32) -> u64
    ensures { result ≡ line row }
{
    TOP + ROW * u64::from(row)
}

/// The level of a system, 0 of a number that no system has.
pub(crate) fn level_of(built: &Built, system: u32) -> u32
    ensures { result ≡ level_in built.now system }
{
    match built.systems().get(system as usize) {
        Some(found) => found.level(),
        None => 0,
    }
}

/// The leader of a system; itself where none is listed.
pub(crate) fn leader_of(leaders: &[u32], system: u32) -> u32
    ensures { result ≡ leader_in leaders.now system }
{
    match leaders.get(system as usize) {
        Some(leader) => *leader,
        None => system,
    }
}

// Whether a system has a row in the column of this level.
fn is_leading(built: &Built, leaders: &[u32], level: u32, system: u32) -> bool
    ensures { result ≡ is_leading_in built.now leaders.now level system }
{
    leader_of(leaders, system) == system && level_of(built, system) == level
}

/// The row of a system: how many rows of its level come before that of its leader, in schedule order.
pub(crate) fn row_of(built: &Built, leaders: &[u32], system: u32) -> u32
    ensures { result ≡ row_in built.now leaders.now system }
{
    let leader = leader_of(leaders, system);
    let level = level_of(built, system);
    row_in_order(built, leaders, level, leader)
}

// How many rows of a level come before that of a leader, in schedule order.
fn row_in_order(built: &Built, leaders: &[u32], level: u32, leader: u32) -> u32
    ensures { result ≡ row_from built.now leaders.now level leader 0 built.now.order }
{
    let mut row = 0u32;
    let order = built.order();
    for other in order {
        if *other == leader {
            return row;
        }
        if is_leading(built, leaders, level, *other) {
            row = row.saturating_add(1);
        }
    }
    row
}

/// How many rows the fullest level has.
pub(crate) fn rows_of(built: &Built, leaders: &[u32]) -> u32
    ensures { result ≡ most_rows built.now leaders.now 0 built.now.order }
{
    let mut rows = 0u32;
    let order = built.order();
    for system in order {
        rows = rows.max(row_of(built, leaders, *system).saturating_add(1));
    }
    rows
}
