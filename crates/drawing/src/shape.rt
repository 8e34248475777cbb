// The shapes of a drawing. They are plain data: a shape names what it stands for by number, and the text of a drawing looks the name up.

ghost use Rattle.std.specs.Prelude.{◌≡◌};
ghost use Rattle.drawing.specs.ShapeText.{style_name};

use access_set::Datum;
use std::fmt;

/// What a shape stands for, as its class in the text of a drawing.
#[derive(Clone, Copy)]
pub enum Style {
    /// A system.
    System,
    /// A set of systems.
    Set,
    /// An edge.
    Edge,
    /// An edge that waits for commands.
    Deferring,
    /// An order of two sets.
    Order,
    /// An order of two sets, of which some system waits for commands.
    DeferringOrder,
    /// A sync point.
    Sync,
    /// A condition; of a run, one that answered yes.
    Condition,
    /// A condition that answered no.
    Refused,
    /// What races.
    Race,
    /// A pair that races, and is declared to.
    Silenced,
    /// A system that runs.
    Running,
    /// A system that is skipped.
    Skipped,
    /// The axis of a run's steps.
    Axis,
}

impl Style {
    /// Its name.
    pub fn name(self) -> &'static str
        ensures { result.now ≡ style_name self }
    {
        match self {
            Style::System => "system",
            Style::Set => "set",
            Style::Edge => "edge",
            Style::Deferring => "deferring",
            Style::Order => "order",
            Style::DeferringOrder => "order deferring",
            Style::Sync => "sync",
            Style::Condition => "condition",
            Style::Refused => "refused",
            Style::Race => "race",
            Style::Silenced => "silenced",
            Style::Running => "running",
            Style::Skipped => "skipped",
            Style::Axis => "axis",
        }
    }
}

impl fmt::Display for Style {
    ghost use Rattle.std.specs.Prelude.{Some};

    ghost output = { λ style. Some (style_name style) };

    fn fmt<W: fmt::Write>(&self, f: &mut fmt::Formatter<W>) -> fmt::Result {
        f.write_str(self.name())
    }
}

/// The text at a place.
#[derive(Clone, Copy)]
pub enum Label {
    /// The name of a system.
    System(u32),
    /// The name of a set.
    Set(u32),
    /// How many systems of a set are in the box, and the name of the set.
    Members(u32, u32),
    /// The text of a condition, or its number where the text has more than 44 bytes.
    Condition(u32),
    /// The text of a condition, however long it is.
    Asked(u32),
    /// The number of a condition.
    Number(u32),
    /// What a system reads and writes.
    Touched(u32),
    /// The number of a sync point.
    Sync(u32),
    /// What two accesses meet on.
    Datum(Datum),
    /// The number of a run.
    Run(u32),
    /// Which runs are drawn, by the numbers of the first and the last, and how many there are.
    Runs {
        first: u32,
        last: u32,
        all: u64,
    },
    /// That the first run opens with other archetypes than the file has.
    Foreign,
    /// How many systems ran at once at most, and in the mean: whole ones and hundredths.
    AtOnce {
        most: u64,
        whole: u64,
        hundredths: u64,
    },
}

/// A shape: places are counted from the left and from above.
#[derive(Clone, Copy)]
pub enum Shape {
    /// A box, by its left upper corner.
    Rect {
        x: u64,
        y: u64,
        width: u64,
        height: u64,
        style: Style,
    },
    /// A box with a title, which a viewer shows where one points at it.
    Titled {
        x: u64,
        y: u64,
        width: u64,
        height: u64,
        title: Label,
        style: Style,
    },
    /// A straight line.
    Line {
        x: u64,
        y: u64,
        to_x: u64,
        to_y: u64,
        style: Style,
    },
    /// A line that leaves towards one place across, and comes from another.
    Curve {
        x: u64,
        y: u64,
        near: u64,
        far: u64,
        to_x: u64,
        to_y: u64,
        style: Style,
    },
    /// A diamond, by its middle, with a title.
    Diamond {
        x: u64,
        y: u64,
        title: Label,
        style: Style,
    },
    /// Something written, from a place on.
    Text {
        x: u64,
        y: u64,
        label: Label,
        style: Style,
    },
}

/// The texts that labels name by number.
#[derive(Clone, Copy)]
pub struct Words<'a> {
    /// The names of the systems.
    pub names: &'a [&'a str],
    /// The names of the sets.
    pub sets: &'a [&'a str],
    /// The conditions.
    pub conditions: &'a [&'a str],
    /// What each system reads and writes.
    pub touched: &'a [&'a str],
}
