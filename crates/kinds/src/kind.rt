// The kinds of components by number and by name.

ghost use Rattle.std.specs.Prelude.{◌≡◌, ◌<◌, map, Some};
ghost use Rattle.kinds.specs.Kind.{kind_count, kind_number, kind_name, IsKind, numbers_from, NumbersAreBelow, NumbersAreApart, NamesAreApart};
ghost use Rattle.kinds.specs.Components.{widths};
ghost use Rattle.kinds.specs.Shape.{shape_of, shape_width};
ghost use Rattle.parsing.specs.Reads.{Reads};

use crate::shape::Shape;
use std::fmt;

/// A kind of components. No two have one number, and numbers rise from 0. Printed as its name.
#[derive(Clone, Copy, PartialEq, Eq)]
pub enum Kind {
    /// A place, with the fields `x` and `y`.
    Position,
    /// A step, with the fields `x` and `y`.
    Velocity,
    /// How much an entity can still take, with the field `v`.
    Health,
    /// How much an entity takes from others, with the field `v`.
    Damage,
    /// The number of the side on which an entity is, with the field `v`.
    Team,
    /// A count of time, with the field `v`.
    Timer,
    /// A count of points, with the field `v`.
    Score,
    /// How much an entity can spend, with the field `v`.
    Energy,
    /// How much is stored up, with the field `v`.
    Charge,
    /// The number of what an entity is after, with the field `v`.
    Target,
    /// A mark, without fields.
    Frozen,
    /// A mark, without fields.
    Hidden,
    /// A place to return to, with the fields `x` and `y`.
    Home,
    /// How heavy an entity is, with the field `v`.
    Mass,
    /// How much of what would hurt an entity is kept off, with the field `v`.
    Armor,
    /// How far an entity reaches, with the field `v`.
    Range,
    /// The number of a step that was reached, with the field `v`.
    Level,
    /// The number of a place among others, with the field `v`.
    Rank,
    /// A mark, without fields.
    Sleeping,
    /// A mark, without fields.
    Marked,
}

impl Kind {
    /// How many kinds there are.
    pub const COUNT: usize = 20;

    /// Every kind, by number.
    pub const ALL: [Kind; Kind::COUNT] = [
        Kind::Position,
        Kind::Velocity,
        Kind::Health,
        Kind::Damage,
        Kind::Team,
        Kind::Timer,
        Kind::Score,
        Kind::Energy,
        Kind::Charge,
        Kind::Target,
        Kind::Frozen,
        Kind::Hidden,
        Kind::Home,
        Kind::Mass,
        Kind::Armor,
        Kind::Range,
        Kind::Level,
        Kind::Rank,
        Kind::Sleeping,
        Kind::Marked,
    ];

    /// The kinds, in the order of their numbers, which rise from 0.
    pub fn every() -> &'static [Kind]
        ensures { map kind_number result.now ≡ numbers_from 0 kind_count }
    {
        &Kind::ALL
    }

    /// The number of the kind, by which rows are ordered.
    pub fn number(self) -> u32
        ensures { result ≡ kind_number self }
    {
        match self {
            Kind::Position => 0,
            Kind::Velocity => 1,
            Kind::Health => 2,
            Kind::Damage => 3,
            Kind::Team => 4,
            Kind::Timer => 5,
            Kind::Score => 6,
            Kind::Energy => 7,
            Kind::Charge => 8,
            Kind::Target => 9,
            Kind::Frozen => 10,
            Kind::Hidden => 11,
            Kind::Home => 12,
            Kind::Mass => 13,
            Kind::Armor => 14,
            Kind::Range => 15,
            Kind::Level => 16,
            Kind::Rank => 17,
            Kind::Sleeping => 18,
            Kind::Marked => 19,
        }
    }

    /// How the components of the kind are laid out.
    pub fn shape(self) -> Shape
        ensures shape { result ≡ shape_of self }
        ensures width { shape_width result ≡ widths (kind_number self) }
    {
        match self {
            Kind::Position | Kind::Velocity | Kind::Home => Shape::Pair,
            Kind::Frozen | Kind::Hidden | Kind::Sleeping | Kind::Marked => Shape::Mark,
            _ => Shape::Amount,
        }
    }

    /// How many fields a component of the kind has.
    pub fn width(self) -> usize
        ensures { result ≡ widths (kind_number self) }
    {
        match self.shape() {
            Shape::Mark => 0,
            Shape::Amount => 1,
            Shape::Pair => 2,
        }
    }

    /// The name of the kind.
    pub fn name(self) -> &'static str
        ensures { result.now ≡ kind_name self }
    {
        match self {
            Kind::Position => "Position",
            Kind::Velocity => "Velocity",
            Kind::Health => "Health",
            Kind::Damage => "Damage",
            Kind::Team => "Team",
            Kind::Timer => "Timer",
            Kind::Score => "Score",
            Kind::Energy => "Energy",
            Kind::Charge => "Charge",
            Kind::Target => "Target",
            Kind::Frozen => "Frozen",
            Kind::Hidden => "Hidden",
            Kind::Home => "Home",
            Kind::Mass => "Mass",
            Kind::Armor => "Armor",
            Kind::Range => "Range",
            Kind::Level => "Level",
            Kind::Rank => "Rank",
            Kind::Sleeping => "Sleeping",
            Kind::Marked => "Marked",
        }
    }

    /// The kind that a word names.
    pub fn named(word: &str) -> Option<Kind>
        ensures { Reads IsKind word.now result }
    {
        for kind in Kind::every() {
            if kind.name() == word {
                return Some(*kind);
            }
        }
        None
    }
}

impl fmt::Debug for Kind {
    ghost debug_output = { λ kind. Some (kind_name kind) };

    fn fmt<W: fmt::Write>(&self, f: &mut fmt::Formatter<W>) -> fmt::Result {
        f.write_str(self.name())
    }
}

impl fmt::Display for Kind {
    ghost output = { λ kind. Some (kind_name kind) };

    fn fmt<W: fmt::Write>(&self, f: &mut fmt::Formatter<W>) -> fmt::Result {
        f.write_str(self.name())
    }
}

/// The kinds are distinguished: by their numbers, which are below their count, and by their names.
pub fn prove_kinds_apart()
    ensures below { NumbersAreBelow }
    ensures numbers { NumbersAreApart }
    ensures names { NamesAreApart }
{}
