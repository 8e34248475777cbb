// What an instruction takes values from and writes, whom a command is about, and how these are read.

ghost use Rattle.std.specs.Prelude.{◌≡◌, ◌<◌, ◌≤◌, [], ◌∷◌, length, map};
ghost use Rattle.parsing.specs.Reads.{Reads};
ghost use Rattle.script.specs.Operands.{IsAxis, IsField, IsRegister, IsTarget, IsSource, IsSlot, IsSubject, IsNamedBy, AreValues, with_bit, with_source};

use kinds::kind::prove_kinds_apart;
use kinds::{Kind, Res};
use parsing::integer::{read_integer, read_number};

/// The letter of a field within its kind. Not every kind has each: that is looked at when the script is checked.
#[derive(Clone, Copy)]
pub enum Axis {
    X,
    Y,
    V,
}

impl Axis {
    /// The letter that a word is.
    pub fn named(word: &str) -> Option<Axis>
        ensures { Reads IsAxis word.now result }
    {
        match word {
            "x" => Some(Axis::X),
            "y" => Some(Axis::Y),
            "v" => Some(Axis::V),
            _ => None,
        }
    }
}

/// A field of the row at hand, as `Position.x`.
#[derive(Clone, Copy)]
pub struct Field {
    /// The kind of the component.
    pub kind: Kind,
    /// The field in it.
    pub axis: Axis,
}

impl Field {
    /// Reads a field: a kind's name, a point and a letter, with no space between.
    pub fn read(word: &str) -> Option<Field>
        ensures { Reads IsField word.now result }
    {
        let (kind, axis) = word.split_once('.')?;
        Some(Field {
            kind: Kind::named(kind)?,
            axis: Axis::named(axis)?,
        })
    }
}

// Reads a register, as `r3`, for its number. Any number of 32 bits is read: how many registers there are is looked at when the script
// is checked.
fn read_register(word: &str) -> Option<u32>
    ensures { Reads IsRegister word.now result }
{
    read_number(word.strip_prefix('r')?)
}

/// What an instruction writes.
#[derive(Clone, Copy)]
pub enum Target {
    /// A register of the system, by number.
    Register(u32),
    /// A field of the row at hand.
    Field(Field),
    /// A resource.
    Resource(Res),
}

impl Target {
    /// Reads a target: a register, a field, or a resource's name.
    pub fn read(word: &str) -> Option<Target>
        ensures { Reads IsTarget word.now result }
    {
        if let Some(number) = read_register(word) {
            return Some(Target::Register(number));
        }
        match Res::named(word) {
            Some(resource) => Some(Target::Resource(resource)),
            None => Some(Target::Field(Field::read(word)?)),
        }
    }
}

/// Where an instruction takes a value from.
#[derive(Clone, Copy)]
pub enum Source {
    /// The value itself.
    Integer(i64),
    /// A register of the system, by number.
    Register(u32),
    /// A field of the row at hand.
    Field(Field),
    /// A resource.
    Resource(Res),
    /// The value of the event at hand.
    Event,
}

impl Source {
    /// Reads a source: an integer, `event`, a register, a field, or a resource's name.
    pub fn read(word: &str) -> Option<Source>
        ensures { Reads IsSource word.now result }
    {
        if word == "event" {
            return Some(Source::Event);
        }
        if let Some(value) = read_integer(word) {
            return Some(Source::Integer(value));
        }
        match Target::read(word)? {
            Target::Register(number) => Some(Source::Register(number)),
            Target::Field(field) => Some(Source::Field(field)),
            Target::Resource(resource) => Some(Source::Resource(resource)),
        }
    }
}

// Reads the number of a slot, as `g3`. Any number of 32 bits is read: how many ids a system is granted is looked at when the script is checked.
pub(crate) fn read_slot(word: &str) -> Option<u32>
    ensures { Reads IsSlot word.now result }
{
    read_number(word.strip_prefix('g')?)
}

/// Whom a command is about.
#[derive(Clone, Copy)]
pub enum Subject {
    /// The entity of the row at hand.
    Row,
    /// The id of the slot with this number, of those that the system is granted at its start.
    Granted(u32),
}

impl Subject {
    /// Reads a subject: `row`, or a slot.
    pub fn read(word: &str) -> Option<Subject>
        ensures { Reads IsSubject word.now result }
    {
        if word == "row" {
            return Some(Subject::Row);
        }
        Some(Subject::Granted(read_slot(word)?))
    }
}

/// The values of the fields of a component, in order. Whether they are as many as the kind has fields is looked at when the script is checked.
#[derive(Clone, Copy)]
pub enum Values {
    /// No value.
    Empty,
    /// One value.
    One(Source),
    /// Two values.
    Two(Source, Source),
    /// More than two, which no kind has fields for: what they name is kept.
    Many(Mentions),
}

/// What several sources name.
#[derive(Clone, Copy)]
pub struct Mentions {
    /// The kinds of their fields, as the bits of their numbers.
    pub kinds: u64,
    /// Their resources, likewise.
    pub resources: u64,
    /// Whether the event is among them.
    pub event: bool,
}

// The word with the bit of a number.
fn with_bit(word: u64, number: u32) -> u64
    requires { number < 64 }
    ensures { result ≡ with_bit word number }
{
    word | (1 << number)
}

impl Mentions {
    // What they name with one source more.
    fn with(self, source: Source) -> Mentions
        ensures { result ≡ with_source self source }
    {
        prove_kinds_apart();
        match source {
            Source::Field(field) => Mentions {
                kinds: with_bit(self.kinds, field.kind.number()),
                ..self
            },
            Source::Resource(resource) => Mentions {
                resources: with_bit(self.resources, resource.number()),
                ..self
            },
            Source::Event => Mentions {
                event: true,
                ..self
            },
            Source::Integer(_) | Source::Register(_) => self,
        }
    }

    // What the sources name that words spell.
    fn read(words: &[&str]) -> Option<Mentions>
        ensures { Reads IsNamedBy (map (λ word. word.now) words.now) result }
    {
        let mut named = Mentions {
            kinds: 0,
            resources: 0,
            event: false,
        };
        for word in words {
            let source = Source::read(word)?;
            named = named.with(source);
        }
        Some(named)
    }
}

impl Values {
    /// Reads values: any number of sources.
    pub fn read(words: &[&str]) -> Option<Values>
        ensures { Reads AreValues (map (λ word. word.now) words.now) result }
    {
        match words {
            [] => Some(Values::Empty),
            [value] => Values::one(value),
            [first, second] => Values::two(first, second),
            _ => Values::many(words),
        }
    }

    // One value.
    fn one(value: &str) -> Option<Values>
        ensures { Reads AreValues (value.now ∷ []) result }
    {
        Some(Values::One(Source::read(value)?))
    }

    // Two values.
    fn two(first: &str, second: &str) -> Option<Values>
        ensures { Reads AreValues (first.now ∷ second.now ∷ []) result }
    {
        Some(Values::Two(Source::read(first)?, Source::read(second)?))
    }

    // More than two values.
    fn many(words: &[&str]) -> Option<Values>
        requires { 3 ≤ length words.now }
        ensures { Reads AreValues (map (λ word. word.now) words.now) result }
    {
        Some(Values::Many(Mentions::read(words)?))
    }
}
