// The resources, and the kinds of events.

ghost use Rattle.std.specs.Prelude.{◌≡◌, ◌<◌, Some};
ghost use Rattle.kinds.specs.Res.{res_number, res_name, IsRes, event_number, event_name, IsEvent};
ghost use Rattle.parsing.specs.Reads.{Reads};

use std::fmt;

/// A resource: one value of 64 bits, which the world has from the start. Printed as its name.
#[derive(Clone, Copy, PartialEq, Eq)]
pub enum Res {
    Round,
    Gravity,
    Total,
    Seed,
    Limit,
    Alarm,
    Mode,
    Step,
}

impl Res {
    /// How many resources there are.
    pub const COUNT: usize = 8;

    /// Every resource, by number.
    pub const ALL: [Res; Res::COUNT] = [
        Res::Round,
        Res::Gravity,
        Res::Total,
        Res::Seed,
        Res::Limit,
        Res::Alarm,
        Res::Mode,
        Res::Step,
    ];

    /// The number of the resource, its place in the world.
    pub fn number(self) -> u32
        ensures { result ≡ res_number self }
    {
        match self {
            Res::Round => 0,
            Res::Gravity => 1,
            Res::Total => 2,
            Res::Seed => 3,
            Res::Limit => 4,
            Res::Alarm => 5,
            Res::Mode => 6,
            Res::Step => 7,
        }
    }

    /// The name of the resource.
    pub fn name(self) -> &'static str
        ensures { result.now ≡ res_name self }
    {
        match self {
            Res::Round => "Round",
            Res::Gravity => "Gravity",
            Res::Total => "Total",
            Res::Seed => "Seed",
            Res::Limit => "Limit",
            Res::Alarm => "Alarm",
            Res::Mode => "Mode",
            Res::Step => "Step",
        }
    }

    /// The resource that a word names.
    pub fn named(word: &str) -> Option<Res>
        ensures { Reads IsRes word.now result }
    {
        for res in &Res::ALL {
            if res.name() == word {
                return Some(*res);
            }
        }
        None
    }
}

impl fmt::Debug for Res {
    ghost debug_output = { λ res. Some (res_name res) };

    fn fmt<W: fmt::Write>(&self, f: &mut fmt::Formatter<W>) -> fmt::Result {
        f.write_str(self.name())
    }
}

impl fmt::Display for Res {
    ghost output = { λ res. Some (res_name res) };

    fn fmt<W: fmt::Write>(&self, f: &mut fmt::Formatter<W>) -> fmt::Result {
        f.write_str(self.name())
    }
}

/// A kind of events, each with one value of 64 bits. Printed as its name.
#[derive(Clone, Copy, PartialEq, Eq)]
pub enum Event {
    Hit,
    Heal,
    Spark,
    Done,
}

impl Event {
    /// How many kinds of events there are.
    pub const COUNT: usize = 4;

    /// Every kind of events, by number.
    pub const ALL: [Event; Event::COUNT] = [Event::Hit, Event::Heal, Event::Spark, Event::Done];

    /// The number of the kind, its place among the event queues.
    pub fn number(self) -> u32
        ensures { result ≡ event_number self }
    {
        match self {
            Event::Hit => 0,
            Event::Heal => 1,
            Event::Spark => 2,
            Event::Done => 3,
        }
    }

    /// The name of the event kind.
    pub fn name(self) -> &'static str
        ensures { result.now ≡ event_name self }
    {
        match self {
            Event::Hit => "Hit",
            Event::Heal => "Heal",
            Event::Spark => "Spark",
            Event::Done => "Done",
        }
    }

    /// The event kind that a word names.
    pub fn named(word: &str) -> Option<Event>
        ensures { Reads IsEvent word.now result }
    {
        for event in &Event::ALL {
            if event.name() == word {
                return Some(*event);
            }
        }
        None
    }
}

impl fmt::Debug for Event {
    ghost debug_output = { λ event. Some (event_name event) };

    fn fmt<W: fmt::Write>(&self, f: &mut fmt::Formatter<W>) -> fmt::Result {
        f.write_str(self.name())
    }
}

impl fmt::Display for Event {
    ghost output = { λ event. Some (event_name event) };

    fn fmt<W: fmt::Write>(&self, f: &mut fmt::Formatter<W>) -> fmt::Result {
        f.write_str(self.name())
    }
}
