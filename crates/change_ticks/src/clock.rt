// The clock of a world.

ghost use Rattle.std.specs.Prelude.{◌≡◌, ◌+◌, ◌-◌, ◌<◌, ◌≤◌, ◌↔◌, OnOk, IfOk, OnErr, IsErr};
ghost use Rattle.model.specs.state.State.{last_tick};

use std::marker::Model;
use thiserror::Error;

/// A tick: a moment of a world. The world as loaded is at tick 1.
pub type Tick = u64;

/// The last tick that a clock reaches.
pub const LAST_TICK: Tick = 4_611_686_018_427_387_904;

/// The clock is at the last tick, and gives no further one.
#[derive(Clone, Copy, PartialEq, Eq, Debug, Error)]
#[error("the clock is spent")]
pub struct ClockSpent;

/// A clock, which contracts see as its tick: from 1 to the last tick.
#[derive(Clone, Copy, PartialEq, Eq, Debug)]
pub struct Clock {
    tick: Tick,
}

impl Model for Clock {
    ghost use Rattle.std.specs.Prelude.{ℕ, ◌≤◌};
    ghost use Rattle.model.specs.state.State.{last_tick};

    ghost Value = { ℕ };

    ghost view = { λ c. c.tick };

    ghost invariant = { λ c. (1 ≤ c.tick) × (c.tick ≤ last_tick) };

    ghost inverse = { λ n. record { tick = n } };
}

impl Clock {
    /// The clock at this tick.
    pub fn at(now: Tick) -> Self
        requires least { 1 ≤ now }
        requires most { now ≤ last_tick }
        ensures { result ≡ now }
    {
        Clock { tick: now }
    }

    /// The tick of the clock.
    pub fn now(&self) -> Tick
        ensures value { result ≡ self.now }
        ensures least { 1 ≤ result }
        ensures most { result ≤ last_tick }
    {
        self.tick
    }

    /// Moves the clock to the next tick, and gives that tick. At the last tick the clock is spent and stays as it is.
    pub fn next(&mut self) -> Result<Tick, ClockSpent>
        ensures ok { IfOk result (λ tick. tick ≡ self.old + 1) }
        ensures moved { OnOk result (self.new ≡ self.old + 1) }
        ensures spent { IsErr result ↔ (self.old ≡ last_tick) }
        ensures err { OnErr result (self.new ≡ self.old) }
    {
        let now = self.now();
        if now == LAST_TICK {
            return Err(ClockSpent);
        }
        *self = Clock { tick: now + 1 };
        Ok(now + 1)
    }

    /// Takes the last tick back: the clock is at the one before. It is past tick 1.
    pub fn back(&mut self)
        requires { 1 < self.old }
        ensures { self.new ≡ self.old - 1 }
    {
        let now = self.now();
        *self = Clock { tick: now - 1 };
    }
}
