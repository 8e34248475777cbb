// What an `or` term asks: one of a few alternatives.

ghost use Rattle.std.specs.Prelude.{◌≡◌, ℕ, Bool};
ghost use Rattle.query.specs.Alternative.{listed};

use kinds::Kind;

/// An alternative of an `or` term.
#[derive(Clone, Copy)]
pub enum Alternative {
    /// The entity has the component.
    With(Kind),
    /// The entity does not have the component.
    Without(Kind),
}

/// The alternatives of an `or` term. Two to four are asked for; with another number `check` refuses the query.
#[derive(Clone, Copy, Default)]
pub enum Alternatives {
    /// None, so that no entity passes.
    #[default]
    Zero,
    /// One alone.
    One([Alternative; 1]),
    /// Two.
    Two([Alternative; 2]),
    /// Three.
    Three([Alternative; 3]),
    /// Four.
    Four([Alternative; 4]),
    /// Five, the first of however many there are beyond four.
    Five([Alternative; 5]),
}

impl Alternatives {
    /// The alternatives, in order.
    pub fn as_slice(&self) -> &[Alternative]
        ensures { result.now ≡ listed self.now }
    {
        match self {
            Alternatives::Zero => &[],
            Alternatives::One(alternatives) => alternatives,
            Alternatives::Two(alternatives) => alternatives,
            Alternatives::Three(alternatives) => alternatives,
            Alternatives::Four(alternatives) => alternatives,
            Alternatives::Five(alternatives) => alternatives,
        }
    }
}
