// A term of a query: which kinds it touches, writes, fetches, and what it asks of the kinds that an entity has.

ghost use Rattle.std.specs.Prelude.{◌≡◌, ℕ, Bool};
ghost use Rattle.std.specs.Option.{option_map};
ghost use Rattle.kinds.specs.Kind.{kind_number};
ghost use Rattle.model.specs.Lists.{is_number};
ghost use Rattle.model.specs.access.Query.{admits, touched, written, is_filter};
ghost use Rattle.model.specs.access.Conflict.{choice};
ghost use Rattle.model.specs.access.QueryFaults.{required, excluded, optional, fetched, is_or, is_misnumbered};
ghost use Rattle.query.specs.Alternative.{alternatives_of};
ghost use Rattle.query.specs.Term.{term_of, is_present};

use crate::alternative::Alternatives;
use kinds::Kind;

/// A term of a query.
#[derive(Clone, Copy, Default)]
pub enum Term {
    /// The row shows the id of its entity.
    #[default]
    Entity,
    /// The component is required and read.
    Read(Kind),
    /// The component is required, read and written.
    Mut(Kind),
    /// The component is read where the entity has it.
    Opt(Kind),
    /// The entity has the component.
    With(Kind),
    /// The entity does not have the component.
    Without(Kind),
    /// The component was added since the last run.
    Added(Kind),
    /// The component was changed since the last run.
    Changed(Kind),
    /// One of the alternatives holds of the entity.
    Or(Alternatives),
}

/// The demand of a term on the kinds that an entity has.
#[derive(Clone, Copy)]
pub enum Presence {
    /// Nothing.
    Free,
    /// That it has the kind.
    Has(Kind),
    /// That it does not have the kind.
    Lacks(Kind),
    /// That one of the alternatives holds.
    AnyOf(Alternatives),
}

impl Term {
    /// The kind that the term touches: of a component that a row shows, or whose stamps are asked for.
    pub fn touched(self) -> Option<Kind>
        ensures { option_map kind_number result ≡ touched (term_of self) }
    {
        match self {
            Term::Entity | Term::With(_) | Term::Without(_) | Term::Or(_) => None,
            Term::Read(kind) => Some(kind),
            Term::Mut(kind) => Some(kind),
            Term::Opt(kind) => Some(kind),
            Term::Added(kind) => Some(kind),
            Term::Changed(kind) => Some(kind),
        }
    }

    /// The kind that the term writes.
    pub fn written(self) -> Option<Kind>
        ensures { option_map kind_number result ≡ written (term_of self) }
    {
        match self {
            Term::Mut(kind) => Some(kind),
            _ => None,
        }
    }

    /// The kind that an entity must have for the term.
    pub fn required(self) -> Option<Kind>
        ensures { option_map kind_number result ≡ required (term_of self) }
    {
        match self {
            Term::Entity | Term::Opt(_) | Term::Without(_) | Term::Or(_) => None,
            Term::Read(kind) => Some(kind),
            Term::Mut(kind) => Some(kind),
            Term::With(kind) => Some(kind),
            Term::Added(kind) => Some(kind),
            Term::Changed(kind) => Some(kind),
        }
    }

    /// The kind whose component the term fetches.
    pub fn fetched(self) -> Option<Kind>
        ensures { option_map kind_number result ≡ fetched (term_of self) }
    {
        match self {
            Term::Read(kind) | Term::Mut(kind) | Term::Opt(kind) => Some(kind),
            _ => None,
        }
    }

    /// The kind that an entity must lack for the term.
    pub fn excluded(self) -> Option<Kind>
        ensures { option_map kind_number result ≡ excluded (term_of self) }
    {
        match self {
            Term::Without(kind) => Some(kind),
            _ => None,
        }
    }

    /// The kind that the term reads where an entity has it.
    pub fn optional(self) -> Option<Kind>
        ensures { option_map kind_number result ≡ optional (term_of self) }
    {
        match self {
            Term::Opt(kind) => Some(kind),
            _ => None,
        }
    }

    /// The demand of the term on the kinds that an entity has.
    pub fn presence(self) -> Presence
        ensures { (kinds : ℕ → Bool) → admits kinds (term_of self) ≡ is_present kinds result }
    {
        match self {
            Term::Entity | Term::Opt(_) => Presence::Free,
            Term::Without(kind) => Presence::Lacks(kind),
            Term::Read(kind)
            | Term::Mut(kind)
            | Term::With(kind)
            | Term::Added(kind)
            | Term::Changed(kind) => Presence::Has(kind),
            Term::Or(alternatives) => Presence::AnyOf(alternatives),
        }
    }

    /// The alternatives of which the term asks one.
    pub fn choice(self) -> Option<Alternatives>
        ensures { option_map alternatives_of result ≡ choice (term_of self) }
    {
        match self {
            Term::Or(alternatives) => Some(alternatives),
            _ => None,
        }
    }

    /// Whether it is an `or` term.
    pub fn is_or(self) -> bool
        ensures { result ≡ is_or (term_of self) }
    {
        match self {
            Term::Or(_) => true,
            _ => false,
        }
    }

    /// Whether it is an `or` term of another number of alternatives than two to four.
    pub fn is_misnumbered(self) -> bool
        ensures { result ≡ is_misnumbered (term_of self) }
    {
        match self {
            Term::Or(alternatives) => {
                let count = alternatives.as_slice().len();
                count < 2 || 4 < count
            }
            _ => false,
        }
    }

    /// Whether it compares a stamp with the last run: an `added` or `changed` term.
    pub fn is_filter(self) -> bool
        ensures { result ≡ is_filter (term_of self) }
    {
        matches!(self, Term::Added(_) | Term::Changed(_))
    }

    /// Whether the term touches the kind.
    pub fn touches(self, kind: Kind) -> bool
        ensures { result ≡ is_number (kind_number kind) (touched (term_of self)) }
    {
        is_kind(kind, self.touched())
    }

    /// Whether the term writes the kind.
    pub fn writes(self, kind: Kind) -> bool
        ensures { result ≡ is_number (kind_number kind) (written (term_of self)) }
    {
        is_kind(kind, self.written())
    }

    /// Whether the term fetches a component of the kind.
    pub fn fetches(self, kind: Kind) -> bool
        ensures { result ≡ is_number (kind_number kind) (fetched (term_of self)) }
    {
        is_kind(kind, self.fetched())
    }

    /// Whether an entity must have the kind for the term.
    pub fn requires_kind(self, kind: Kind) -> bool
        ensures { result ≡ is_number (kind_number kind) (required (term_of self)) }
    {
        is_kind(kind, self.required())
    }

    /// Whether an entity must lack the kind for the term.
    pub fn excludes(self, kind: Kind) -> bool
        ensures { result ≡ is_number (kind_number kind) (excluded (term_of self)) }
    {
        is_kind(kind, self.excluded())
    }

    /// Whether the term reads the kind where an entity has it.
    pub fn is_optional(self, kind: Kind) -> bool
        ensures { result ≡ is_number (kind_number kind) (optional (term_of self)) }
    {
        is_kind(kind, self.optional())
    }
}

// Whether the kind is the named one.
fn is_kind(kind: Kind, named: Option<Kind>) -> bool
    ensures { result ≡ is_number (kind_number kind) (option_map kind_number named) }
{
    match named {
        None => false,
        Some(other) => other.number() == kind.number(),
    }
}
