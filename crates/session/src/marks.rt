// States that a host keeps by name, to go back to.

ghost use Rattle.std.specs.Prelude.{◌≡◌, [], is_some, length, option_map, position, OnErr, OnOk};
ghost use Rattle.std.specs.List.{AllByRecursion};
ghost use Rattle.body.specs.Steps.{HasShape};
ghost use Rattle.session.specs.Marks.{can_keep, is_kept, is_named, kept_at, mark_of, with_mark, without};

use body::State;
use std::alloc::{AllocError, Global};
use std::marker::Model;

/// How many states may be kept.
pub const MOST_MARKS: usize = 64;

/// A state with its name.
#[derive(Drop)]
struct Mark {
    name: String,
    state: State,
}

/// States that are kept, each under a name of its own. Contracts see a list of names and states, in the order in which the names came.
#[derive(Drop)]
pub struct Marks {
    list: Vec<Mark>,
}

impl Model for Marks {
    ghost use Rattle.std.specs.Prelude.{ℕ, List, map};
    ghost use Rattle.model.specs.state.State.{State};
    ghost use Rattle.session.specs.Marks.{mark_of};

    ghost Value = { List (List ℕ × State) };

    ghost view = { λ m. map mark_of m.list.items };
}

impl Marks {
    /// No state.
    pub fn new(alloc: Global) -> Self
        ensures { result ≡ [] }
    {
        Marks {
            list: Vec::new(alloc),
        }
    }

    /// The state that is kept under a name.
    pub fn get(&self, name: &str) -> Option<&State>
        ensures { option_map (λ state. state.now) result ≡ kept_at name.now self.now }
    {
        match self.place_of(name) {
            Some(place) => Some(&self.list[place].state),
            None => None,
        }
    }

    /// Whether a state can be kept under a name: there is one of that name, or fewer than 64 in all.
    pub fn has_room_for(&self, name: &str) -> bool
        ensures { result ≡ can_keep name.now self.now }
    {
        self.place_of(name).is_some() || self.list.len() < MOST_MARKS
    }

    /// Keeps a state under a name, in place of the one that was. After an error nothing has changed.
    pub fn keep(&mut self, alloc: Global, name: &str, state: State) -> Result<(), AllocError>
        ensures ok { OnOk result (self.new ≡ with_mark name.now state self.old) }
        ensures err { OnErr result (self.new ≡ self.old) }
    {
        let mark = Mark {
            name: String::from_str(alloc, name)?,
            state,
        };
        match self.place_of(name) {
            Some(place) => self.list[place] = mark,
            None => self.list.push(mark)?,
        }
        Ok(())
    }

    /// Drops the state that is kept under a name, and says whether there was one.
    pub fn forget(&mut self, name: &str) -> bool
        ensures was { result ≡ is_kept name.now self.old }
        ensures gone { self.new ≡ without name.now self.old }
    {
        match self.place_of(name) {
            Some(place) => {
                self.list.remove(place);
                true
            }
            None => false,
        }
    }

    /// Proves that each state that is kept has the shape of a state.
    pub(crate) fn prove_shapes(&self)
        ensures { AllByRecursion (λ mark. HasShape mark.1) self.now }
    {
        for mark in self.list.iter() {
            mark.state.prove_shape();
        }
    }

    // The place of a name.
    fn place_of(&self, name: &str) -> Option<usize>
        ensures { result ≡ position (is_named name.now) self.now }
    {
        place_in(self.list.as_slice(), name)
    }
}

// The place of a name among marks.
fn place_in(marks: &[Mark], name: &str) -> Option<usize>
    ensures { result ≡ position (λ mark. is_named name.now (mark_of mark)) marks.now }
{
    marks.iter().position(|mark| mark.name.as_str() == name)
}
