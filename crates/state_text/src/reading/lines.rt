// The lines of a text, one after the other.

ghost use Rattle.std.specs.Prelude.{◌≡◌, ℕ, List, [], ◌∷◌, map, IsOk};
ghost use Rattle.state_text.specs.LineWords.{AreLines};
ghost use Rattle.state_text.specs.Reading.{UnlessMemory};

use crate::reading::fault::LineFault;
use parsing::words::words_of;
use std::alloc::Global;

// What is left of a text, and how many lines were read.
#[derive(Drop)]
pub(crate) struct Lines<'a> {
    pub(crate) rest: &'a str,
    pub(crate) read: usize,
}

impl<'a> Lines<'a> {
    // The lines of a text, of which none was read.
    pub(crate) fn of(text: &'a str) -> Self
        ensures { result.rest.now ≡ text.now }
    {
        Lines {
            rest: text,
            read: 0,
        }
    }

    // The words of the next line.
    pub(crate) fn words(&mut self, alloc: Global) -> Result<Vec<&'a str>, LineFault>
        ensures { (line : List (List ℕ)) (more : List (List (List ℕ)))
            → AreLines (line ∷ more) self.old.rest.now
            → UnlessMemory result (λ words. (map (λ word. word.now) words.items ≡ line)
            × AreLines more self.new.rest.now) }
    {
        self.read = self.read.saturating_add(1);
        let (line, rest) = self.rest.split_once('\n').ok_or(LineFault::Outside)?;
        self.rest = rest;
        Ok(words_of(alloc, line)?)
    }

    // Nothing is left.
    pub(crate) fn end(&mut self) -> Result<(), LineFault>
        ensures { AreLines [] self.old.rest.now → IsOk result }
    {
        self.read = self.read.saturating_add(1);
        if self.rest.is_empty() {
            return Ok(());
        }
        Err(LineFault::Outside)
    }
}
