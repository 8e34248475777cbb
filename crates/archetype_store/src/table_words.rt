// Tables by the words of their kinds.

ghost use Rattle.std.specs.Prelude.{◌≡◌, ℕ, cond, nat_eq, None, Some, IfOk, OnOk, OnErr};
ghost use Rattle.archetype_store.specs.TableWords.{told_table};

use std::alloc::{AllocError, Global};
use std::collections::HashMap;
use std::marker::Model;

// The table of the kinds of a word.
#[derive(Clone, Copy)]
struct FoundTable {
    word: u32,
    table: usize,
}

/// The tables by the words of their kinds. The one that was found last is looked at first, since rows that change one after the other mostly
/// come into one table. Contracts see the table of each word.
#[derive(Drop)]
pub(crate) struct TableWords {
    by_word: HashMap<u32, usize>,
    last: Option<FoundTable>,
}

impl Model for TableWords {
    ghost use Rattle.std.specs.Prelude.{◌≡◌, ℕ, nat_eq, List, Some};
    ghost use Rattle.std.specs.HashMap.{get};
    ghost use Rattle.archetype_store.specs.declared.table_words.FoundTable.{FoundTable};

    ghost Value = { List (ℕ × ℕ) };

    ghost view = { λ t. t.by_word.entries };

    ghost invariant = { λ t. (found : FoundTable) → t.last ≡ Some found
        → get nat_eq t.by_word found.word ≡ Some found.table };
}

impl TableWords {
    /// No table.
    pub(crate) fn new(alloc: Global) -> Self
        ensures { (word : ℕ) → told_table result word ≡ None }
    {
        TableWords {
            by_word: HashMap::new(alloc),
            last: None,
        }
    }

    /// The same tables. Where an allocation fails there is no copy.
    pub(crate) fn copy(&self) -> Result<Self, AllocError>
        ensures { IfOk result (λ copy. (word : ℕ)
            → told_table copy word ≡ told_table self.now word) }
    {
        let by_word = self.by_word.clone()?;
        Ok(TableWords {
            by_word,
            last: None,
        })
    }

    /// The table of the kinds of a word.
    pub(crate) fn find(&mut self, word: u32) -> Option<usize>
        ensures found { result ≡ told_table self.old word }
        ensures same { self.new ≡ self.old }
    {
        if let Some(last) = self.last {
            if last.word == word {
                return Some(last.table);
            }
        }
        let table = *self.by_word.get(&word)?;
        self.last = Some(FoundTable { word, table });
        Some(table)
    }

    /// Adds the table of the kinds of a word. Where an allocation fails there is none.
    pub(crate) fn insert(&mut self, word: u32, table: usize) -> Result<(), AllocError>
        ensures ok { OnOk result ((w : ℕ)
            → told_table self.new w
            ≡ cond (nat_eq word w) (Some table) (told_table self.old w)) }
        ensures err { OnErr result ((w : ℕ) → told_table self.new w ≡ told_table self.old w) }
    {
        self.last = None;
        self.by_word.insert(word, table)?;
        Ok(())
    }
}
