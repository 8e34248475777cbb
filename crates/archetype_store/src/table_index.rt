// Where tables are found: by the word of their kinds, and by the number of their archetype.

ghost use Rattle.std.specs.Prelude.{◌≡◌, ◌≤◌, ◌++◌, ◌∷◌, ◌||◌, ◌==◌, ℕ, List, [], length, map, get_or, None, IfOk, IfSome, IsTrue, MatchOption, OnOk, OnErr};
ghost use Rattle.kinds.specs.Kind.{kind_number};
ghost use Rattle.column_store.specs.Cells.{stamped_number};
ghost use Rattle.column_store.specs.Table.{TableValue};
ghost use Rattle.archetype_store.specs.Layout.{layout_of};
ghost use Rattle.archetype_store.specs.Shapes.{shape_number, fitting_from, fitting_tables, numbers_from};
ghost use Rattle.archetype_store.specs.TableIndex.{has_bit, IsWord, IsFound, IsIndexed};
ghost use Rattle.archetype_store.specs.TableWords.{told_table};
ghost use Rattle.archetype_store.specs.Tables.{IsTableOf};

use crate::kind_sets::number_of;
use crate::shapes::{
    KeptShape, Shape, copied_shapes, fitting_of, note_all, number_at, numbers_at, reserve_all,
};
use crate::table_words::TableWords;
use column_store::{StampedValue, Table};
use kinds::Kind;
use kinds::kind::prove_kinds_apart;
use std::alloc::{AllocError, Global};
use std::collections::HashMap;

/// The tables by the words of their kinds, and those that have rows, in order: the one at place n is that of archetype n. Beside them the
/// archetype of each table, and of each shape that is kept the tables that fit it, whether they have rows or not.
#[derive(Drop)]
pub(crate) struct TableIndex {
    by_word: TableWords,
    peopled: Vec<usize>,
    // By table: the number of its archetype, where it has rows.
    numbers: Vec<Option<usize>>,
    shapes: Vec<KeptShape>,
    // Where a shape is kept, by its number.
    by_shape: HashMap<usize, usize>,
}

// The word with the bit of a kind.
fn with_kind(word: u32, kind: Kind) -> u32
    ensures { (k : ℕ) → has_bit result k ≡ ((kind_number kind == k) || has_bit word k) }
{
    prove_kinds_apart();
    word | (1 << kind.number())
}

/// The kinds of components as the bits of a word.
pub(crate) fn word_of(components: &[StampedValue]) -> u32
    ensures { IsWord result (map stamped_number components.now) }
{
    let Some((component, others)) = components.split_first() else {
        return 0;
    };
    with_kind(word_of(others), component.value.kind())
}

impl TableIndex {
    /// There are no tables.
    pub(crate) fn new(alloc: Global) -> Self
        ensures { IsIndexed [] result }
    {
        TableIndex {
            by_word: TableWords::new(alloc),
            peopled: Vec::new(alloc),
            numbers: Vec::new(alloc),
            shapes: Vec::new(alloc),
            by_shape: HashMap::new(alloc),
        }
    }

    /// An index that finds the same tables. Where an allocation fails there is no copy.
    pub(crate) fn copy(&self, alloc: Global) -> Result<Self, AllocError>
        ensures { IfOk result (λ copy. (tables : List TableValue) → IsIndexed tables self.now
            → IsIndexed tables copy) }
    {
        let by_word = self.by_word.copy()?;
        let mut peopled = Vec::with_capacity(alloc, self.peopled.capacity())?;
        peopled.extend_from_slice(self.peopled.as_slice())?;
        let mut numbers = Vec::with_capacity(alloc, self.numbers.capacity())?;
        numbers.extend_from_slice(self.numbers.as_slice())?;
        let shapes = copied_shapes(alloc, self.shapes.as_slice())?;
        let by_shape = self.by_shape.clone()?;
        Ok(TableIndex {
            by_word,
            peopled,
            numbers,
            shapes,
            by_shape,
        })
    }

    /// The table of the kinds of a word.
    pub(crate) fn find(&mut self, word: u32) -> Option<usize>
        ensures found { result ≡ told_table self.old.by_word word }
        ensures same { self.new ≡ self.old }
    {
        self.by_word.find(word)
    }

    /// Adds a table of other kinds, with its word. Where an allocation fails there is none.
    pub(crate) fn add(
        &mut self,
        tables: &mut Vec<Table>,
        word: u32,
        made: Table,
    ) -> Result<usize, AllocError>
        requires found { IsFound tables.old.items self.old }
        requires other { told_table self.old.by_word word ≡ None }
        requires word { IsWord word made.kinds }
        ensures number { IfOk result (λ table. table ≡ length tables.old.items) }
        ensures made { OnOk result (tables.new.items ≡ tables.old.items ++ made ∷ []) }
        ensures err { OnErr result (tables.new.items ≡ tables.old.items) }
        ensures found { IsFound tables.new.items self.new }
    {
        let table = tables.len();
        tables.reserve(1)?;
        self.peopled.reserve(table + 1)?;
        self.numbers.reserve(table + 1)?;
        reserve_all(&mut self.shapes)?;
        self.by_word.insert(word, table)?;
        note_all(&mut self.shapes, number_of(made.kinds()), table);
        tables.push_reserved(made);
        Ok(table)
    }

    /// Notes which tables have rows. It allocates nothing.
    pub(crate) fn note_rows(&mut self, tables: &[Table])
        requires { IsFound tables.now self.old }
        ensures { IsIndexed tables.now self.new }
    {
        self.peopled.clear();
        self.numbers.clear();
        for (number, table) in tables.iter().enumerate() {
            if table.entities().is_empty() {
                self.numbers.push_reserved(None);
                continue;
            }
            self.numbers.push_reserved(Some(self.peopled.len()));
            self.peopled.push_reserved(number);
        }
    }

    /// How many archetypes there are: tables with rows.
    pub(crate) fn len(&self) -> usize
        ensures { (tables : List TableValue) → IsIndexed tables self.now
            → result ≡ length (layout_of tables) }
    {
        self.peopled.len()
    }

    /// Keeps a shape with the tables that fit it, and gives its number. Where an allocation fails nothing changes that contracts see.
    pub(crate) fn register(
        &mut self,
        alloc: Global,
        tables: &[Table],
        shape: Shape,
    ) -> Result<usize, AllocError>
        requires { IsIndexed tables.now self.old }
        ensures number { IfOk result (λ number. number ≡ shape_number shape) }
        ensures indexed { IsIndexed tables.now self.new }
    {
        let number = shape.number();
        if self.fitting(number).is_some() {
            return Ok(number);
        }
        let fitting = fitting_of(alloc, tables, number)?;
        self.shapes.reserve(1)?;
        self.by_shape.insert(number, self.shapes.len())?;
        self.shapes.push_reserved(KeptShape {
            shape: number,
            tables: fitting,
        });
        Ok(number)
    }

    // The tables that fit the shape of a number, where it is kept.
    fn fitting(&self, shape: usize) -> Option<&[usize]>
        ensures { (tables : List TableValue) → IsIndexed tables self.now
            → IfSome result (λ fitting. fitting.now ≡ fitting_tables shape 0 tables) }
    {
        let place = *self.by_shape.get(&shape)?;
        let kept = self.shapes.get(place)?;
        if kept.shape == shape {
            Some(kept.tables.as_slice())
        } else {
            None
        }
    }

    /// Lists the archetypes that fit the shape of a number, in order, in the room of a list. Whether the shape is kept: else the list means
    /// nothing.
    pub(crate) fn find_fitting(
        &self,
        shape: usize,
        found: &mut Vec<usize>,
    ) -> Result<bool, AllocError>
        ensures { IfOk result (λ kept. (tables : List TableValue) → IsIndexed tables self.now
            → IsTrue kept → found.new.items ≡ fitting_from shape 0 (layout_of tables)) }
    {
        let Some(tables) = self.fitting(shape) else {
            return Ok(false);
        };
        numbers_at(self.numbers.as_slice(), tables, found)?;
        Ok(true)
    }

    /// The table of an archetype: only tables with rows are numbered.
    pub(crate) fn table_of(&self, archetype: usize) -> Option<usize>
        ensures { (tables : List TableValue) → IsIndexed tables self.now
            → MatchOption result (length (layout_of tables) ≤ archetype) (IsTableOf tables
            archetype) }
    {
        if archetype < self.peopled.len() {
            Some(self.peopled[archetype])
        } else {
            None
        }
    }

    /// The archetype of a table: one without rows has none.
    pub(crate) fn archetype_of(&self, table: usize) -> Option<usize>
        ensures { (tables : List TableValue) → IsIndexed tables self.now
            → result ≡ get_or (numbers_from 0 tables) table None }
    {
        number_at(self.numbers.as_slice(), table)
    }
}
