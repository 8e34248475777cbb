// Shapes: what queries ask of the kinds of archetypes, and the tables that fit those that are kept.

ghost use Rattle.std.specs.List.{AllByRecursion};
ghost use Rattle.std.specs.Prelude.{◌≡◌, ◌<◌, map, get_or, None, IfOk, OnOk};
ghost use Rattle.archetype_store.specs.Shapes.{shape_number, fits, fitting_tables, numbered, kept_seen, noted, HasRoom};

use crate::kind_sets::number_of;
use column_store::Table;
use std::alloc::{AllocError, Global};

/// How many words there are.
const WORDS: usize = 4_294_967_296;

/// The demand on the kinds of an archetype: those that it must have and those that it must not. Each is kept as the
/// bits of a word.
#[derive(Clone, Copy, PartialEq, Eq, Debug)]
pub struct Shape {
    /// The kinds that are required.
    pub required: u32,
    /// The kinds that are excluded.
    pub excluded: u32,
}

impl Shape {
    /// The number of the shape.
    pub fn number(self) -> usize
        ensures { result ≡ shape_number self }
    {
        self.required as usize + self.excluded as usize * WORDS
    }
}

/// Shapes of one number are the same.
pub fn prove_shapes_apart(one: Shape, other: Shape)
    ensures { shape_number one ≡ shape_number other → one ≡ other }
{
    let _one = one.required;
    let _other = other.required;
}

// A shape that is kept: its number, and the tables that fit it, in order.
#[derive(Drop)]
pub(crate) struct KeptShape {
    pub(crate) shape: usize,
    pub(crate) tables: Vec<usize>,
}

// Whether the kinds of a word fit the shape of a number.
fn fits(shape: usize, word: u32) -> bool
    ensures { result ≡ fits shape word }
{
    let required = shape % WORDS;
    let excluded = shape / WORDS;
    let word = word as usize;
    word & required == required && word & excluded == 0
}

// The tables that fit the shape of a number.
pub(crate) fn fitting_of(
    alloc: Global,
    tables: &[Table],
    shape: usize,
) -> Result<Vec<usize>, AllocError>
    ensures { IfOk result (λ fitting. fitting.items ≡ fitting_tables shape 0 tables.now) }
{
    let mut fitting = Vec::new(alloc);
    for (number, table) in tables.iter().enumerate() {
        if !fits(shape, number_of(table.kinds())) {
            continue;
        }
        fitting.push(number)?;
    }
    Ok(fitting)
}

// Makes room for a table more of each shape. Where an allocation fails there may be room for some.
fn reserve_each(shapes: &mut [KeptShape]) -> Result<(), AllocError>
    ensures same { map kept_seen shapes.new ≡ map kept_seen shapes.old }
    ensures ok { OnOk result (AllByRecursion HasRoom shapes.new) }
{
    if let Some((shape, other_shapes)) = shapes.split_first_mut() {
        shape.tables.reserve(1)?;
        reserve_each(other_shapes)?;
    }
    Ok(())
}

// The same of a vector of shapes.
pub(crate) fn reserve_all(shapes: &mut Vec<KeptShape>) -> Result<(), AllocError>
    ensures same { map kept_seen shapes.new.items ≡ map kept_seen shapes.old.items }
    ensures ok { OnOk result (AllByRecursion HasRoom shapes.new.items) }
{
    reserve_each(shapes)
}

// Notes a table of the kinds of a word, where they fit the shape.
fn note(kept: &mut KeptShape, word: u32, table: usize)
    requires { HasRoom kept.old }
    ensures { kept_seen kept.new ≡ noted word table (kept_seen kept.old) }
{
    if fits(kept.shape, word) {
        kept.tables.push_reserved(table);
    }
}

// Notes a table of the kinds of a word beside each shape that they fit. It allocates nothing.
fn note_each(shapes: &mut [KeptShape], word: u32, table: usize)
    requires { AllByRecursion HasRoom shapes.old }
    ensures { map kept_seen shapes.new ≡ map (noted word table) (map kept_seen shapes.old) }
{
    if let Some((shape, other_shapes)) = shapes.split_first_mut() {
        note(shape, word, table);
        note_each(other_shapes, word, table);
    }
}

// The same in a vector of shapes.
pub(crate) fn note_all(shapes: &mut Vec<KeptShape>, word: u32, table: usize)
    requires { AllByRecursion HasRoom shapes.old.items }
    ensures { map kept_seen shapes.new.items
        ≡ map (noted word table) (map kept_seen shapes.old.items) }
{
    note_each(shapes, word, table);
}

// The same shapes with the same tables.
pub(crate) fn copied_shapes(
    alloc: Global,
    shapes: &[KeptShape],
) -> Result<Vec<KeptShape>, AllocError>
    ensures { IfOk result (λ copies. map kept_seen copies.items ≡ map kept_seen shapes.now) }
{
    let mut copies = Vec::with_capacity(alloc, shapes.len())?;
    for kept in shapes {
        copies.push(KeptShape {
            shape: kept.shape,
            tables: Vec::from_slice(alloc, kept.tables.as_slice())?,
        })?;
    }
    Ok(copies)
}

// Lists the archetypes of these tables, of which those without rows have none, in a list that is emptied first.
pub(crate) fn numbers_at(
    numbers: &[Option<usize>],
    tables: &[usize],
    archetypes: &mut Vec<usize>,
) -> Result<(), AllocError>
    ensures { OnOk result (archetypes.new.items ≡ numbered numbers.now tables.now) }
{
    archetypes.clear();
    archetypes.reserve(tables.len())?;
    for table in tables {
        let Some(archetype) = number_at(numbers, *table) else {
            continue;
        };
        archetypes.push(archetype)?;
    }
    Ok(())
}

// The archetype of a table.
pub(crate) fn number_at(numbers: &[Option<usize>], table: usize) -> Option<usize>
    ensures { result ≡ get_or numbers.now table None }
{
    match numbers.get(table) {
        Some(number) => *number,
        None => None,
    }
}
