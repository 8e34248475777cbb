// The tables of archetypes, and what is done in them to the row of one entity.

ghost use Rattle.std.specs.List.{list_any, AllByRecursion};
ghost use Rattle.std.specs.Prelude.{◌≡◌, ◌≢◌, ◌==◌, ◌<◌, ◌-◌, [], length, map, None, Some, IfOk, slice_get};
ghost use Rattle.kinds.specs.Kind.{kind_number};
ghost use Rattle.column_store.specs.Cells.{stamped_number};
ghost use Rattle.column_store.specs.Kinds.{AreBelow};
ghost use Rattle.column_store.specs.Order.{AreApart};
ghost use Rattle.column_store.specs.RowOrder.{OrdersRows};
ghost use Rattle.column_store.specs.Table.{empty_table};
ghost use Rattle.archetype_store.specs.Layout.{layout_of};
ghost use Rattle.archetype_store.specs.TableIndex.{IsFound};
ghost use Rattle.archetype_store.specs.Tables.{kinds_at, entities_at, AreShaped, AreUnlike, IsGrown};
ghost use Rattle.archetype_store.specs.View.{kinds_seen, entities_seen};

use crate::table_index::{TableIndex, word_of};
use column_store::{RowOrder, StampedValue, Table};
use entity_table::Entity;
use kinds::Kind;
use std::alloc::{AllocError, Global};

/// An archetype that has entities.
#[derive(Clone, Copy)]
pub struct ArchetypeView<'a> {
    /// Its kinds, in rising numbers.
    pub kinds: &'a [Kind],
    /// Its entities, in the order of their rows.
    pub entities: &'a [Entity],
    /// The order of the rows: in it ids rise.
    pub order: RowOrder<'a>,
}

// The archetypes of the tables that have rows.
pub(crate) fn views_of(
    alloc: Global,
    tables: &[Table],
) -> Result<Vec<ArchetypeView<'_>>, AllocError>
    ensures kinds { IfOk result (λ views. map kinds_seen views.items
        ≡ map (λ a. a.kinds) (layout_of tables.now)) }
    ensures entities { IfOk result (λ views. map entities_seen views.items
        ≡ map (λ a. a.entities) (layout_of tables.now)) }
    ensures apart { IfOk result (λ views. AllByRecursion (λ view. AreApart (entities_seen view))
        views.items) }
    ensures order { IfOk result (λ views. AllByRecursion
        (λ view. OrdersRows (entities_seen view) view.order) views.items) }
{
    let mut views = Vec::new(alloc);
    for table in tables {
        let entities = table.entities();
        if entities.is_empty() {
            continue;
        }
        views.push(ArchetypeView {
            kinds: table.kinds(),
            entities,
            order: table.order(),
        })?;
    }
    Ok(views)
}

// The archetype of a table.
pub(crate) fn view_at(tables: &[Table], table: usize) -> ArchetypeView<'_>
    requires { table < length tables.now }
    ensures kinds { kinds_seen result ≡ kinds_at tables.now table }
    ensures entities { entities_seen result ≡ entities_at tables.now table }
    ensures apart { AreApart (entities_seen result) }
    ensures order { OrdersRows (entities_seen result) result.order }
{
    let there = &tables[table];
    ArchetypeView {
        kinds: there.kinds(),
        entities: there.entities(),
        order: there.order(),
    }
}

// The kinds of components.
fn kinds_of(alloc: Global, components: &[StampedValue]) -> Result<Vec<Kind>, AllocError>
    ensures { IfOk result (λ kinds. map kind_number kinds.items
        ≡ map stamped_number components.now) }
{
    let mut kinds = Vec::new(alloc);
    for component in components {
        kinds.push(component.value.kind())?;
    }
    Ok(kinds)
}

// A table of the kinds of these components, without rows.
fn made_for(alloc: Global, components: &[StampedValue]) -> Result<Table, AllocError>
    requires { AreBelow (map stamped_number components.now) }
    ensures { IfOk result (λ table. table ≡ empty_table (map stamped_number components.now)) }
{
    let kinds = kinds_of(alloc, components)?;
    let table = Table::new(alloc, &kinds)?;
    Ok(table)
}

// The table of the kinds of these components. Where there was none, it is made.
pub(crate) fn table_for(
    tables: &mut Vec<Table>,
    index: &mut TableIndex,
    components: &[StampedValue],
) -> Result<usize, AllocError>
    requires found { IsFound tables.old.items index.old }
    requires shaped { AreShaped tables.old.items }
    requires unlike { AreUnlike tables.old.items }
    requires below { AreBelow (map stamped_number components.now) }
    requires some { components.now ≢ [] }
    ensures within { IfOk result (λ table. table < length tables.new.items) }
    ensures kinds { IfOk result (λ table. kinds_at tables.new.items table
        ≡ map stamped_number components.now) }
    ensures grown { IsGrown tables.old.items tables.new.items }
    ensures found { IsFound tables.new.items index.new }
{
    let word = word_of(components);
    match index.find(word) {
        Some(table) => Ok(table),
        None => {
            let made = made_for(*tables.allocator(), components)?;
            index.add(tables, word, made)
        }
    }
}

// Whether one of the kinds has this number.
pub(crate) fn has_kind(kinds: &[Kind], number: u32) -> bool
    ensures { result ≡ list_any (λ kind. kind_number kind == number) kinds.now }
{
    kinds.iter().any(|kind| kind.number() == number)
}

// The last of entities, of which there are some.
pub(crate) fn last_of(entities: &[Entity]) -> Entity
    requires { 0 < length entities.now }
    ensures { slice_get entities.now (length entities.now - 1) ≡ Some result }
{
    entities[entities.len() - 1]
}
