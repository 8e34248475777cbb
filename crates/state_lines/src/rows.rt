// The lines of entities and of the rows of queries.

ghost use Rattle.std.specs.Prelude.{◌≡◌, ◌==◌, ◌++◌, map, position, string_bytes, IfOk, OnOk};
ghost use Rattle.archetype_store.specs.Layout.{AreAllHome};
ghost use Rattle.archetype_store.specs.Row.{component_of};
ghost use Rattle.model.specs.state.Rows.{row_at};
ghost use Rattle.query.specs.Term.{term_of};
ghost use Rattle.kinds.specs.Kind.{kind_number};
ghost use Rattle.kinds.specs.Value.{value_number};
ghost use Rattle.state_lines.specs.Fetched.{line_of_row, text_of_kind, text_of_term, text_of_terms};
ghost use Rattle.state_lines.specs.Looks.{entity_lines, query_lines};

use crate::world::{push_component, push_entity};
use archetype_store::World;
use column_store::{Components, StampedValue};
use entity_table::Entity;
use kinds::Kind;
use query::{Query, Term};
use query_plan::plan::plan;
use query_plan::{RowBuffers, prove_picks_home};
use std::alloc::{AllocError, Global};

/// The line of an entity, with all its components; no line where it doesn't live.
pub fn line_of_entity(alloc: Global, world: &World, entity: Entity) -> Result<String, AllocError>
    requires { AreAllHome world.now.layout }
    ensures { IfOk result (λ text. string_bytes text ≡ entity_lines entity world.now.state.slots) }
{
    let mut text = String::new(alloc);
    world.prove_home();
    if world.lives(entity) {
        let mut components = Components::new(alloc);
        world.components(entity.index, &mut components)?;
        push_entity(&mut text, entity.index, entity.generation, &components)?;
    }
    Ok(text)
}

/// The lines of the rows of a query, in rising index, for an observer who last looked at tick `since`. Each has the
/// id, and each component that the query fetches.
pub fn lines_of_query(
    alloc: Global,
    world: &World,
    query: &Query,
    since: u64,
) -> Result<String, AllocError>
    requires { AreAllHome world.now.layout }
    ensures { IfOk result (λ text. string_bytes text
        ≡ query_lines since query.now world.now.state.slots) }
{
    // All columns are at home, so those that the query picks are.
    world.prove_laid();
    prove_picks_home();
    let mut room = RowBuffers::new(alloc);
    let plan = plan(alloc, query, world, since, &mut room)?;
    let rows = plan.rows.into_list(alloc, world)?;
    let mut text = String::new(alloc);
    let mut components = Components::new(alloc);
    for row in rows.as_slice() {
        push_row(&mut text, world, query.terms(), row.entity, &mut components)?;
    }
    Ok(text)
}

// Adds the line of an entity with what these terms fetch of it. Its components are listed in the room of a list.
fn push_row(
    text: &mut String,
    world: &World,
    terms: &[Term],
    entity: Entity,
    components: &mut Components,
) -> Result<(), AllocError>
    requires { AreAllHome world.now.layout }
    ensures { OnOk result (string_bytes text.new
        ≡ string_bytes text.old
        ++ line_of_row (map term_of terms.now) entity
        (row_at world.now.state.slots entity.index)) }
{
    world.prove_home();
    world.components(entity.index, components)?;
    write!(text, "{entity}")?;
    push_fetched(text, terms, components)?;
    writeln!(text)
}

// Adds what these terms fetch of these components.
fn push_fetched(
    text: &mut String,
    terms: &[Term],
    components: &[StampedValue],
) -> Result<(), AllocError>
    ensures { OnOk result (string_bytes text.new
        ≡ string_bytes text.old
        ++ text_of_terms (map component_of components.now) (map term_of terms.now)) }
{
    for term in terms {
        push_fetched_by(text, *term, components)?;
    }
    Ok(())
}

// Adds what a term fetches of these components.
fn push_fetched_by(
    text: &mut String,
    term: Term,
    components: &[StampedValue],
) -> Result<(), AllocError>
    ensures { OnOk result (string_bytes text.new
        ≡ string_bytes text.old ++ text_of_term (map component_of components.now) (term_of term)) }
{
    match term {
        Term::Read(kind) | Term::Mut(kind) | Term::Opt(kind) => push_kind(text, kind, components),
        _ => Ok(()),
    }
}

// Adds the component of a kind, if it is among these.
fn push_kind(text: &mut String, kind: Kind, components: &[StampedValue]) -> Result<(), AllocError>
    ensures { OnOk result (string_bytes text.new
        ≡ string_bytes text.old
        ++ text_of_kind (map component_of components.now) (kind_number kind)) }
{
    match place_of(components, kind.number()) {
        Some(place) => push_component(text, &components[place].value),
        None => Ok(()),
    }
}

// The place of the component of the kind with this number.
fn place_of(components: &[StampedValue], number: u32) -> Option<usize>
    ensures { result ≡ position (λ s. value_number s.value == number) components.now }
{
    components
        .iter()
        .position(|stored| stored.value.number() == number)
}
