// The world: entities with their components, resources and the clock.

ghost use Rattle.std.specs.List.{AllByRecursion};
ghost use Rattle.std.specs.Prelude.{◌≡◌, ◌+◌, ◌≤◌, ◌<◌, ◌↔◌, ℕ, false, [], Some, length, map, option_map, is_some, IfSome, IsTrue, IfOk, IsErr, OnOk, OnErr};
ghost use Rattle.kinds.specs.Components.{widths};
ghost use Rattle.kinds.specs.Kind.{kind_number};
ghost use Rattle.kinds.specs.Res.{res_number};
ghost use Rattle.model.specs.Lists.{is_there};
ghost use Rattle.model.specs.shown.Input.{value_of, words_of};
ghost use Rattle.model.specs.state.KindSets.{kind_sets_of};
ghost use Rattle.model.specs.state.Rows.{row_at};
ghost use Rattle.model.specs.state.Shape.{IsWorld};
ghost use Rattle.model.specs.state.State.{last_tick};
ghost use Rattle.column_store.specs.RowOrder.{OrdersRows};
ghost use Rattle.archetype_store.specs.Changes.{changed};
ghost use Rattle.archetype_store.specs.Layout.{archetype_at, IsLayoutOf, AreAllHome, IsCellHome, IsRowHome};
ghost use Rattle.archetype_store.specs.Places.{IsRowPlace};
ghost use Rattle.archetype_store.specs.Resources.{changed_of};
ghost use Rattle.archetype_store.specs.Row.{component_of};
ghost use Rattle.archetype_store.specs.Shapes.{shape_number, fitting_from};
ghost use Rattle.archetype_store.specs.Slot.{cell_of};
ghost use Rattle.archetype_store.specs.Store.{empty_world, with_resource, at_clock, stamp_of};
ghost use Rattle.archetype_store.specs.View.{kinds_seen, entities_seen};
ghost use Rattle.column_store.specs.Order.{AreApart as AreRowsApart};

mod changes;
mod columns;
mod ids;
mod spawn;

use crate::change::EntityChange;
pub use crate::columns::{ColumnAt, SharedColumn, TakenColumn};
use crate::entity_rows::Rows;
use crate::kind_sets::{entities_in, sets_of};
pub use crate::locations::RowPlace;
use crate::resources::Resources;
use crate::shapes::Shape;
use crate::table_index::TableIndex;
pub use crate::tables::ArchetypeView;
use crate::tables::{view_at, views_of};
use change_ticks::{Clock, ClockSpent, Stamp, Tick};
use column_store::Components;
use entity_table::{Entity, EntityTable};
use kinds::{Component, Kind, Res};
use model::KindSets;
use std::alloc::{AllocError, Global};
use std::marker::Model;

/// The world. Contracts see its state (slots by index, resources by number, the clock) and its layout: the archetypes
/// that have entities.
pub struct World {
    ids: EntityTable,
    rows: Rows,
    // Where tables are found: by their kinds, and by the numbers of archetypes.
    index: TableIndex,
    resources: Resources,
    clock: Clock,
    // The list of the changes that were made last, which is used again. It has no elements.
    change_list: Vec<EntityChange>,
}

// One function drops it wherever it is let go.
impl Drop for World {
    fn drop(self) {
        let World {
            ids: _,
            rows: _,
            index: _,
            resources: _,
            clock: _,
            change_list: _,
        } = self;
    }
}

impl Model for World {
    ghost use Rattle.archetype_store.specs.Store.{StoreValue};
    ghost use Rattle.archetype_store.specs.Inside.{store_seen, IsStore};

    ghost Value = { StoreValue };

    ghost view = { λ w. store_seen w.ids w.rows w.resources w.clock };

    ghost invariant = { λ w. IsStore w.ids w.rows w.index w.resources w.clock };
}

impl World {
    /// The world without entities, at this clock. Each resource is 0, changed at tick 1.
    pub fn new(alloc: Global, clock: Clock) -> Result<World, AllocError>
        ensures { IfOk result (λ w. w ≡ record { state = empty_world clock; layout = [] }) }
    {
        Ok(World::empty(alloc, clock))
    }

    /// The same, which allocates nothing.
    pub fn empty(alloc: Global, clock: Clock) -> World
        ensures { result ≡ record { state = empty_world clock; layout = [] } }
    {
        // Proves that the clock stands at one of its ticks.
        let _now = clock.now();
        World {
            ids: EntityTable::new(alloc),
            rows: Rows::new(alloc),
            index: TableIndex::new(alloc),
            resources: Resources::new(),
            clock,
            change_list: Vec::new(alloc),
        }
    }

    /// The same world once more, where all columns are at home. The columns of the copy are its alone, whoever reads
    /// those of this world. A later call on one of the two leaves the other as it is. Where an allocation fails there
    /// is no copy.
    pub fn copy(&self, alloc: Global) -> Result<World, AllocError>
        requires { AreAllHome self.now.layout }
        ensures { IfOk result (λ copy. copy ≡ self.now) }
    {
        let ids = self.ids.copy(alloc)?;
        let rows = self.rows.copy(alloc)?;
        let index = self.index.copy(alloc)?;
        Ok(World {
            ids,
            rows,
            index,
            resources: self.resources.copy(),
            clock: self.clock,
            change_list: Vec::new(alloc),
        })
    }

    /// The tick of the clock.
    pub fn now(&self) -> Tick
        ensures value { result ≡ self.now.state.clock }
        ensures world { IsWorld widths self.now.state }
    {
        self.clock.now()
    }

    /// Moves the clock to the next tick, and gives that tick. At the last tick the clock is spent and nothing changes.
    pub fn next(&mut self) -> Result<Tick, ClockSpent>
        ensures ok { IfOk result (λ tick. tick ≡ self.old.state.clock + 1) }
        ensures moved { OnOk result (self.new.state
            ≡ at_clock (self.old.state.clock + 1) self.old.state) }
        ensures layout { self.new.layout ≡ self.old.layout }
        ensures spent { IsErr result ↔ (self.old.state.clock ≡ last_tick) }
        ensures err { OnErr result (self.new ≡ self.old) }
    {
        self.clock.next()
    }

    // The state has the shape of a world.
    fn prove_shape(&self)
        ensures { IsWorld widths self.now.state }
    {
        let _ = &self.clock;
    }

    /// The archetypes that have entities: the kinds of each, and its entities in the order of their rows.
    pub fn archetypes(&self, alloc: Global) -> Result<Vec<ArchetypeView<'_>>, AllocError>
        ensures kinds { IfOk result (λ views. map kinds_seen views.items
            ≡ map (λ a. a.kinds) self.now.layout) }
        ensures entities { IfOk result (λ views. map entities_seen views.items
            ≡ map (λ a. a.entities) self.now.layout) }
        ensures apart { IfOk result (λ views. AllByRecursion
            (λ view. AreRowsApart (entities_seen view)) views.items) }
        ensures order { IfOk result (λ views. AllByRecursion
            (λ view. OrdersRows (entities_seen view) view.order) views.items) }
    {
        views_of(alloc, self.rows.tables())
    }

    /// The archetype of a number.
    pub fn archetype(&self, archetype: usize) -> ArchetypeView<'_>
        requires { archetype < length self.now.layout }
        ensures kinds { kinds_seen result ≡ (archetype_at self.now.layout archetype).kinds }
        ensures entities { entities_seen result
            ≡ (archetype_at self.now.layout archetype).entities }
        ensures apart { AreRowsApart (entities_seen result) }
        ensures order { OrdersRows (entities_seen result) result.order }
    {
        let Some(table) = self.index.table_of(archetype) else {
            unreachable!();
        };
        view_at(self.rows.tables(), table)
    }

    /// How many archetypes have entities.
    pub fn archetype_count(&self) -> usize
        ensures { result ≡ length self.now.layout }
    {
        self.index.len()
    }

    /// Keeps a shape: from now on the archetypes that fit it are found without a walk over the others. It gives the number of the shape,
    /// the same for an equal shape and another for another one, and nothing that contracts see has changed.
    pub fn register(&mut self, shape: &Shape) -> Result<usize, AllocError>
        ensures number { IfOk result (λ number. number ≡ shape_number shape.now) }
        ensures same { self.new ≡ self.old }
    {
        let alloc = *self.change_list.allocator();
        self.index.register(alloc, self.rows.tables(), *shape)
    }

    /// Lists the archetypes that fit the shape of a number, by their numbers in rising order, in the room of a list. Whether a shape of this
    /// number is kept: where none is the list means nothing.
    pub fn fitting(&self, shape: usize, found: &mut Vec<usize>) -> Result<bool, AllocError>
        ensures { IfOk result (λ kept. IsTrue kept
            → found.new.items ≡ fitting_from shape 0 self.now.layout) }
    {
        self.index.find_fitting(shape, found)
    }

    /// The sets of kinds of the living entities. It looks at each table, however many entities there are: somebody lives without components
    /// just where more live than the archetypes have.
    pub fn kind_sets(&self, alloc: Global) -> Result<KindSets, AllocError>
        ensures { IfOk result (λ sets. sets ≡ kind_sets_of self.now.state.slots) }
    {
        self.prove_laid();
        let views = self.archetypes(alloc)?;
        let living = self.ids.living();
        let without = entities_in(&views) < living as usize;
        let sets = sets_of(alloc, &views, without)?;
        Ok(sets)
    }

    /// The layout is that of the state. An entity in an archetype lives with just its kinds, and one that lives with
    /// components is in an archetype. None is without entities, and no two have the same kinds.
    pub fn prove_laid(&self)
        ensures { IsLayoutOf self.now.state.slots self.now.layout }
    {
        self.rows.prove_rows();
    }

    /// No entity is in an archetype twice.
    pub fn prove_apart(&self)
        ensures { AllByRecursion (λ a. AreRowsApart a.entities) self.now.layout }
    {
        self.rows.prove_rows();
    }

    /// Where all columns are at home, those of each entity are.
    pub fn prove_home(&self)
        requires { AreAllHome self.now.layout }
        ensures cells { (index kind : ℕ) → IsCellHome self.now.layout index kind }
        ensures rows { (index : ℕ) → IsRowHome self.now.layout index }
    {}

    /// The component of this kind of an entity that lives: of the columns that of the kind has to be at home in its archetype.
    pub fn get<C: Component>(&self, e: Entity) -> Option<C>
        requires { IsCellHome self.now.layout e.index C.NUMBER }
        ensures { option_map C.words result ≡ words_of (cell_of self.now.state.slots e C.NUMBER) }
    {
        if !self.lives(e) {
            return None;
        }
        match self.rows.cell(e.index, C::kind()) {
            None => None,
            Some(cell) => Some(cell.column.get(cell.row)),
        }
    }

    /// Whether an entity lives and has a component of a kind.
    pub fn has(&self, e: Entity, kind: Kind) -> bool
        ensures { result ≡ is_some (cell_of self.now.state.slots e (kind_number kind)) }
    {
        if !self.lives(e) {
            return false;
        }
        self.rows.has(e.index, kind.number())
    }

    /// The stamps of a component of an entity that lives: of the columns that of the kind has to be at home in its archetype.
    pub fn stamp(&self, e: Entity, kind: Kind) -> Option<Stamp>
        requires { IsCellHome self.now.layout e.index (kind_number kind) }
        ensures { result ≡ option_map stamp_of (cell_of self.now.state.slots e (kind_number kind)) }
    {
        if !self.lives(e) {
            return None;
        }
        match self.rows.cell(e.index, kind) {
            None => None,
            Some(cell) => Some(cell.column.stamp(cell.row)),
        }
    }

    /// Lists the components of an index, in rising kinds, in the room of a list: none unless an entity of it lives. The columns of its
    /// archetype have to be at home.
    pub fn components(&self, index: u32, components: &mut Components) -> Result<(), AllocError>
        requires { IsRowHome self.now.layout index }
        ensures { OnOk result (map component_of components.new.items
            ≡ row_at self.now.state.slots index) }
    {
        self.rows.components(index, components)
    }

    /// Where the components of the entity of an index are: none where no entity of it lives, or where it has none. It touches no column.
    pub fn row_place(&self, index: u32) -> Option<RowPlace>
        ensures there { is_some result ≡ is_there (row_at self.now.state.slots index) }
        ensures place { IfSome result (IsRowPlace self.now.layout index) }
    {
        self.rows.prove_rows();
        match self.rows.place(index) {
            None => None,
            Some(location) => {
                let place = self.rows.number(index);
                let Some(archetype) = self.index.archetype_of(location.table) else {
                    unreachable!();
                };
                let generation = location.generation;
                let entity = Entity { index, generation };
                Some(RowPlace {
                    entity,
                    archetype,
                    place,
                })
            }
        }
    }

    /// The value of a resource.
    pub fn res(&self, res: Res) -> i64
        ensures { result ≡ value_of self.now.state.resources (res_number res) }
    {
        self.resources.value(res)
    }

    /// Writes a resource at a tick.
    pub fn set_res(&mut self, res: Res, value: i64, tick: Tick)
        requires { tick ≤ self.old.state.clock }
        ensures state { self.new.state ≡ with_resource (res_number res) value tick self.old.state }
        ensures layout { self.new.layout ≡ self.old.layout }
    {
        self.resources.set(res, value, tick);
    }

    /// When a resource was last changed.
    pub fn res_changed(&self, res: Res) -> Tick
        ensures { result ≡ changed_of self.now.state.resources (res_number res) }
    {
        self.resources.changed(res)
    }
}
