// The entities of a table, their order, and the copy of them that readers elsewhere have a part in.

ghost use Rattle.std.specs.Arc.{arc_value};
ghost use Rattle.std.specs.Prelude.{◌≡◌, ◌+◌, ◌<◌, ◌≤◌, ◌++◌, ◌∷◌, [], length, IfOk, OnOk};
ghost use Rattle.column_store.specs.Order.{is_same, AreApart};
ghost use Rattle.column_store.specs.Places.{IsNowhere};
ghost use Rattle.column_store.specs.RowOrder.{OrdersRows};
ghost use Rattle.column_store.specs.Swapped.{swap_removed};

use crate::gap_list::GapList;
use crate::row_numbers::{comes_behind, ensure_listed, put_number, take_number};
use crate::row_order::RowOrder;
use entity_table::Entity;
use std::alloc::{AllocError, Global};
use std::marker::Model;
use std::mem;
use std::sync::Arc;

// The entities of a table, row by row, and beside them the order in which their ids rise: the rows as they stand, or their numbers. To be read
// elsewhere too the entities are copied once, for all readers together, and the copy is kept until rows change: so rows change without
// allocating, whoever still reads. The room of a copy that nobody reads any more is used for the next one.
#[derive(Drop)]
pub(crate) struct EntityList {
    list: Vec<Entity>,
    // Whether the numbers are those of the rows, in rising ids: else ids rise row by row.
    listed: bool,
    numbers: GapList,
    copy: Option<Arc<Vec<Entity>, Global>>,
    spare: Vec<Entity>,
}

impl Model for EntityList {
    ghost use Rattle.std.specs.Prelude.{min, vec_capacity};
    ghost use Rattle.column_store.specs.EntityList.{EntityListValue, row_limit, IsEntityList};

    ghost Value = { EntityListValue };

    ghost view = { λ l. record {
      list = l.list.items;
      room = min (min (vec_capacity l.list) l.numbers.room) row_limit;
    } };

    ghost invariant = { λ l. IsEntityList l.list.items l.listed l.numbers l.copy };
}

// So many rows have numbers of 32 bits.
const ROW_LIMIT: usize = u32::MAX as usize;

impl EntityList {
    // No entities.
    pub(crate) fn new(alloc: Global) -> Self
        ensures { result ≡ record { list = []; room = 0 } }
    {
        EntityList {
            list: Vec::new(alloc),
            listed: false,
            numbers: GapList::new(alloc),
            copy: None,
            spare: Vec::new(alloc),
        }
    }

    // The same entities once more, of which readers elsewhere have no part.
    pub(crate) fn copy(&self, alloc: Global) -> Result<Self, AllocError>
        ensures { IfOk result (λ copy. copy.list ≡ self.now.list) }
    {
        let list = Vec::from_slice(alloc, self.list.as_slice())?;
        let numbers = self.numbers.copy(alloc)?;
        Ok(EntityList {
            list,
            listed: self.listed,
            numbers,
            copy: None,
            spare: Vec::new(alloc),
        })
    }

    // The entities.
    pub(crate) fn as_slice(&self) -> &[Entity]
        ensures entities { result.now ≡ self.now.list }
        ensures apart { AreApart result.now }
    {
        self.list.as_slice()
    }

    // The order of the rows, in which ids rise.
    pub(crate) fn order(&self) -> RowOrder<'_>
        ensures { OrdersRows self.now.list result }
    {
        if self.listed {
            self.numbers.order()
        } else {
            RowOrder::Rising
        }
    }

    // Makes room for so many further entities.
    pub(crate) fn reserve(&mut self, further: usize) -> Result<(), AllocError>
        ensures same { self.new ≡ record self.old { room = self.new.room } }
        ensures room { self.old.room ≤ self.new.room }
        ensures ok { OnOk result (length self.old.list + further ≤ self.new.room) }
    {
        let count = self.list.len();
        if further > ROW_LIMIT - count {
            return Err(AllocError);
        }
        self.list.reserve(further)?;
        self.numbers.reserve(count + further)
    }

    // Adds an entity that isn't there at the end, and its number to those of the rows.
    fn push_listed(&mut self, e: Entity)
        requires absent { IsNowhere (λ x. is_same x e) self.old.list }
        requires room { length self.old.list < self.old.room }
        ensures list { self.new.list ≡ self.old.list ++ e ∷ [] }
        ensures room { self.old.room ≤ self.new.room }
    {
        self.copy = None;
        ensure_listed(&self.list, &mut self.listed, &mut self.numbers);
        put_number(&self.list, &mut self.numbers, e);
        self.list.push_reserved(e);
    }

    // Adds an entity that isn't there at the end, where there is room.
    pub(crate) fn push(&mut self, e: Entity)
        requires absent { IsNowhere (λ x. is_same x e) self.old.list }
        requires room { length self.old.list < self.old.room }
        ensures list { self.new.list ≡ self.old.list ++ e ∷ [] }
        ensures room { self.old.room ≤ self.new.room }
    {
        keep_room(self.copy.take(), &mut self.spare);
        if !self.listed && comes_behind(&self.list, e) {
            self.list.push_reserved(e);
            return;
        }
        self.push_listed(e);
    }

    // Removes the entity of a row, and moves the last one there, and takes the number from those of the rows.
    fn swap_remove_listed(&mut self, row: usize)
        requires { row < length self.old.list }
        ensures list { self.new.list ≡ swap_removed self.old.list row }
        ensures room { self.new.room ≡ self.old.room }
    {
        self.copy = None;
        ensure_listed(&self.list, &mut self.listed, &mut self.numbers);
        take_number(&self.list, &mut self.numbers, row);
        self.list.swap_remove(row);
        self.listed = !self.list.is_empty();
    }

    // Removes the entity of a row, and moves the last one there.
    pub(crate) fn swap_remove(&mut self, row: usize)
        requires { row < length self.old.list }
        ensures list { self.new.list ≡ swap_removed self.old.list row }
        ensures room { self.new.room ≡ self.old.room }
    {
        keep_room(self.copy.take(), &mut self.spare);
        if !self.listed && row + 1 == self.list.len() {
            self.list.swap_remove(row);
            return;
        }
        self.swap_remove_listed(row);
    }

    // The entities, to be read elsewhere too.
    pub(crate) fn share(&mut self, alloc: Global) -> Result<Arc<Vec<Entity>, Global>, AllocError>
        ensures shared { IfOk result (λ list. (arc_value list).items ≡ self.old.list) }
        ensures same { self.new ≡ self.old }
    {
        if let Some(copy) = &self.copy {
            return Arc::try_clone(copy);
        }
        let mut list = mem::replace(&mut self.spare, Vec::new(alloc));
        list.clear();
        list.reserve(self.list.len())?;
        list.extend_from_slice(&self.list)?;
        let Ok(copy) = Arc::new(alloc, list) else {
            return Err(AllocError);
        };
        let shared = Arc::try_clone(&copy)?;
        self.copy = Some(copy);
        Ok(shared)
    }
}

// Keeps the room of a copy that nobody else reads any more.
fn keep_room(copy: Option<Arc<Vec<Entity>, Global>>, room: &mut Vec<Entity>) {
    let Some(copy) = copy else {
        return;
    };
    if let Some(list) = Arc::into_inner(copy) {
        *room = list;
    }
}
