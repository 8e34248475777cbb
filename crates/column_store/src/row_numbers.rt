// The numbers of rows in rising ids: one is found by halving, and put in or taken out.

ghost use Rattle.std.specs.Prelude.{◌≡◌, ◌+◌, ◌<◌, ◌≤◌, ◌^◌, ◌++◌, ◌∷◌, ◌&&◌, [], true, cond, nat_lt, length, map};
ghost use Rattle.column_store.specs.EntityList.{IsKept};
ghost use Rattle.column_store.specs.Order.{is_before, is_same, AreRising};
ghost use Rattle.column_store.specs.Places.{IsGap, IsNowhere};
ghost use Rattle.column_store.specs.RowOrder.{entity_at, IsOrderOf};
ghost use Rattle.column_store.specs.Swapped.{swap_removed};

use crate::gap_list::GapList;
use crate::order::is_before;
use entity_table::Entity;

// Whether a row is there, and its entity comes before another.
fn comes_before(entities: &[Entity], row: u32, e: Entity) -> bool
    ensures { result
        ≡ (nat_lt row (length entities.now) && is_before (entity_at entities.now row) e) }
{
    (row as usize) < entities.len() && is_before(entities[row as usize], e)
}

// The place that is looked at between two others: one that is guessed, where it lies there, else the middle.
fn looked_at(low: usize, high: usize, guess: usize) -> usize
    requires { low < high }
    ensures low { low ≤ result }
    ensures high { result < high }
{
    if low <= guess && guess < high {
        guess
    } else {
        low + (high - low) / 2
    }
}

// How many rows are of entities that come before this one: found from a place on by steps that double, and between two of them by halving. So it
// costs little where it is near that place.
fn gap_of(entities: &[Entity], numbers: &GapList, e: Entity, near: usize) -> usize
    requires { IsOrderOf entities.now numbers.now.items }
    ensures { IsGap e (map (entity_at entities.now) numbers.now.items) result }
{
    let mut low = 0;
    let mut high = numbers.len();
    let mut guess = near;
    let mut stride = 1usize;
    while low < high {
        let place = looked_at(low, high, guess);
        let step = stride;
        stride = step.wrapping_mul(2);
        if comes_before(entities, numbers.at(place), e) {
            low = place + 1;
            guess = place.wrapping_add(step);
        } else {
            high = place;
            guess = place.wrapping_sub(step);
        }
    }
    low
}

// Lists the numbers of the rows in rising ids, where they aren't, so that ids rise row by row.
pub(crate) fn ensure_listed(entities: &[Entity], listed: &mut bool, numbers: &mut GapList)
    requires kept { IsKept entities.now listed.old numbers.old.items }
    requires many { length numbers.old.items ≡ cond listed.old (length entities.now) 0 }
    requires room { length entities.now ≤ numbers.old.room }
    requires few { length entities.now < 2 ^ 32 }
    ensures listed { listed.new ≡ true }
    ensures order { IsOrderOf entities.now numbers.new.items }
    ensures many { length numbers.new.items ≡ length entities.now }
    ensures room { numbers.new.room ≡ numbers.old.room }
{
    if *listed {
        return;
    }
    numbers.count_up(entities.len());
    *listed = true;
}

// Whether an entity comes behind all of them, so that ids rise with it too where they do.
pub(crate) fn comes_behind(entities: &[Entity], e: Entity) -> bool
    ensures { AreRising entities.now → result ≡ true → AreRising (entities.now ++ e ∷ []) }
{
    let count = entities.len();
    if count == 0 {
        return true;
    }
    is_before(entities[count - 1], e)
}

// Puts the number of a further row in, which is that of an entity that has none, where there is room.
pub(crate) fn put_number(entities: &[Entity], numbers: &mut GapList, e: Entity)
    requires order { IsOrderOf entities.now numbers.old.items }
    requires absent { IsNowhere (λ x. is_same x e) entities.now }
    requires room { length numbers.old.items < numbers.old.room }
    requires few { length entities.now < 2 ^ 32 }
    ensures order { IsOrderOf (entities.now ++ e ∷ []) numbers.new.items }
    ensures many { length numbers.new.items ≡ length numbers.old.items + 1 }
    ensures room { numbers.old.room ≤ numbers.new.room }
{
    let gap = gap_of(entities, numbers, e, numbers.gap());
    numbers.insert(gap, entities.len() as u32);
}

// Takes the number of a row out, into which the last row is moved.
pub(crate) fn take_number(entities: &[Entity], numbers: &mut GapList, row: usize)
    requires order { IsOrderOf entities.now numbers.old.items }
    requires within { row < length entities.now }
    requires few { length entities.now < 2 ^ 32 }
    ensures order { IsOrderOf (swap_removed entities.now row) numbers.new.items }
    ensures many { length numbers.new.items + 1 ≡ length numbers.old.items }
    ensures room { numbers.new.room ≡ numbers.old.room }
{
    let last = entities.len() - 1;
    let place = gap_of(entities, numbers, entities[row], numbers.gap());
    let near = if row == last {
        place
    } else {
        numbers.replaced()
    };
    let moved = gap_of(entities, numbers, entities[last], near);
    numbers.set(moved, row as u32);
    numbers.remove(place);
}
