// What changes of entities make of the id book.

ghost use Rattle.std.specs.List.{AllByRecursion};
ghost use Rattle.std.specs.Prelude.{◌≡◌, true};
ghost use Rattle.model.specs.Lists.{update_at};
ghost use Rattle.model.specs.state.Commands.{is_alive};
ghost use Rattle.entity_table.specs.Ids.{IsBook};
ghost use Rattle.archetype_store.specs.Changes.{living_slot, settled_slot, book_changed, AreOfOtherIndices, IsHeldBy};

use crate::change::{EntityChange, Fate};
use entity_table::EntityTable;

// It is a book: who doesn't live has no row.
pub(crate) fn prove_book(book: &EntityTable)
    ensures { IsBook book.now }
{
    book.len();
}

// An entity that lives, or is granted, lives.
fn wake(book: &mut EntityTable, change: &EntityChange)
    requires { IsHeldBy book.old change.now }
    ensures woken { book.new ≡ update_at change.now.entity.index living_slot book.old }
    ensures lives { is_alive book.new change.now.entity ≡ true }
{
    prove_book(book);
    if !book.lives(change.entity) {
        book.spawn_at(change.entity);
    }
}

// An entity that lives, or is granted, lives or lives no more.
fn settle_one(book: &mut EntityTable, change: &EntityChange)
    requires { IsHeldBy book.old change.now }
    ensures { book.new ≡ update_at change.now.entity.index (settled_slot change.now.fate) book.old }
{
    wake(book, change);
    if let Fate::Dies = change.fate {
        book.despawn(change.entity);
    }
}

// Such entities live or live no more, as each change says. It allocates nothing.
pub(crate) fn settle_all(book: &mut EntityTable, changes: &[EntityChange])
    requires apart { AreOfOtherIndices changes.now }
    requires held { AllByRecursion (IsHeldBy book.old) changes.now }
    ensures { book.new ≡ book_changed changes.now book.old }
{
    for change in changes {
        settle_one(book, change);
    }
}
