// The columns of a query of a view: taken of a world, or shared by it.

ghost use Rattle.std.specs.Prelude.{◌≡◌, ◌+◌, ◌≤◌, ◌++◌, [], length, map, IfOk, OnOk, OnErr};
ghost use Rattle.std.specs.Vec.{vec_len, vec_capacity};
ghost use Rattle.archetype_store.specs.Lending.{CanTake, CanShare, CanComeHome, all_away, all_home};
ghost use Rattle.query_plan.specs.Picks.{pick_seen};
ghost use Rattle.body.specs.HeldColumns.{held_seen};
ghost use Rattle.body.specs.Lent.{lent_of, with_away};
ghost use Rattle.body.specs.Picked.{spot_of, spot_seen, picked_own, picked_read, AreRequestsOf, AreOwnOf, AreReadOf, AreSpotsHome, AreOtherSpots, AreHeldOf};

use crate::closing::put_columns;
use crate::room::QueryRoom;
use crate::view_column::{ColumnAccess, ViewColumn};
use archetype_store::World;
use archetype_store::store::ColumnAt;
use query_plan::Pick;
use query_plan::spares::take_list;
use std::alloc::{AllocError, Global};
use std::snapshot::Snapshot;

// Where the picks of a query are: the written ones, and the others.
#[derive(Drop)]
pub(crate) struct ColumnRequests {
    own: Vec<ColumnAt>,
    read: Vec<ColumnAt>,
}

impl ColumnRequests {
    // Of no picks.
    pub(crate) fn none(alloc: Global) -> Self
        ensures own { result.own.items ≡ [] }
        ensures read { result.read.items ≡ [] }
    {
        ColumnRequests {
            own: Vec::new(alloc),
            read: Vec::new(alloc),
        }
    }

    // Where these picks are, in the room of those before.
    pub(crate) fn fill(&mut self, picks: &[Pick]) -> Result<(), AllocError>
        ensures own { OnOk result (map spot_seen self.new.own.items
            ≡ map spot_of (picked_own (map pick_seen picks.now))) }
        ensures read { OnOk result (map spot_seen self.new.read.items
            ≡ map spot_of (picked_read (map pick_seen picks.now))) }
    {
        self.own.clear();
        self.read.clear();
        for pick in picks {
            let at = ColumnAt {
                archetype: pick.archetype,
                kind: pick.kind,
            };
            if pick.is_written {
                self.own.push(at)?;
            } else {
                self.read.push(at)?;
            }
        }
        Ok(())
    }
}

// Takes columns out of a world at these places, and holds them in an empty list that has room for them. After an error the world is as it was.
fn hold_own(
    alloc: Global,
    spots: &[ColumnAt],
    world: &mut World,
    columns: Vec<ViewColumn>,
) -> Result<Vec<ViewColumn>, AllocError>
    requires can { CanTake world.old.layout spots.now }
    requires empty { columns.items ≡ [] }
    requires room { length spots.now ≤ vec_capacity columns }
    ensures held { IfOk result (λ held. AreOwnOf world.old spots.now (map held_seen held.items)) }
    ensures away { OnOk result (world.new
        ≡ record {
          state = world.old.state;
          layout = all_away spots.now world.old.layout;
        }) }
    ensures len { IfOk result (λ held. vec_len held ≡ length spots.now) }
    ensures capacity { IfOk result (λ held. vec_capacity held ≡ vec_capacity columns) }
    ensures err { OnErr result (world.new ≡ world.old) }
{
    // Tell how the layout is that of the state, and that no stamp is above the clock.
    world.prove_laid();
    let _now = world.now();
    let mut held = columns;
    for at in spots {
        match world.take_column(alloc, at.archetype, at.kind) {
            Ok(column) => held.push_reserved(ViewColumn {
                archetype: at.archetype,
                cells: ColumnAccess::Written(column),
                world: Snapshot::of(world),
            }),
            Err(_) => {
                let _list = put_columns(held, world);
                return Err(AllocError);
            }
        }
    }
    Ok(held)
}

// Holds columns that a world shares at these places, behind those of a list that has room for them. After an error the columns of the list are
// home again.
fn hold_read(
    alloc: Global,
    spots: &[ColumnAt],
    world: &mut World,
    columns: Vec<ViewColumn>,
) -> Result<Vec<ViewColumn>, AllocError>
    requires can { CanShare world.old.layout spots.now }
    requires lent { CanComeHome (lent_of (map held_seen columns.items)) world.old }
    requires room { vec_len columns + length spots.now ≤ vec_capacity columns }
    ensures held { IfOk result (λ held. AreReadOf world.old spots.now
        (map held_seen columns.items) (map held_seen held.items)) }
    ensures same { OnOk result (world.new ≡ world.old) }
    ensures err { OnErr result (world.new
        ≡ all_home (lent_of (map held_seen columns.items)) world.old) }
{
    let mut held = columns;
    for at in spots {
        match world.share_column(alloc, at.archetype, at.kind) {
            Ok(column) => held.push_reserved(ViewColumn {
                archetype: at.archetype,
                cells: ColumnAccess::Read(column),
                world: Snapshot::of(world),
            }),
            Err(_) => {
                let _list = put_columns(held, world);
                return Err(AllocError);
            }
        }
    }
    Ok(held)
}

// The columns of picks whose places these requests are: taken of a world where they are written, else shared by it. They stand in an empty list.
// After an error the world is as it was.
pub(crate) fn take_requested(
    alloc: Global,
    _picks: &[Pick],
    requests: &ColumnRequests,
    world: &mut World,
    columns: Vec<ViewColumn>,
) -> Result<Vec<ViewColumn>, AllocError>
    requires requests { AreRequestsOf (map pick_seen _picks.now) requests.now.own.items
        requests.now.read.items }
    requires home { AreSpotsHome world.old.layout (map pick_seen _picks.now) }
    requires others { AreOtherSpots (map pick_seen _picks.now) }
    requires empty { columns.items ≡ [] }
    ensures held { IfOk result (λ held. AreHeldOf world.old
        (picked_own (map pick_seen _picks.now) ++ picked_read (map pick_seen _picks.now))
        (map held_seen held.items)) }
    ensures away { IfOk result (λ held. world.new
        ≡ record {
          state = world.old.state;
          layout = with_away (lent_of (map held_seen held.items)) world.old.layout;
        }) }
    ensures err { OnErr result (world.new ≡ world.old) }
{
    // Tell how the layout is that of the state, and that no stamp is above the clock.
    world.prove_laid();
    let _now = world.now();
    let mut columns = columns;
    columns.reserve(requests.own.len() + requests.read.len())?;
    let own = hold_own(alloc, &requests.own, world, columns)?;
    let held = hold_read(alloc, &requests.read, world, own)?;
    Ok(held)
}

// The columns that a query picks: taken of a world where they are written, else shared by it. They stand in a list of this room, and so do the
// requests for them. After an error the world is as it was.
pub(crate) fn take_picked(
    alloc: Global,
    picks: &[Pick],
    world: &mut World,
    room: &mut QueryRoom,
) -> Result<Vec<ViewColumn>, AllocError>
    requires home { AreSpotsHome world.old.layout (map pick_seen picks.now) }
    requires others { AreOtherSpots (map pick_seen picks.now) }
    ensures held { IfOk result (λ columns. AreHeldOf world.old
        (picked_own (map pick_seen picks.now) ++ picked_read (map pick_seen picks.now))
        (map held_seen columns.items)) }
    ensures away { IfOk result (λ columns. world.new
        ≡ record {
          state = world.old.state;
          layout = with_away (lent_of (map held_seen columns.items)) world.old.layout;
        }) }
    ensures err { OnErr result (world.new ≡ world.old) }
{
    let columns = take_list(&mut room.columns, alloc);
    let requests = &mut room.requests;
    requests.fill(picks)?;
    let held = take_requested(alloc, picks, requests, world, columns)?;
    Ok(held)
}
