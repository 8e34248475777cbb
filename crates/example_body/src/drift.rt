// A body of this program's own: what it means, what it fits, and the code that keeps to that.

ghost use Rattle.std.specs.Prelude.{◌≡◌, ◌<◌, ◌+ℤ◌, length, IsTrue, Ok};
ghost use Rattle.std.specs.Int.{saturate_signed};
ghost use mir.Syntax.{w64};
ghost use Rattle.model.specs.shown.Outcome.{untouched};
ghost use Rattle.body.specs.Seen.{rows_at, read_at, with_written};
ghost use Rattle.example_body.specs.Drift.{position, velocity, moved, drifted, may_drift};

use access_set::Params;
use body::{Body, BodyFault, View};
use kinds::Kind;
use kinds::component::{Position, Velocity};

/// A body that moves every row of its first query by its velocity.
#[derive(Drop)]
pub struct Drift;

impl Body for Drift {
    ghost meaning = { λ _ params shown. Ok (drifted params shown) };

    ghost fits = { λ _ params. may_drift params };

    #[tactic(auto, using(crate::proofs::BodiesWithin::drifted_keeps))]
    fn fits(&self, params: &Params) -> bool {
        match params.queries().first() {
            Some(query) => query.writes(Kind::Position),
            None => false,
        }
    }

    fn run(&mut self, view: &mut View) -> Result<(), BodyFault> {
        view.prove_law();
        drift_rows(view);
        Ok(())
    }
}

// Moves every row.
fn drift_rows(view: &mut View)
    requires fits { IsTrue (may_drift view.old.params) }
    requires rows { length view.old.shown.rows ≡ length view.old.params.queries }
    requires untouched { view.old.outcome ≡ untouched view.old.params view.old.shown }
    ensures outcome { view.new.outcome ≡ drifted view.old.params view.old.shown }
    ensures shown { view.new.shown ≡ view.old.shown }
    ensures params { view.new.params ≡ view.old.params }
    ensures opening { view.new.opening ≡ view.old.opening }
{
    for row in 0..view.rows(0) {
        drift_row(view, row);
    }
}

// Moves a row.
fn drift_row(view: &mut View, row: usize)
    requires fits { IsTrue (may_drift view.old.params) }
    requires query { 0 < length view.old.shown.rows }
    requires row { row < length (rows_at view.old.shown 0) }
    ensures { view.new
        ≡ with_written view.old 0 row position (moved (read_at view.old 0 row position) (read_at
        view.old 0 row velocity)) }
{
    let place = view
        .get::<Position>(0, row)
        .unwrap_or(Position { x: 0, y: 0 });
    let step = view
        .get::<Velocity>(0, row)
        .unwrap_or(Velocity { x: 0, y: 0 });
    view.set(0, row, moved_by(place, step));
}

// A place after a step, each axis cut to the least or the greatest value of 64 bits.
fn moved_by(place: Position, step: Velocity) -> Position
    ensures x { result.x ≡ saturate_signed w64 (place.x +ℤ step.x) }
    ensures y { result.y ≡ saturate_signed w64 (place.y +ℤ step.y) }
{
    Position {
        x: place.x.saturating_add(step.x),
        y: place.y.saturating_add(step.y),
    }
}
