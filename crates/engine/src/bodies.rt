// The bodies of the systems of a schedule, each in its place.

ghost use Rattle.std.specs.Prelude.{◌≡◌, ◌<◌, true, [], length, map, set, Some, None, is_some, IfOk, IsSomeAnd, IsTrue, MatchBool};
ghost use Rattle.model.specs.shown.Outcome.{untouched};
ghost use Rattle.model.specs.runs.RunState.{body_of};
ghost use Rattle.model.specs.steps.Schedule.{params_of};
ghost use Rattle.body.specs.Keeps.{CanBeShown, KeepsWithin};
ghost use Rattle.worker_pool.specs.Ran.{Ran};
ghost use Rattle.engine.specs.Meanings.{body_at, fits_at, meanings, AllKeepWithin, AreFit};

use body::{Body, BodyFault, View};
use schedule_builder::Built;
use std::alloc::{AllocError, Global};
use std::marker::Model;

/// A place for the body of each system, empty while the body is out. Contracts see for each system its body where that is at home.
#[derive(Drop)]
pub(crate) struct Bodies<B> {
    places: Vec<Option<B>>,
}

impl<B> Model for Bodies<B> {
    ghost use Rattle.std.specs.Prelude.{List, Option};

    ghost Value = { List (Option B) };

    ghost view = { λ b. b.places.items };
}

impl<B: Drop> Bodies<B> {
    /// No place at all.
    pub(crate) fn none(alloc: Global) -> Self
        ensures { result ≡ [] }
    {
        Bodies {
            places: Vec::new(alloc),
        }
    }

    /// Bodies that are all at home.
    pub(crate) fn all(alloc: Global, bodies: Vec<B>) -> Result<Self, AllocError>
        ensures { IfOk result (λ places. places ≡ map Some bodies.items) }
    {
        let places = bodies.into_iter().map(Some).collect(alloc)?;
        Ok(Bodies { places })
    }

    /// Takes the body of a system from its place.
    pub(crate) fn take(&mut self, system: usize) -> B
        requires there { is_some (body_at self.old system) ≡ true }
        ensures body { body_at self.old system ≡ Some result }
        ensures taken { self.new ≡ set self.old system None }
    {
        let place = &mut self.places[system];
        let Some(body) = place.take() else {
            unreachable!()
        };
        body
    }

    /// Puts a body in the place of a system. Where there is none the body is dropped.
    pub(crate) fn put(&mut self, system: usize, body: B)
        ensures { self.new ≡ set self.old system (Some body) }
    {
        if let Some(place) = self.places.get_mut(system) {
            *place = Some(body);
        }
    }
}

impl<B: Body> Bodies<B> {
    /// Runs the body of a system in its place.
    pub(crate) fn run(&mut self, system: usize, view: &mut View) -> Result<(), BodyFault>
        requires fits { IsSomeAnd (body_at self.old system) (λ body. IsTrue (B.fits body
            view.old.params)) }
        requires showing { CanBeShown view.old.params view.old.shown }
        requires untouched { view.old.outcome ≡ untouched view.old.params view.old.shown }
        ensures { IsSomeAnd (body_at self.old system) (λ body. (later : B)
            × (self.new ≡ set self.old system (Some later))
            × Ran B.meaning B.fits 0 system body view.old 0 system later view.new result) }
    {
        let Some(body) = &mut self.places[system] else {
            unreachable!()
        };
        body.run(view)
    }

    /// Whether there is a body for each system, and each fits its parameters. If so, each keeps within them.
    pub(crate) fn all_fit(&self, built: &Built) -> bool
        ensures fit { MatchBool result (AreFit B.fits built.now self.now) (AreFit B.fits built.now
            self.now
            → ⊥) }
        ensures keep { IsTrue result
            → AllKeepWithin built.now (meanings B.meaning built.now self.now) }
    {
        if self.places.len() != built.count() as usize {
            return false;
        }
        for system in 0..built.count() {
            if !self.is_fit(built, system) {
                return false;
            }
        }
        true
    }

    // Whether the body of a system is at home and fits its parameters. If so, it keeps within them.
    fn is_fit(&self, built: &Built, system: u32) -> bool
        requires count { length self.now ≡ length built.now.systems }
        requires known { system < length built.now.systems }
        ensures exact { result ≡ fits_at B.fits built.now self.now system }
        ensures keeps { IsTrue result
            → KeepsWithin (params_of built.now system) (body_of
            (meanings B.meaning built.now self.now) system) }
    {
        match &self.places[system as usize] {
            Some(body) => body.fits(built.params(system)),
            None => false,
        }
    }
}
