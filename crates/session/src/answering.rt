// What a session replies to a request.

ghost use Rattle.std.specs.Prelude.{◌≡◌, false, true, None, string_bytes, IfOk};
ghost use Rattle.model.specs.sessions.Inputs.{input_id};
ghost use Rattle.body.specs.Inputs.{input_of};
ghost use Rattle.requests.specs.Asked.{asked_of};
ghost use Rattle.requests.specs.Asked.{Asked as asked};
ghost use Rattle.session.specs.Answers.{IsAnswer, lines_of_input};
ghost use Rattle.session.specs.Entries.{AreRunsOf, HaveText, is_run};
ghost use Rattle.session.specs.Live.{clock_in, state_in};
ghost use Rattle.session.specs.Looks.{is_look, seen_by};
ghost use Rattle.session.specs.Replies.{shown_text};

use crate::reply::{Answered, Refusal, Reply, Shown};
use crate::session::Session;
use body::{Body, Input, State};
use engine::{Crew, InputFault, RunFault, SetFault};
use kinds::Res;
use requests::Request;
use state_lines::events::lines_of_events;
use state_lines::rows::{line_of_entity, lines_of_query};
use state_lines::world::{push_resources, push_world};
use state_text::digest::{digest_of, hex_of};
use state_text::text::values_of_state;
use std::alloc::{AllocError, Global};
use worker_pool::Mode;

impl<B: Body> Session<B> {
    /// Answers a request, its runs in the mode, by a crew whose workers stand wherever the mode has threads, and gives their traces. Where the state
    /// is lost, as it is once a run failed, only a greeting, going back, forgetting and quitting are answered.
    pub fn answer<'s, M: Mode<'s>>(
        &mut self,
        alloc: Global,
        request: &Request<'_>,
        mode: &M,
        crew: &mut Crew<B>,
    ) -> Answered
    where
        B: 's,
        ensures reply { IsAnswer B.meaning (M.has_scope mode.now) (M.width mode.now) self.old
            (asked_of request.now) result.reply self.new }
        ensures runs { AreRunsOf B.meaning (M.width mode.now) self.old (asked_of request.now)
            result.reply result.runs.items self.new }
        ensures text { HaveText result.runs.items }
    {
        match request {
            Request::Run(times) => self.run(alloc, *times, mode, crew),
            request => Answered::still(alloc, self.reply(alloc, request)),
        }
    }

    /// Answers a request as `answer` does in a mode of one thread, on that of the caller. It reaches no code of threads, so a library whose host
    /// may start none can call it.
    pub fn answer_here(&mut self, alloc: Global, request: &Request<'_>) -> Answered
        ensures reply { IsAnswer B.meaning false 1 self.old (asked_of request.now) result.reply
            self.new }
        ensures runs { AreRunsOf B.meaning 1 self.old (asked_of request.now) result.reply
            result.runs.items self.new }
        ensures text { HaveText result.runs.items }
    {
        match request {
            Request::Run(times) => self.run_here(alloc, *times),
            request => Answered::still(alloc, self.reply(alloc, request)),
        }
    }

    // What is replied to a request that asks for no runs.
    fn reply(&mut self, alloc: Global, request: &Request<'_>) -> Reply
        requires { is_run (asked_of request.now) ≡ false }
        ensures { IsAnswer B.meaning false 1 self.old (asked_of request.now) result self.new }
    {
        match request {
            Request::Hello => self.greet(alloc),
            Request::Back(name) => self.go_back(alloc, name),
            Request::Forget(name) => self.forget(name),
            Request::Quit => self.done(Shown::Nothing),
            Request::Run(_) => unreachable!(),
            _ if self.engine.is_spoiled() => Reply::Refused(Refusal::Lost),
            Request::Put(input) => self.put(alloc, input),
            Request::Mark(name) => self.mark(alloc, name),
            Request::Save => self.save(alloc),
            look => self.look(alloc, look),
        }
    }

    // What is replied where all is done, with what is shown.
    pub(crate) fn done(&self, shown: Shown) -> Reply
        ensures { result ≡ Reply.Done (clock_in self.now) shown }
    {
        let clock = if self.engine.is_spoiled() {
            0
        } else {
            self.engine.state().world().now()
        };
        Reply::Done { clock, shown }
    }

    // Greets the host.
    fn greet(&self, alloc: Global) -> Reply
        ensures { IsAnswer B.meaning false 1 self.now asked.Hello result self.now }
    {
        match String::from_str(alloc, self.greeting.as_str()) {
            Ok(lines) => self.done(Shown::Lines(lines)),
            Err(_) => Reply::Failed,
        }
    }

    // Runs the schedule so many times, in the mode.
    fn run<'s, M: Mode<'s>>(
        &mut self,
        alloc: Global,
        times: u32,
        mode: &M,
        crew: &mut Crew<B>,
    ) -> Answered
    where
        B: 's,
        ensures reply { IsAnswer B.meaning (M.has_scope mode.now) (M.width mode.now) self.old
            (asked.Run times) result.reply self.new }
        ensures runs { AreRunsOf B.meaning (M.width mode.now) self.old (asked.Run times)
            result.reply result.runs.items self.new }
        ensures text { HaveText result.runs.items }
    {
        if self.engine.is_spoiled() {
            return Answered::still(alloc, Reply::Refused(Refusal::Lost));
        }
        match self.engine.run_by(alloc, times, &mode.keeping(), crew) {
            Ok(runs) => Answered {
                reply: self.done(Shown::Nothing),
                runs,
            },
            Err(RunFault::Spoiled) => unreachable!(),
            Err(fault) => Answered::still(alloc, Reply::Lost(fault)),
        }
    }

    // The same on the thread of the caller.
    fn run_here(&mut self, alloc: Global, times: u32) -> Answered
        ensures reply { IsAnswer B.meaning false 1 self.old (asked.Run times) result.reply
            self.new }
        ensures runs { AreRunsOf B.meaning 1 self.old (asked.Run times) result.reply
            result.runs.items self.new }
        ensures text { HaveText result.runs.items }
    {
        if self.engine.is_spoiled() {
            return Answered::still(alloc, Reply::Refused(Refusal::Lost));
        }
        match self.engine.run_here(alloc, times) {
            Ok(runs) => Answered {
                reply: self.done(Shown::Nothing),
                runs,
            },
            Err(RunFault::Spoiled) => unreachable!(),
            Err(fault) => Answered::still(alloc, Reply::Lost(fault)),
        }
    }

    // Puts an input in.
    fn put(&mut self, alloc: Global, input: &Input) -> Reply
        requires { self.old.engine.spoiled ≡ false }
        ensures { IsAnswer B.meaning false 1 self.old (asked.Put (input_of input.now)) result
            self.new }
    {
        let changed = self.would_change(input);
        match self.engine.input(alloc, input) {
            Ok(Some(id)) => self.done(Shown::Id(id)),
            Ok(None) => self.done(changed),
            Err(InputFault::Memory) => Reply::Failed,
            Err(InputFault::ClockSpent) => Reply::Refused(Refusal::ClockSpent),
            Err(InputFault::IdsSpent) => Reply::Refused(Refusal::IdsSpent),
            Err(InputFault::Spoiled) => unreachable!(),
        }
    }

    // What is shown of an input that gives no id: whether the entity that it names, if it names one, lives.
    fn would_change(&self, input: &Input) -> Shown
        ensures { input_id (input_of input.now) (state_in self.now) ≡ None
            → shown_text result ≡ lines_of_input (input_of input.now) (state_in self.now) }
    {
        let world = self.engine.state().world();
        match input {
            Input::Insert(entity, _) | Input::Remove(entity, _) | Input::Despawn(entity) => {
                Shown::Changed(world.lives(*entity))
            }
            Input::SetResource(..) | Input::Emit(..) | Input::Spawn(_) => Shown::Nothing,
        }
    }

    // Keeps the state under a name.
    fn mark(&mut self, alloc: Global, name: &str) -> Reply
        requires { self.old.engine.spoiled ≡ false }
        ensures { IsAnswer B.meaning false 1 self.old (asked.Mark name.now) result self.new }
    {
        if !self.marks.has_room_for(name) {
            return Reply::Refused(Refusal::ManyMarks);
        }
        // Proves that the state has the memories of the schedule.
        let _spoiled = self.engine.is_spoiled();
        let Ok(state) = self.engine.state().copy(alloc) else {
            return Reply::Failed;
        };
        match self.marks.keep(alloc, name, state) {
            Ok(()) => self.done(Shown::Nothing),
            Err(_) => Reply::Failed,
        }
    }

    // Goes back to the state that is kept under a name, which stays.
    fn go_back(&mut self, alloc: Global, name: &str) -> Reply
        ensures { IsAnswer B.meaning false 1 self.old (asked.Back name.now) result self.new }
    {
        let Some(kept) = self.marks.get(name) else {
            return Reply::Refused(Refusal::NoMark);
        };
        let Ok(state) = kept.copy(alloc) else {
            return Reply::Failed;
        };
        match self.engine.set_state(alloc, state) {
            Ok(()) => self.done(Shown::Nothing),
            Err(SetFault::Memory) => Reply::Failed,
            Err(SetFault::Count) => unreachable!(),
            Err(SetFault::Bodies) => unreachable!(),
        }
    }

    // Forgets the state that is kept under a name.
    fn forget(&mut self, name: &str) -> Reply
        ensures { IsAnswer B.meaning false 1 self.old (asked.Forget name.now) result self.new }
    {
        if self.marks.forget(name) {
            self.done(Shown::Nothing)
        } else {
            Reply::Refused(Refusal::NoMark)
        }
    }

    // Shows what a request asks to see of the state.
    fn look(&self, alloc: Global, request: &Request<'_>) -> Reply
        requires there { self.now.engine.spoiled ≡ false }
        requires look { is_look (asked_of request.now) ≡ true }
        ensures { IsAnswer B.meaning false 1 self.now (asked_of request.now) result
            self.now }
    {
        match lines_of(alloc, self.engine.state(), request) {
            Ok(lines) => self.done(Shown::Lines(lines)),
            Err(_) => Reply::Failed,
        }
    }
}

// The lines that a look shows of a state.
fn lines_of(alloc: Global, state: &State, request: &Request<'_>) -> Result<String, AllocError>
    requires { is_look (asked_of request.now) ≡ true }
    ensures { IfOk result (λ text. string_bytes text ≡ seen_by (asked_of request.now) state.now) }
{
    let world = state.world();
    match request {
        Request::Entity(entity) => line_of_entity(alloc, world, *entity),
        Request::Query(since, query) => lines_of_query(alloc, world, query, *since),
        Request::Events(kind, from) => lines_of_events(alloc, state.events(), *kind, *from),
        Request::Values => values_of_state(alloc, state),
        Request::Digest => {
            let digest = hex_of(digest_of(alloc, state)?);
            format!(in alloc; "{digest}\n")
        }
        Request::World => {
            let mut text = String::new(alloc);
            push_world(alloc, &mut text, world, state.passed_over())?;
            Ok(text)
        }
        Request::Resources => {
            let mut text = String::new(alloc);
            push_resources(&mut text, world, Res::ALL.as_slice())?;
            Ok(text)
        }
        _ => unreachable!(),
    }
}
