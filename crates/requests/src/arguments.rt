// What commands need behind them, read from words.

ghost use Rattle.std.specs.Prelude.{◌≡◌, map};
ghost use Rattle.std.specs.Option.{option_map};
ghost use Rattle.parsing.specs.Reads.{Reads};
ghost use Rattle.requests.specs.Asked.{asked_of};
ghost use Rattle.requests.specs.Grammar.{IsBare, AreArguments};
ghost use Rattle.requests.specs.Parts.{IsOnlyName};
ghost use Rattle.requests.specs.declared.command.Command.TheVariants as command;

use crate::command::Command;
use crate::components::component_of;
use crate::request::Request;
use crate::words::{only, pair, read_id, read_times};
use body::Input;
use kinds::{Event, Kind, Res};
use parsing::integer::read_integer;
use tokens::long_number::read_long_number;
use tokens::name::is_name;

impl Command {
    /// The request that the command and the words behind it are, where it is neither `spawn` nor `query`.
    pub(crate) fn of_words<'a>(self, words: &[&'a str]) -> Option<Request<'a>>
        ensures { Reads (AreArguments self) (map (λ word. word.now) words.now)
            (option_map asked_of result) }
    {
        match self {
            Command::Hello => bare(words, Request::Hello),
            Command::Run => run(words),
            Command::Set => set(words),
            Command::Emit => emit(words),
            Command::Insert => insert(words),
            Command::Remove => remove(words),
            Command::Despawn => despawn(words),
            Command::World => bare(words, Request::World),
            Command::Entity => entity(words),
            Command::Resources => bare(words, Request::Resources),
            Command::Events => events(words),
            Command::Values => bare(words, Request::Values),
            Command::Save => bare(words, Request::Save),
            Command::Digest => bare(words, Request::Digest),
            Command::Mark => Some(Request::Mark(name(words)?)),
            Command::Back => Some(Request::Back(name(words)?)),
            Command::Forget => Some(Request::Forget(name(words)?)),
            Command::Quit => bare(words, Request::Quit),
            Command::Spawn | Command::Query => None,
        }
    }
}

// A request that needs no word.
fn bare<'a>(words: &[&str], whole: Request<'a>) -> Option<Request<'a>>
    ensures { Reads (IsBare (asked_of whole.entry)) (map (λ word. word.now) words.now)
        (option_map asked_of result) }
{
    if words.is_empty() {
        return Some(whole);
    }
    None
}

// So many runs.
fn run<'a>(words: &[&'a str]) -> Option<Request<'a>>
    ensures { Reads (AreArguments command.Run) (map (λ word. word.now) words.now)
        (option_map asked_of result) }
{
    Some(Request::Run(read_times(only(words)?)?))
}

// A value for a resource.
fn set<'a>(words: &[&'a str]) -> Option<Request<'a>>
    ensures { Reads (AreArguments command.Set) (map (λ word. word.now) words.now)
        (option_map asked_of result) }
{
    let (name, value) = pair(words)?;
    let input = Input::SetResource(Res::named(name)?, read_integer(value)?);
    Some(Request::Put(input))
}

// An event.
fn emit<'a>(words: &[&'a str]) -> Option<Request<'a>>
    ensures { Reads (AreArguments command.Emit) (map (λ word. word.now) words.now)
        (option_map asked_of result) }
{
    let (name, value) = pair(words)?;
    let input = Input::Emit(Event::named(name)?, read_integer(value)?);
    Some(Request::Put(input))
}

// A component for an entity.
fn insert<'a>(words: &[&'a str]) -> Option<Request<'a>>
    ensures { Reads (AreArguments command.Insert) (map (λ word. word.now) words.now)
        (option_map asked_of result) }
{
    match words {
        [id, name, fields @ ..] => {
            let value = component_of(Kind::named(name)?, fields)?;
            Some(Request::Put(Input::Insert(read_id(id)?, value)))
        }
        _ => None,
    }
}

// A kind that an entity is to lack.
fn remove<'a>(words: &[&'a str]) -> Option<Request<'a>>
    ensures { Reads (AreArguments command.Remove) (map (λ word. word.now) words.now)
        (option_map asked_of result) }
{
    let (id, name) = pair(words)?;
    let input = Input::Remove(read_id(id)?, Kind::named(name)?);
    Some(Request::Put(input))
}

// An entity that is to live no more.
fn despawn<'a>(words: &[&'a str]) -> Option<Request<'a>>
    ensures { Reads (AreArguments command.Despawn) (map (λ word. word.now) words.now)
        (option_map asked_of result) }
{
    Some(Request::Put(Input::Despawn(read_id(only(words)?)?)))
}

// An entity that is to be seen.
fn entity<'a>(words: &[&'a str]) -> Option<Request<'a>>
    ensures { Reads (AreArguments command.Entity) (map (λ word. word.now) words.now)
        (option_map asked_of result) }
{
    Some(Request::Entity(read_id(only(words)?)?))
}

// The events of a kind, from a number on.
fn events<'a>(words: &[&'a str]) -> Option<Request<'a>>
    ensures { Reads (AreArguments command.Events) (map (λ word. word.now) words.now)
        (option_map asked_of result) }
{
    let (name, from) = pair(words)?;
    Some(Request::Events(Event::named(name)?, read_long_number(from)?))
}

// A name.
fn name<'a>(words: &[&'a str]) -> Option<&'a str>
    ensures { Reads IsOnlyName (map (λ word. word.now) words.now)
        (option_map (λ name. name.now) result) }
{
    let name = only(words)?;
    if is_name(name) {
        return Some(name);
    }
    None
}
