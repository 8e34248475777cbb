// Requests read from lines.

ghost use Rattle.std.specs.Prelude.{IfOk, IfErr};
ghost use Rattle.parsing.specs.Reads.{SpellsOnly};
ghost use Rattle.requests.specs.Asked.{asked_of};
ghost use Rattle.requests.specs.Grammar.{Asks, IsRows, AreSpawned, IsRequest};
ghost use Rattle.requests.specs.Faults.{IsAskFault, IsRequestFault};
ghost use Rattle.requests.specs.declared.command.Command.TheVariants as command;

use crate::command::Command;
use crate::components::components_of;
use crate::request::{Request, RequestFault};
use body::Input;
use parsing::ReadError;
use parsing::words::words_of;
use query::Query;
use std::alloc::Global;
use tokens::first_word::first_word;
use tokens::long_number::read_long_number;

/// Reads a request: the word of a command, and what it needs behind it. One or more spaces come between words and any
/// number at either end.
pub fn read_request<'a>(alloc: Global, line: &'a str) -> Result<Request<'a>, RequestFault>
    ensures ok { IfOk result (λ request. SpellsOnly IsRequest line.now (asked_of request)) }
    ensures err { IfErr result (IsRequestFault line.now) }
{
    let Some((word, rest)) = first_word(line) else {
        return Err(RequestFault::Unknown);
    };
    match Command::named(word) {
        Some(command) => command.read(alloc, rest),
        None => Err(RequestFault::Unknown),
    }
}

impl Command {
    // The request that the command and the text behind it are.
    fn read<'a>(self, alloc: Global, text: &'a str) -> Result<Request<'a>, RequestFault>
        ensures ok { IfOk result (λ request. SpellsOnly (Asks self) text.now (asked_of request)) }
        ensures err { IfErr result (IsAskFault self text.now) }
    {
        match self {
            Command::Query => read_rows(alloc, text),
            Command::Spawn => read_spawn(alloc, text),
            _ => {
                let words = words_of(alloc, text)?;
                match self.of_words(words.as_slice()) {
                    Some(request) => Ok(request),
                    None => Err(RequestFault::Unknown),
                }
            }
        }
    }
}

// The request for the rows of a query.
fn read_rows<'a>(alloc: Global, text: &'a str) -> Result<Request<'a>, RequestFault>
    ensures ok { IfOk result (λ request. SpellsOnly IsRows text.now (asked_of request)) }
    ensures err { IfErr result (IsAskFault command.Query text.now) }
{
    let Some((word, rest)) = first_word(text) else {
        return Err(RequestFault::Unknown);
    };
    let Some(since) = read_long_number(word) else {
        return Err(RequestFault::Unknown);
    };
    let query = match Query::read(alloc, rest) {
        Ok(query) => query,
        Err(ReadError::Outside) => return Err(RequestFault::Query),
        Err(ReadError::Memory) => return Err(RequestFault::Memory),
    };
    match query.check() {
        Ok(()) => Ok(Request::Query(since, query)),
        Err(_) => Err(RequestFault::Query),
    }
}

// The request for a new entity.
fn read_spawn<'a>(alloc: Global, text: &'a str) -> Result<Request<'a>, RequestFault>
    ensures ok { IfOk result (λ request. SpellsOnly (Asks command.Spawn) text.now
        (asked_of request)) }
    ensures err { IfErr result (IsAskFault command.Spawn text.now) }
{
    let words = words_of(alloc, text)?;
    let values = components_of(alloc, words.as_slice())?;
    Ok(Request::Put(Input::Spawn(values)))
}
