// The first words of requests.

ghost use Rattle.parsing.specs.Reads.{Reads};
ghost use Rattle.requests.specs.Commands.{IsCommand};

/// The first word of a request.
#[derive(Clone, Copy, PartialEq, Eq)]
pub(crate) enum Command {
    Hello,
    Run,
    Set,
    Emit,
    Spawn,
    Insert,
    Remove,
    Despawn,
    World,
    Entity,
    Query,
    Resources,
    Events,
    Values,
    Save,
    Digest,
    Mark,
    Back,
    Forget,
    Quit,
}

impl Command {
    /// The command that a word is.
    pub(crate) fn named(word: &str) -> Option<Command>
        ensures { Reads IsCommand word.now result }
    {
        match word {
            "hello" => Some(Command::Hello),
            "run" => Some(Command::Run),
            "set" => Some(Command::Set),
            "emit" => Some(Command::Emit),
            "spawn" => Some(Command::Spawn),
            "insert" => Some(Command::Insert),
            "remove" => Some(Command::Remove),
            "despawn" => Some(Command::Despawn),
            "world" => Some(Command::World),
            "entity" => Some(Command::Entity),
            "query" => Some(Command::Query),
            "resources" => Some(Command::Resources),
            "events" => Some(Command::Events),
            "values" => Some(Command::Values),
            "save" => Some(Command::Save),
            "digest" => Some(Command::Digest),
            "mark" => Some(Command::Mark),
            "back" => Some(Command::Back),
            "forget" => Some(Command::Forget),
            "quit" => Some(Command::Quit),
            _ => None,
        }
    }
}
