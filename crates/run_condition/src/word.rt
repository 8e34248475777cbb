// The words that begin a condition.

ghost use Rattle.parsing.specs.Reads.{Reads};
ghost use Rattle.run_condition.specs.Word.{IsConditionWord};

/// The word that begins a condition, and says which sort it is.
#[derive(Clone, Copy)]
pub(crate) enum Word {
    RunOnce,
    ResourceEquals,
    ResourceAtLeast,
    ResourceChanged,
    AnyWith,
    OnEvent,
    Not,
    And,
    Or,
}

impl Word {
    // The word that a text is.
    pub(crate) fn named(text: &str) -> Option<Word>
        ensures { Reads IsConditionWord text.now result }
    {
        match text {
            "run_once" => Some(Word::RunOnce),
            "resource_equals" => Some(Word::ResourceEquals),
            "resource_at_least" => Some(Word::ResourceAtLeast),
            "resource_changed" => Some(Word::ResourceChanged),
            "any_with" => Some(Word::AnyWith),
            "on_event" => Some(Word::OnEvent),
            "not" => Some(Word::Not),
            "and" => Some(Word::And),
            "or" => Some(Word::Or),
            _ => None,
        }
    }
}
