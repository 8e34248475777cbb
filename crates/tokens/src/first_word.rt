// The first word of a text.

ghost use Rattle.std.specs.Option.{option_map};
ghost use Rattle.parsing.specs.Reads.{Reads};
ghost use Rattle.tokens.specs.FirstWord.{IsFirstWord};

/// The first word of a text, and what follows it: nothing, or a space first.
pub fn first_word(text: &str) -> Option<(&str, &str)>
    ensures { Reads IsFirstWord text.now (option_map (λ parts. (parts.0.now, parts.1.now)) result) }
{
    let word = text.trim_start_matches(' ');
    match word.find(' ') {
        Some(end) => Some(word.split_at(end)),
        None if word.is_empty() => None,
        None => Some((word, "")),
    }
}
