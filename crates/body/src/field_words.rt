// Fields of components as words.

ghost use Rattle.std.specs.Prelude.{◌≡◌};
ghost use Rattle.kinds.specs.Components.{word_at};

use kinds::Fields;

/// The word at a place, 0 past the end.
pub fn word(words: &Fields, at: usize) -> i64
    ensures { result ≡ word_at words.now at }
{
    match words.as_slice().get(at) {
        Some(value) => *value,
        None => 0,
    }
}
