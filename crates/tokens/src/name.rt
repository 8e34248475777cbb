// Names.

ghost use Rattle.std.specs.Prelude.{IsTrue, ◌↔◌};
ghost use Rattle.tokens.specs.Name.{IsName, IsLetter, IsNameByte};

const MOST_CHARACTERS: usize = 32;

/// Whether a text is a name: 1 to 32 characters of `a` to `z`, `0` to `9` and `_`, the first a letter.
pub fn is_name(text: &str) -> bool
    ensures { IsTrue result ↔ IsName text.now }
{
    let bytes = text.as_bytes();
    match bytes.first() {
        None => false,
        Some(first) => is_letter(*first)
            && bytes.len() <= MOST_CHARACTERS
            && bytes.iter().all(|b| is_name_byte(*b)),
    }
}

fn is_letter(byte: u8) -> bool
    ensures { IsTrue result ↔ IsLetter byte }
{
    byte.is_ascii_lowercase()
}

fn is_name_byte(byte: u8) -> bool
    ensures { IsTrue result ↔ IsNameByte byte }
{
    byte.is_ascii_lowercase() || byte.is_ascii_digit() || byte == b'_'
}
