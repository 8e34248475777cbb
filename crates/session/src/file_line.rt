// The line that names a program file, in front of the text of a state.

ghost use Rattle.std.specs.Prelude.{IsTrue, ◌↔◌};
ghost use Rattle.std.specs.Option.{option_map};
ghost use Rattle.parsing.specs.Reads.{Reads};
ghost use Rattle.session.specs.Saved.{AreDigits, IsHead};

// The digits of the first line, which names a file, and the lines behind it.
pub(crate) fn head_of(text: &str) -> Option<(&str, &str)>
    ensures { Reads IsHead text.now (option_map (λ head. (head.0.now, head.1.now)) result) }
{
    let (head, rest) = text.split_once('\n')?;
    let digits = head.strip_prefix("file ")?;
    if are_digits(digits) {
        return Some((digits, rest));
    }
    None
}

// Whether a text is a digest in lower-case hex digits.
fn are_digits(text: &str) -> bool
    ensures { IsTrue result ↔ AreDigits text.now }
{
    text.len() == 64
        && text
            .bytes()
            .all(|byte| matches!(byte, b'0'..=b'9' | b'a'..=b'f'))
}
