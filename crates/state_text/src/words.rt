// Words of a line, a space before each.

ghost use Rattle.std.specs.Prelude.{◌≡◌, ◌++◌, OnOk, string_bytes};
ghost use Rattle.state_text.specs.StateText.{numbers_text, words_text, stamp_text};

use crate::form::Form;
use change_ticks::Tick;
use std::alloc::AllocError;

/// Adds a stamp or a last run, which the values leave out.
pub fn push_stamp(text: &mut String, form: Form, tick: Tick) -> Result<(), AllocError>
    ensures { OnOk result (string_bytes text.new
        ≡ string_bytes text.old ++ stamp_text form tick) }
{
    match form {
        Form::Whole => write!(text, " {tick}"),
        Form::Values => Ok(()),
    }
}

/// Adds numbers.
pub fn push_numbers(text: &mut String, numbers: &[u64]) -> Result<(), AllocError>
    ensures { OnOk result (string_bytes text.new
        ≡ string_bytes text.old ++ numbers_text numbers.now) }
{
    for number in numbers {
        write!(text, " {number}")?;
    }
    Ok(())
}

/// Adds integers.
pub fn push_words(text: &mut String, words: &[i64]) -> Result<(), AllocError>
    ensures { OnOk result (string_bytes text.new
        ≡ string_bytes text.old ++ words_text words.now) }
{
    for word in words {
        write!(text, " {word}")?;
    }
    Ok(())
}
