// The lines with which a host is greeted.

ghost use Rattle.std.specs.Prelude.{◌≡◌, ◌++◌, string_bytes, IfOk, OnOk};
ghost use Rattle.live_world.specs.Greeting.{IsGreeting, greeting_text, line_of, word_of};

use ambiguity_report::report::{is_settled, is_unfiltered};
use schedule_builder::Built;
use state_text::{Hex, hex_of};
use std::alloc::{AllocError, Global};

/// The greeting of a session of the file with this digest and this number of workers. It has the protocol, the
/// digest, the number of systems, and the workers. It tells whether the schedule is settled, and whether some query
/// has an `added` or `changed` term.
pub fn greeting_of(
    alloc: Global,
    file: [u8; 32],
    built: &Built,
    workers: u8,
) -> Result<String, AllocError>
    ensures { IfOk result (λ text. IsGreeting file built.now workers (string_bytes text)) }
{
    let settled = is_settled(built);
    let unfiltered = is_unfiltered(built);
    text_of(
        alloc,
        hex_of(file),
        built.count(),
        workers,
        settled,
        !unfiltered,
    )
}

// The lines of a greeting.
fn text_of(
    alloc: Global,
    digest: Hex,
    systems: u32,
    workers: u8,
    settled: bool,
    filters: bool,
) -> Result<String, AllocError>
    ensures { IfOk result (λ text. string_bytes text
        ≡ greeting_text digest.digest systems workers settled filters) }
{
    let mut text = String::new(alloc);
    writeln!(text, "ecsplay 1")?;
    writeln!(text, "file {digest}")?;
    writeln!(text, "systems {systems}")?;
    writeln!(text, "workers {workers}")?;
    push_answer(&mut text, "settled", settled)?;
    push_answer(&mut text, "filters", filters)?;
    Ok(text)
}

// Adds the line of an answer.
fn push_answer(text: &mut String, name: &str, answer: bool) -> Result<(), AllocError>
    ensures { OnOk result (string_bytes text.new
        ≡ string_bytes text.old ++ line_of name.now (word_of answer)) }
{
    if answer {
        return writeln!(text, "{name} yes");
    }
    writeln!(text, "{name} no")
}
