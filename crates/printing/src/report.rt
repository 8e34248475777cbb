// The text of an ambiguity report.

ghost use Rattle.std.specs.Prelude.{◌≡◌, ◌++◌, [], map, get_or, flat_map, OnOk, IfOk, string_bytes};
ghost use Rattle.printing.specs.ReportText.{racer_text, pair_line, settled_line, report_text};

use ambiguity_report::Pair;
use ambiguity_report::report::Racer;
use std::alloc::{AllocError, Global};

/// The text of an ambiguity report, of systems with these names by number. Each pair that races has a line, with the
/// datum on which they conflict, and `silenced` where that is declared. A condition is told by its number behind `#`.
/// The last line says whether the schedule is settled.
pub fn text_of_report(
    alloc: Global,
    names: &[&str],
    pairs: &[Pair],
    settled: bool,
) -> Result<String, AllocError>
    ensures { IfOk result (λ text. string_bytes text
        ≡ report_text (map (λ name. name.now) names.now) pairs.now settled) }
{
    let mut text = String::new(alloc);
    push_pairs(&mut text, names, pairs)?;
    push_settled(&mut text, settled)?;
    Ok(text)
}

// Adds the lines of these pairs.
fn push_pairs(text: &mut String, names: &[&str], pairs: &[Pair]) -> Result<(), AllocError>
    ensures { OnOk result (string_bytes text.new
        ≡ string_bytes text.old
        ++ flat_map (pair_line (map (λ name. name.now) names.now)) pairs.now) }
{
    for pair in pairs {
        push_pair(text, names, *pair)?;
    }
    Ok(())
}

/// Adds the line of a pair.
pub fn push_pair(text: &mut String, names: &[&str], pair: Pair) -> Result<(), AllocError>
    ensures { OnOk result (string_bytes text.new
        ≡ string_bytes text.old ++ pair_line (map (λ name. name.now) names.now) pair) }
{
    push_racer(text, names, pair.first)?;
    let second = name_of(names, pair.second);
    let datum = pair.datum;
    if pair.silenced {
        return writeln!(text, " {second} {datum} silenced");
    }
    writeln!(text, " {second} {datum}")
}

/// Adds what races: the name of a system, or the number of a condition.
pub fn push_racer(text: &mut String, names: &[&str], racer: Racer) -> Result<(), AllocError>
    ensures { OnOk result (string_bytes text.new
        ≡ string_bytes text.old ++ racer_text (map (λ name. name.now) names.now) racer) }
{
    match racer {
        Racer::System(system) => {
            let name = name_of(names, system);
            write!(text, "{name}")
        }
        Racer::Condition(condition) => write!(text, "#{condition}"),
    }
}

/// The name of a system, and no text where there is none.
pub fn name_of<'a>(names: &[&'a str], system: u32) -> &'a str
    ensures { result.now ≡ get_or (map (λ name. name.now) names.now) system [] }
{
    match names.get(system as usize) {
        Some(name) => *name,
        None => "",
    }
}

// Adds the last line: whether the schedule is settled.
fn push_settled(text: &mut String, settled: bool) -> Result<(), AllocError>
    ensures { OnOk result (string_bytes text.new ≡ string_bytes text.old ++ settled_line settled) }
{
    if settled {
        return writeln!(text, "settled yes");
    }
    writeln!(text, "settled no")
}
