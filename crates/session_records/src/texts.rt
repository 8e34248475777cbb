// The texts of what is found.

ghost use Rattle.std.specs.Prelude.{◌≡◌, ◌++◌, ℕ, List, map, option_map, slice_get, IfOk, OnOk, string_bytes};
ghost use Rattle.session_records.specs.Texts.{IsRequestsText, agreement_line, differing_line, requests_line};

use findings::diverging::Parting;
use findings::texts::first_apart;
use session::entry::Entry;
use std::alloc::{AllocError, Global};

// Adds whether the worlds agree, of records with so many entries.
pub(crate) fn push_agreement(
    text: &mut String,
    parting: &Parting,
    counts: (usize, usize),
) -> Result<(), AllocError>
    ensures { OnOk result (string_bytes text.new
        ≡ string_bytes text.old ++ agreement_line parting.now counts.0 counts.1) }
{
    match parting {
        Parting::None(count) => writeln!(text, "worlds agree after each of {count} entries"),
        Parting::Longer(count) => {
            let (one, other) = counts;
            writeln!(
                text,
                "worlds agree after each of {count} entries, of {one} and {other}"
            )
        }
        Parting::After(entry, _, _) => writeln!(text, "worlds differ after entry {entry}"),
    }
}

// Adds the first entry whose requests differ.
pub(crate) fn push_requests(
    alloc: Global,
    text: &mut String,
    entries: &[Entry<'_>],
    others: &[Entry<'_>],
) -> Result<(), AllocError>
    ensures { OnOk result ((more : List ℕ)
        × IsRequestsText (map (λ entry. entry.line.now) entries.now)
        (map (λ entry. entry.line.now) others.now) more
        × (string_bytes text.new ≡ string_bytes text.old ++ more)) }
{
    let lines = lines_of(alloc, entries)?;
    let beside = lines_of(alloc, others)?;
    let (lines, beside) = (lines.as_slice(), beside.as_slice());
    let place = first_apart(lines, beside);
    let number = place + 1;
    push_requests_of(text, number, line_at(lines, place), line_at(beside, place))
}

// The lines of the requests of entries.
fn lines_of<'a>(alloc: Global, entries: &[Entry<'a>]) -> Result<Vec<&'a str>, AllocError>
    ensures { IfOk result (λ lines. map (λ line. line.now) lines.items
        ≡ map (λ entry. entry.line.now) entries.now) }
{
    let mut lines = Vec::new(alloc);
    for entry in entries {
        lines.push(entry.line)?;
    }
    Ok(lines)
}

// The line at a place, where there is one.
fn line_at<'a>(lines: &[&'a str], place: usize) -> Option<&'a str>
    ensures { option_map (λ line. line.now) result
        ≡ slice_get (map (λ line. line.now) lines.now) place }
{
    lines.get(place).copied()
}

// Adds the requests of the entry of a number, which differ, or that neither list has one.
fn push_requests_of(
    text: &mut String,
    number: usize,
    one: Option<&str>,
    other: Option<&str>,
) -> Result<(), AllocError>
    ensures { OnOk result (string_bytes text.new
        ≡ string_bytes text.old ++ requests_line number (option_map (λ line. line.now) one.entry)
        (option_map (λ line. line.now) other.entry)) }
{
    match (one, other) {
        (None, None) => {
            text.push_str("requests are the same\n")?;
            Ok(())
        }
        (None, Some(line)) => push_differing(text, number, "none", line),
        (Some(line), None) => push_differing(text, number, line, "none"),
        (Some(line), Some(beside)) => push_differing(text, number, line, beside),
    }
}

// Adds the requests of the entry of a number, which differ.
fn push_differing(
    text: &mut String,
    number: usize,
    one: &str,
    other: &str,
) -> Result<(), AllocError>
    ensures { OnOk result (string_bytes text.new
        ≡ string_bytes text.old ++ differing_line number one.now other.now) }
{
    writeln!(text, "requests differ in entry {number}: {one} | {other}")
}
