// What is found, as it is told: a headline, what is marked of the file, and what to do.

ghost use Rattle.std.specs.Prelude.{IfOk, string_bytes};
ghost use Rattle.warnings.specs.Lines.{AreLines, IsLine};

use crate::places::{Marks, marks_of};
use crate::words::{code_of, headline_of, help_of, terms_of};
use diagnostics::json::json_of_finding;
use diagnostics::text::text_of_finding;
use diagnostics::{Finding, Heading, Level};
use explaining::site::Site;
use explaining::telling::sheet_of;
use lints::Lint;
use std::alloc::{AllocError, Global};
use toml::Table;

/// What is told of what is found in a file with these bytes at a path, which is this document: a warning for each, with a line between two.
pub fn text_of_lints(
    alloc: Global,
    bytes: &[u8],
    document: &Table,
    path: &str,
    lints: &[Lint],
) -> Result<String, AllocError> {
    let mut text = String::new(alloc);
    let site = Site::of(alloc, str::from_utf8(bytes).unwrap_or(""))?;
    for lint in lints {
        if !text.is_empty() {
            text.push_str("\n")?;
        }
        let told = text_of_lint(alloc, &site, document, path, *lint)?;
        text.push_str(told.as_str())?;
    }
    Ok(text)
}

/// The same for programs: a line of JSON for each.
pub fn json_of_lints(
    alloc: Global,
    bytes: &[u8],
    document: &Table,
    path: &str,
    lints: &[Lint],
) -> Result<String, AllocError>
    ensures { IfOk result (λ text. AreLines lints.now (string_bytes text)) }
{
    let mut text = String::new(alloc);
    let site = Site::of(alloc, str::from_utf8(bytes).unwrap_or(""))?;
    for lint in lints {
        let line = json_of_lint(alloc, &site, document, path, *lint)?;
        text.push_str(line.as_str())?;
        text.push_str("\n")?;
    }
    Ok(text)
}

// A warning.
fn text_of_lint(
    alloc: Global,
    site: &Site<'_>,
    document: &Table,
    path: &str,
    lint: Lint,
) -> Result<String, AllocError> {
    let code = code_of(lint);
    let finding = finding_of(alloc, site, document, path, lint)?;
    let told = text_of_finding(alloc, finding)?;
    format!(in alloc; "warning[{code}]: {told}")
}

// A line of a warning, without its end.
fn json_of_lint(
    alloc: Global,
    site: &Site<'_>,
    document: &Table,
    path: &str,
    lint: Lint,
) -> Result<String, AllocError>
    ensures { IfOk result (λ text. IsLine lint (string_bytes text)) }
{
    let heading = Heading {
        code: code_of(lint),
        level: Level::Warning,
    };
    let finding = finding_of(alloc, site, document, path, lint)?;
    json_of_finding(alloc, heading, &finding, None)
}

// What is told of what is found.
fn finding_of<'b>(
    alloc: Global,
    site: &Site<'b>,
    document: &Table,
    path: &'b str,
    lint: Lint,
) -> Result<Finding<'b>, AllocError> {
    let message = headline_of(alloc, document, lint)?;
    let help = help_of(alloc, document, lint)?;
    let Marks { first, second } = marks_of(document, lint);
    let sheet = sheet_of(alloc, site, path, [first, second])?;
    let finding = Finding::of(alloc, message, sheet, help)?;
    match terms_of(lint) {
        Some((old, new, kind)) => with_term(alloc, finding, (old, new), kind.name()),
        None => Ok(finding),
    }
}

// A finding whose term is to have another word before its kind.
fn with_term<'b>(
    alloc: Global,
    finding: Finding<'b>,
    (old, new): (&str, &str),
    kind: &str,
) -> Result<Finding<'b>, AllocError> {
    let term = format!(in alloc; "{old} {kind}")?;
    let other = format!(in alloc; "{new} {kind}")?;
    Ok(finding.with_edit(term.as_str(), other))
}
