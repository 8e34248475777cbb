// What is asked of an explanation, as a command line says it.

ghost use Rattle.std.specs.Prelude.{◌≡◌, codes, is_some};
ghost use Rattle.clap.specs.Words.{first_of, found_of, rows_of};
ghost use Rattle.ecsview.specs.Asking.{asking_in, denies_asked, denies_of, format_asked, format_of};

use clap::ArgMatches;

/// How findings are told.
#[derive(Clone, Copy, PartialEq, Eq, Debug)]
pub enum Format {
    /// As texts with excerpts.
    Text,
    /// As a line of JSON for each.
    Json,
}

/// What is asked of an explanation.
#[derive(Clone, Copy, PartialEq, Eq, Debug)]
pub struct Asking {
    /// Whether warnings are denied.
    pub denies: bool,
    /// How findings are told.
    pub format: Format,
    /// Whether a trace is explained as well.
    pub traced: bool,
}

/// What the values of a command line ask. None where one of them is a word that is unknown.
pub(crate) fn asking_of(found: &ArgMatches<'_>) -> Option<Asking>
    ensures { result ≡ asking_in (rows_of (found_of found.now)) }
{
    let denies = denies_in(found)?;
    let format = format_in(found)?;
    let traced = is_traced(found);
    Some(Asking {
        denies,
        format,
        traced,
    })
}

// Whether warnings are denied.
fn denies_in(found: &ArgMatches<'_>) -> Option<bool>
    ensures { result ≡ denies_asked (first_of (codes "deny") (rows_of (found_of found.now))) }
{
    match found.get_str("deny") {
        Some(text) => denies_of(text),
        None => Some(false),
    }
}

// Whether a text denies warnings.
fn denies_of(text: &str) -> Option<bool>
    ensures { result ≡ denies_of text.now }
{
    match text {
        "warnings" => Some(true),
        _ => None,
    }
}

// How findings are told.
fn format_in(found: &ArgMatches<'_>) -> Option<Format>
    ensures { result ≡ format_asked (first_of (codes "format") (rows_of (found_of found.now))) }
{
    match found.get_str("format") {
        Some(text) => format_of(text),
        None => Some(Format::Text),
    }
}

// The format that a text names.
fn format_of(text: &str) -> Option<Format>
    ensures { result ≡ format_of text.now }
{
    match text {
        "text" => Some(Format::Text),
        "json" => Some(Format::Json),
        _ => None,
    }
}

// Whether a trace is named.
fn is_traced(found: &ArgMatches<'_>) -> bool
    ensures { result ≡ is_some (first_of (codes "trace") (rows_of (found_of found.now))) }
{
    match found.get_str("trace") {
        Some(_) => true,
        None => false,
    }
}
