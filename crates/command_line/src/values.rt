// The values of arguments.

ghost use Rattle.std.specs.Prelude.{◌≡◌, ◌≤◌, IfSome, is_some};
ghost use Rattle.clap.specs.Words.{first_of, found_of, rows_of};
ghost use Rattle.command_line.specs.Values.{if_between, number_between, number_or, value_of};

use clap::ArgMatches;
use parsing::integer::read_number;

/// The value of an argument, empty where it is left out.
pub fn value_of<'a>(found: &ArgMatches<'a>, name: &str) -> &'a str
    ensures { result.now ≡ value_of name.now (rows_of (found_of found.now)) }
{
    match found.get_str(name) {
        Some(text) => text,
        None => "",
    }
}

// Whether an argument has a value.
pub(crate) fn is_given(found: &ArgMatches<'_>, name: &str) -> bool
    ensures { result ≡ is_some (first_of name.now (rows_of (found_of found.now))) }
{
    match found.get_str(name) {
        Some(_) => true,
        None => false,
    }
}

// The number that the value of an option spells in decimal digits alone, if it is at most `most`; `other`, which is, where the option is left
// out.
pub(crate) fn number_or(found: &ArgMatches<'_>, name: &str, most: u32, other: u32) -> Option<u32>
    requires { other ≤ most }
    ensures within { IfSome result (λ number. number ≤ most) }
    ensures number { result
        ≡ number_or other most (first_of name.now (rows_of (found_of found.now))) }
{
    match found.get_str(name) {
        Some(text) => number_between(text, 0, most),
        None => Some(other),
    }
}

/// The number that a text spells in decimal digits alone, of which the first may be zeros, if it is one from `least` to `most`.
pub fn number_between(text: &str, least: u32, most: u32) -> Option<u32>
    ensures within { IfSome result (λ number. number ≤ most) }
    ensures number { result ≡ number_between least most text.now }
{
    match read_number(text) {
        Some(number) => if_between(number, least, most),
        None => None,
    }
}

// A number that is one from `least` to `most`.
fn if_between(number: u32, least: u32, most: u32) -> Option<u32>
    ensures within { IfSome result (λ number. number ≤ most) }
    ensures number { result ≡ if_between least most number }
{
    if least <= number && number <= most {
        Some(number)
    } else {
        None
    }
}
