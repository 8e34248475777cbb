// Numbers as traces spell them.

ghost use Rattle.parsing.specs.Reads.{Reads};
ghost use Rattle.trace_checker.specs.Grammar.{IsNumeralOf};

use parsing::integer::read_number;
use std::str;

/// Reads a number of 32 bits: decimal digits without a leading zero, zero as one digit.
pub(crate) fn numeral_of(bytes: &[u8]) -> Option<u32>
    ensures { Reads IsNumeralOf bytes.now result }
{
    if bytes.len() > 1 && bytes[0] == b'0' {
        return None;
    }
    match str::from_utf8(bytes) {
        Ok(digits) => read_number(digits),
        Err(_) => None,
    }
}
