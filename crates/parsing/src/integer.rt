// Integers in decimal digits.

ghost use Rattle.parsing.specs.Integer.{IsInteger, IsNumber};
ghost use Rattle.parsing.specs.Reads.{Reads};

/// Reads an integer of 64 bits: an optional minus, then one or more digits. Leading zeros are read, a plus is not.
pub fn read_integer(word: &str) -> Option<i64>
    ensures { Reads IsInteger word.now result }
{
    if word.starts_with('+') {
        return None;
    }
    word.parse::<i64>().ok()
}

/// Reads a number of 32 bits: one or more digits. Leading zeros are read, a sign is not.
pub fn read_number(word: &str) -> Option<u32>
    ensures { Reads IsNumber word.now result }
{
    if !word.starts_with('+') {
        return word.parse::<u32>().ok();
    }
    None
}
