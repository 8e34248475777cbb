// Numbers of 64 bits in decimal digits.

ghost use Rattle.parsing.specs.Reads.{Reads};
ghost use Rattle.tokens.specs.LongNumber.{IsLongNumber};

/// Reads a number of 64 bits: one or more digits. Leading zeros are read, a sign is not.
pub fn read_long_number(word: &str) -> Option<u64>
    ensures { Reads IsLongNumber word.now result }
{
    if !word.starts_with('+') {
        return word.parse::<u64>().ok();
    }
    None
}
