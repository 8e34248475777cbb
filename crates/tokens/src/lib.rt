// Parts of lines that several grammars have: names, the first word, numbers of 64 bits.
#![tactic(auto)]

pub mod first_word;
pub mod long_number;
pub mod name;
