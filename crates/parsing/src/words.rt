// Words with spaces between.

ghost use Rattle.std.specs.Prelude.{IfOk, IsTrue, ◌↔◌, map};
ghost use Rattle.parsing.specs.Words.{AreSpaces, AreWordsOf};

use std::alloc::{AllocError, Global};

/// The words of a text, in order. They have one or more spaces (U+0020 alone) between, and any number at either end.
pub fn words_of<'a>(alloc: Global, text: &'a str) -> Result<Vec<&'a str>, AllocError>
    ensures { IfOk result (λ words. AreWordsOf (map (λ word. word.now) words.items) text.now) }
{
    text.split(' ')
        .filter(|word| !word.is_empty())
        .collect(alloc)
}

/// Whether a text has no word: it is empty, or made of spaces alone.
pub fn is_blank(text: &str) -> bool
    ensures { IsTrue result ↔ AreSpaces text.now }
{
    text.bytes().all(|byte| byte == b' ')
}
