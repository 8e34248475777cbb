// Conditions read from texts.

ghost use Rattle.std.specs.Prelude.{◌≡◌, ◌≢◌, ℕ, List, ◌∷◌, [], Some, map, MatchOption};
ghost use Rattle.kinds.specs.Res.{IsRes, IsEvent};
ghost use Rattle.model.specs.access.Condition.{Condition};
ghost use Rattle.parsing.specs.Integer.{IsInteger};
ghost use Rattle.parsing.specs.Reads.{Reads, ReadsUnlessMemory};
ghost use Rattle.parsing.specs.Words.{AreWordsOf, Lacks};
ghost use Rattle.run_condition.specs.declared.word.Word.TheVariants as word;
ghost use Rattle.run_condition.specs.Word.{IsConditionWord};
ghost use Rattle.run_condition.specs.Grammar.{ByWord, AreTwo, AreResAndInteger, IsLeaf, IsMade, IsConditionWithin, IsCondition};
ghost use Rattle.run_condition.specs.Fronts.{StartsMark, AtFront, BeforeComma, InBrackets, Behind, ReadsRest, ReadsText};

use crate::cond::Cond;
use crate::fronts::{behind_comma, behind_opening, closed, closing, cut};
use crate::word::Word;
use kinds::{Event, Res};
use parsing::ReadError;
use parsing::integer::read_integer;
use parsing::parts::parts_of;
use parsing::words::words_of;
use query::Query;
use std::alloc::Global;

// How deep `not`, `and` and `or` may nest.
const DEEPEST: u32 = 16;

impl Cond {
    /// Reads a condition: `run_once`, `resource_equals(R, I)`, `resource_at_least(R, I)`, `resource_changed(R)`,
    /// `any_with(QUERY)`, `on_event(E)`, `not(cond)`, `and(cond, cond)` or `or(cond, cond)`, with spaces round brackets and
    /// commas and at either end. `not`, `and` and `or` nest at most 16 deep.
    pub fn read(alloc: Global, text: &str) -> Result<Cond, ReadError>
        ensures { ReadsUnlessMemory IsCondition text.now result }
    {
        read_whole(alloc, text)
    }
}

// The condition that a text is from its beginning to its end.
fn read_whole(alloc: Global, text: &str) -> Result<Cond, ReadError>
    ensures { ReadsUnlessMemory IsCondition text.now result }
{
    let (cond, rest) = read_front(alloc, text, DEEPEST)?;
    if !rest.is_empty() {
        return Err(ReadError::Outside);
    }
    Ok(cond)
}

// ---- conditions at the front of a text

// The condition at the front of a text, and the rest.
#[cycle(condition)]
fn read_front<'a>(alloc: Global, text: &'a str, depth: u32) -> Result<(Cond, &'a str), ReadError>
    ensures { ReadsRest (AtFront (IsConditionWithin depth)) text.now result }
{
    let (head, rest) = cut(text);
    let word = read_word(alloc, head)?;
    read_behind(alloc, word, rest, depth)
}

// The condition whose word this is, from what stands behind the word, and the rest.
#[cycle(condition)]
fn read_behind<'a>(
    alloc: Global,
    word: Word,
    text: &'a str,
    depth: u32,
) -> Result<(Cond, &'a str), ReadError>
    requires { StartsMark text.now }
    ensures { ReadsRest (Behind (λ c. IsMade depth c word)) text.now result }
{
    match behind_opening(text) {
        Some(inside) => read_call(alloc, word, inside, depth),
        None => read_alone(word, text),
    }
}

// The condition that a word without brackets is.
fn read_alone<'a>(word: Word, text: &'a str) -> Result<(Cond, &'a str), ReadError>
    requires starts { StartsMark text.now }
    requires closed { (rest : List ℕ) → text.now ≢ 40 ∷ rest }
    ensures { (depth : ℕ) → ReadsRest (Behind (λ c. IsMade depth c word)) text.now result }
{
    match word {
        Word::RunOnce => Ok((Cond::run_once(), text)),
        _ => Err(ReadError::Outside),
    }
}

// The condition whose word this is, from what stands behind its opening bracket, and the rest.
#[cycle(condition)]
fn read_call<'a>(
    alloc: Global,
    word: Word,
    text: &'a str,
    depth: u32,
) -> Result<(Cond, &'a str), ReadError>
    ensures { ReadsRest (InBrackets (λ c inside. IsMade depth c word (Some inside))) text.now
        result }
{
    match word {
        Word::Not => read_not(alloc, text, depth),
        Word::And => read_and(alloc, text, depth),
        Word::Or => read_or(alloc, text, depth),
        _ => read_held(alloc, word, text),
    }
}

// ---- conditions that hold others

// A `not`, from what stands behind its opening bracket, and the rest.
#[cycle(condition)]
fn read_not<'a>(alloc: Global, text: &'a str, depth: u32) -> Result<(Cond, &'a str), ReadError>
    ensures { ReadsRest (InBrackets (λ c inside. IsMade depth c word.Not (Some inside))) text.now
        result }
{
    if depth == 0 {
        return Err(ReadError::Outside);
    }
    let (inner, rest) = read_last(alloc, text, depth - 1)?;
    Ok((Cond::not(alloc, inner)?, rest))
}

// An `and`, from what stands behind its opening bracket, and the rest.
#[cycle(condition)]
fn read_and<'a>(alloc: Global, text: &'a str, depth: u32) -> Result<(Cond, &'a str), ReadError>
    ensures { ReadsRest (InBrackets (λ c inside. IsMade depth c word.And (Some inside))) text.now
        result }
{
    if depth == 0 {
        return Err(ReadError::Outside);
    }
    let ((left, right), rest) = read_two(alloc, text, depth - 1)?;
    Ok((Cond::and(alloc, left, right)?, rest))
}

// An `or`, from what stands behind its opening bracket, and the rest.
#[cycle(condition)]
fn read_or<'a>(alloc: Global, text: &'a str, depth: u32) -> Result<(Cond, &'a str), ReadError>
    ensures { ReadsRest (InBrackets (λ c inside. IsMade depth c word.Or (Some inside))) text.now
        result }
{
    if depth == 0 {
        return Err(ReadError::Outside);
    }
    let ((left, right), rest) = read_two(alloc, text, depth - 1)?;
    Ok((Cond::or(alloc, left, right)?, rest))
}

// Two conditions with a comma between and a closing bracket behind, and the rest.
#[cycle(condition)]
fn read_two<'a>(
    alloc: Global,
    text: &'a str,
    depth: u32,
) -> Result<((Cond, Cond), &'a str), ReadError>
    ensures { ReadsRest
        (InBrackets (λ (v : Condition × Condition). AreTwo (IsConditionWithin depth v.0)
        (IsConditionWithin depth v.1)))
        text.now result }
{
    let (left, after) = read_left(alloc, text, depth)?;
    let (right, rest) = read_last(alloc, after, depth)?;
    Ok(((left, right), rest))
}

// A condition with a comma behind, and the rest.
#[cycle(condition)]
fn read_left<'a>(alloc: Global, text: &'a str, depth: u32) -> Result<(Cond, &'a str), ReadError>
    ensures { ReadsRest (BeforeComma (IsConditionWithin depth)) text.now result }
{
    let (cond, rest) = read_front(alloc, text, depth)?;
    match behind_comma(rest) {
        Some(after) => Ok((cond, after)),
        None => Err(ReadError::Outside),
    }
}

// A condition with a closing bracket behind, and the rest.
#[cycle(condition)]
fn read_last<'a>(alloc: Global, text: &'a str, depth: u32) -> Result<(Cond, &'a str), ReadError>
    ensures { ReadsRest (InBrackets (IsConditionWithin depth)) text.now result }
{
    let (cond, rest) = read_front(alloc, text, depth)?;
    match closing(rest) {
        Some(after) => Ok((cond, after)),
        None => Err(ReadError::Outside),
    }
}

// ---- conditions that hold no other

// A condition that holds no other, from what stands behind its opening bracket, and the rest.
fn read_held<'a>(alloc: Global, word: Word, text: &'a str) -> Result<(Cond, &'a str), ReadError>
    ensures { ReadsRest (InBrackets (λ c inside. Lacks 41 inside × IsLeaf c word inside)) text.now
        result }
{
    match text.split_once(')') {
        None => Err(ReadError::Outside),
        Some((inside, after)) => match closed(after) {
            None => Err(ReadError::Outside),
            Some(rest) => Ok((read_leaf(alloc, word, inside)?, rest)),
        },
    }
}

// A condition that holds no other, from what is inside of its brackets.
fn read_leaf(alloc: Global, word: Word, text: &str) -> Result<Cond, ReadError>
    ensures { ReadsUnlessMemory (λ c. IsLeaf c word) text.now result }
{
    match word {
        Word::ResourceEquals => {
            let (res, value) = read_pair(alloc, text)?;
            Ok(Cond::resource_equals(res, value))
        }
        Word::ResourceAtLeast => {
            let (res, value) = read_pair(alloc, text)?;
            Ok(Cond::resource_at_least(res, value))
        }
        Word::ResourceChanged => Ok(Cond::resource_changed(read_res(alloc, text)?)),
        Word::AnyWith => Ok(Cond::any_with(Query::read(alloc, text)?)),
        Word::OnEvent => Ok(Cond::on_event(read_event(alloc, text)?)),
        Word::RunOnce | Word::Not | Word::And | Word::Or => Err(ReadError::Outside),
    }
}

// A resource and an integer with a comma between.
fn read_pair(alloc: Global, text: &str) -> Result<(Res, i64), ReadError>
    ensures { ReadsUnlessMemory AreResAndInteger text.now result }
{
    let parts = parts_of(alloc, text)?;
    let Some((left, right)) = two_of(parts.as_slice()) else {
        return Err(ReadError::Outside);
    };
    let res = read_res(alloc, left)?;
    let value = read_value(alloc, right)?;
    Ok((res, value))
}

// ---- single words

// The word that a text has by itself, with spaces round it.
fn only_word<'a>(alloc: Global, text: &'a str) -> Result<&'a str, ReadError>
    ensures { ReadsText (λ word text. AreWordsOf (word ∷ []) text) text.now result }
{
    let words = words_of(alloc, text)?;
    match one_of(words.as_slice()) {
        Some(word) => Ok(word),
        None => Err(ReadError::Outside),
    }
}

// The only one of these texts.
fn one_of<'a>(texts: &[&'a str]) -> Option<&'a str>
    ensures { MatchOption result ((text : List ℕ) → map (λ text. text.now) texts.now ≢ text ∷ [])
        (λ text. map (λ text. text.now) texts.now ≡ text.now ∷ []) }
{
    match texts {
        [text] => Some(text),
        _ => None,
    }
}

// The only two of these texts.
fn two_of<'a>(texts: &[&'a str]) -> Option<(&'a str, &'a str)>
    ensures { MatchOption result
        ((left right : List ℕ) → map (λ text. text.now) texts.now ≢ left ∷ right ∷ []) (λ both. map
        (λ text. text.now) texts.now
        ≡ both.0.now ∷ both.1.now ∷ []) }
{
    match texts {
        [left, right] => Some((left, right)),
        _ => None,
    }
}

// The word of a condition.
fn read_word(alloc: Global, text: &str) -> Result<Word, ReadError>
    ensures { ReadsUnlessMemory (ByWord IsConditionWord) text.now result }
{
    Word::named(only_word(alloc, text)?).ok_or(ReadError::Outside)
}

// A resource by its name.
fn read_res(alloc: Global, text: &str) -> Result<Res, ReadError>
    ensures { ReadsUnlessMemory (ByWord IsRes) text.now result }
{
    Res::named(only_word(alloc, text)?).ok_or(ReadError::Outside)
}

// An event kind by its name.
fn read_event(alloc: Global, text: &str) -> Result<Event, ReadError>
    ensures { ReadsUnlessMemory (ByWord IsEvent) text.now result }
{
    Event::named(only_word(alloc, text)?).ok_or(ReadError::Outside)
}

// An integer.
fn read_value(alloc: Global, text: &str) -> Result<i64, ReadError>
    ensures { ReadsUnlessMemory (ByWord IsInteger) text.now result }
{
    read_integer(only_word(alloc, text)?).ok_or(ReadError::Outside)
}
