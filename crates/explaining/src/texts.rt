// The texts of a place: the first one that its reader refuses, and the word of it.

use crate::code_text::of_instruction;
use crate::condition_text::of_condition;
use crate::finding::Found;
use crate::keys::item_text;
use crate::owner::{Owner, items_at};
use crate::query_text::of_query;
use crate::reason::Reason;
use crate::target::Target;
use crate::text_reason::{Blame, TextReason};
use crate::word::Word;
use parsing::ReadError;
use program_file::Place;
use query::Query;
use run_condition::Cond;
use script::Instruction;
use std::alloc::{AllocError, Global};
use toml::{Table, Value};

// What a text is to be.
#[derive(Clone, Copy, PartialEq, Eq)]
enum Form {
    Condition,
    Query,
    Code,
}

/// What the reader of a place refuses first of its texts: conditions, then queries, then code.
pub fn of_place<'a>(
    alloc: Global,
    document: &'a Table,
    place: Place,
) -> Result<Option<Found<'a>>, AllocError> {
    let owner = Owner::of(document, place);
    let Some(table) = owner.table(document) else {
        return Ok(None);
    };
    for (key, form) in [("if", Form::Condition), ("query", Form::Query)] {
        let found = of_texts(alloc, owner, key, items_at(table, key), form)?;
        if found.is_some() {
            return Ok(found);
        }
    }
    of_blocks(alloc, owner, items_at(table, "do"))
}

// What is refused of the texts of some blocks.
fn of_blocks<'a>(
    alloc: Global,
    owner: Owner<'a>,
    blocks: &'a [Value],
) -> Result<Option<Found<'a>>, AllocError> {
    for block in 0..blocks.len() {
        let code = code_of(&blocks[block]);
        let found = of_texts(alloc, owner.with_block(block), "code", code, Form::Code)?;
        if found.is_some() {
            return Ok(found);
        }
    }
    Ok(None)
}

// The code of a block, none where it is no table.
fn code_of(block: &Value) -> &[Value] {
    match block.as_table() {
        Some(table) => items_at(table, "code"),
        None => &[],
    }
}

// What is refused of some texts.
fn of_texts<'a>(
    alloc: Global,
    owner: Owner<'a>,
    key: &'static str,
    items: &'a [Value],
    form: Form,
) -> Result<Option<Found<'a>>, AllocError> {
    for number in 0..items.len() {
        let text = item_text(items, number);
        if !takes(alloc, form, text)? {
            let target = Target::text(owner, key, Some(number), text);
            return Ok(Some(of_text(target, form, text)));
        }
    }
    Ok(None)
}

// Whether a text is of a form.
fn takes(alloc: Global, form: Form, text: &str) -> Result<bool, AllocError> {
    let error = match form {
        Form::Condition => Cond::read(alloc, text).err(),
        Form::Query => Query::read(alloc, text).err(),
        Form::Code => Instruction::read(alloc, text).err(),
    };
    match error {
        None => Ok(true),
        Some(ReadError::Outside) => Ok(false),
        Some(ReadError::Memory) => Err(AllocError),
    }
}

// The word for which a text is none of a form.
fn of_text<'a>(target: Target<'a>, form: Form, text: &'a str) -> Found<'a> {
    let blame = match blame_of(form, Word::whole(text)) {
        Some(blame) => blame,
        None => return Found::of(Reason::Other("a text is none of its form"), target),
    };
    Found::of(Reason::Text(blame.reason), target.within(blame.word))
}

// The same of the text as a word.
fn blame_of<'a>(form: Form, text: Word<'a>) -> Option<Blame<'a>> {
    if let Some(space) = text.odd_space() {
        return Some(Blame::of(space, TextReason::OddSpace(space.text)));
    }
    match form {
        Form::Condition => of_condition(text),
        Form::Query => of_query(text),
        Form::Code => of_instruction(text),
    }
}
