// Findings as programs read them: a line of JSON for each.

ghost use Rattle.std.specs.Prelude.{◌≡◌, ◌≤◌, IfOk, OnOk, option_map, string_bytes};
ghost use Rattle.diagnostics.specs.Json.{HasHead, IsSaid, said_line};
ghost use Rattle.serde_json.specs.Data.{depth, items_depth, members_depth};
ghost use Rattle.serde_json.specs.View.{items_view, members_view, view};

use crate::finding::{Edit, Finding, Heading, Sheet};
use crate::text::told;
use serde_json::{Map, Value, json, put};
use std::alloc::{AllocError, Global};
use text_marks::excerpts::Labelled;

/// A line of JSON, without its end: an object with the code of a finding, its level, its words, what is marked, and the line that `ecsrun` tells, or
/// null for none.
pub fn json_of_finding(
    alloc: Global,
    heading: Heading<'_>,
    finding: &Finding<'_>,
    line: Option<&str>,
) -> Result<String, AllocError>
    ensures { IfOk result (λ text. IsSaid heading.entry.code.now heading.entry.level
        (said_line (option_map (λ it. it.now) line.entry)) (string_bytes text)) }
{
    let words = words_of(alloc, finding)?;
    let value = object_of(alloc, heading, line, words)?;
    value.to_string(alloc)
}

// The words of a finding, and what is marked.
fn words_of(alloc: Global, finding: &Finding<'_>) -> Result<Map<String, Value>, AllocError>
    ensures { IfOk result (λ map. members_depth (members_view map.entries) ≤ 2) }
{
    let mut map = Map::new(alloc);
    let message = told(alloc, finding.message.as_str())?;
    add(alloc, &mut map, "message", Value::from(message))?;
    let marks = marks_value(alloc, finding.sheets.as_slice())?;
    add(alloc, &mut map, "marks", marks)?;
    let notes = notes_value(alloc, finding.note.as_str())?;
    add(alloc, &mut map, "notes", notes)?;
    let help = help_value(alloc, finding)?;
    add(alloc, &mut map, "help", help)?;
    Ok(map)
}

// Adds a member.
fn add(
    alloc: Global,
    map: &mut Map<String, Value>,
    key: &str,
    value: Value,
) -> Result<(), AllocError>
    requires shallow { members_depth (members_view map.old.entries) ≤ 2 }
    requires value { depth (view value) ≤ 2 }
    ensures { OnOk result (members_depth (members_view map.new.entries) ≤ 2) }
{
    put(map, alloc, key, value)
}

// An object with these members, with a code, a level and the line that is told.
fn object_of(
    alloc: Global,
    heading: Heading<'_>,
    line: Option<&str>,
    words: Map<String, Value>,
) -> Result<Value, AllocError>
    requires { members_depth (members_view words.entries) ≤ 2 }
    ensures { IfOk result (HasHead heading.entry.code.now heading.entry.level
        (said_line (option_map (λ it. it.now) line.entry))) }
{
    let mut map = words;
    let code = Value::try_from_str(alloc, heading.code)?;
    put(&mut map, alloc, "code", code)?;
    let level = Value::try_from_str(alloc, heading.level.word())?;
    put(&mut map, alloc, "level", level)?;
    let line = line_value(alloc, line)?;
    put(&mut map, alloc, "line", line)?;
    Ok(Value::Object(map))
}

// The line that is told, or null.
fn line_value(alloc: Global, line: Option<&str>) -> Result<Value, AllocError>
    ensures { IfOk result (λ value. view value ≡ said_line (option_map (λ it. it.now) line.entry)) }
{
    match line {
        Some(line) => json!(in alloc; line),
        None => Ok(Value::Null),
    }
}

// What there is to know, in an array.
fn notes_value(alloc: Global, note: &str) -> Result<Value, AllocError>
    ensures { IfOk result (λ value. depth (view value) ≤ 1) }
{
    if note.is_empty() {
        return Ok(Value::Array(Vec::new(alloc)));
    }
    let note = told(alloc, note)?;
    json!(in alloc; [note])
}

// What to do, in an array.
fn help_value(alloc: Global, finding: &Finding<'_>) -> Result<Value, AllocError>
    ensures { IfOk result (λ value. depth (view value) ≤ 2) }
{
    if finding.help.is_empty() {
        return Ok(Value::Array(Vec::new(alloc)));
    }
    let help = told(alloc, finding.help.as_str())?;
    match &finding.edit {
        Some(edit) => edit_value(alloc, help.as_str(), edit),
        None => json!(in alloc; [{"text": help.as_str()}]),
    }
}

// What to do as words and an edit, in an array.
fn edit_value(alloc: Global, help: &str, edit: &Edit) -> Result<Value, AllocError>
    ensures { IfOk result (λ value. depth (view value) ≤ 2) }
{
    json!(in alloc; [{
        "text": help,
        "start": edit.span.start,
        "end": edit.span.end,
        "new": edit.new.as_str(),
    }])
}

// What is marked of files, in an array.
fn marks_value(alloc: Global, sheets: &[Sheet<'_>]) -> Result<Value, AllocError>
    ensures { IfOk result (λ value. depth (view value) ≤ 2) }
{
    let mut list = Vec::new(alloc);
    for sheet in sheets {
        push_marks(alloc, &mut list, sheet)?;
    }
    Ok(Value::Array(list))
}

// Adds what is marked of a file.
fn push_marks(alloc: Global, list: &mut Vec<Value>, sheet: &Sheet<'_>) -> Result<(), AllocError>
    requires { items_depth (items_view list.old.items) ≤ 1 }
    ensures { OnOk result (items_depth (items_view list.new.items) ≤ 1) }
{
    for labelled in sheet.excerpt.marks() {
        let mark = mark_value(alloc, sheet.path, labelled)?;
        list.push(mark)?;
    }
    Ok(())
}

// A mark: its bytes, from 0, the line and the column of the first one, from 1, and what is said of it.
fn mark_value(alloc: Global, path: &str, labelled: &Labelled<'_>) -> Result<Value, AllocError>
    ensures { IfOk result (λ value. depth (view value) ≤ 1) }
{
    let column = labelled.mark.column();
    json!(in alloc; {
        "file": path,
        "start": labelled.span.start,
        "end": labelled.span.end,
        "line": labelled.mark.line.number,
        "column": column,
        "label": labelled.label.as_str(),
    })
}
