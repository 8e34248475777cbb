// Lines, and what they ask for.

use crate::load::read_load;
use crate::reading::read_request;
use crate::request::{Request, RequestFault};
use body::Input;
use kinds::Value;
use std::alloc::{AllocError, Global};
use std::test::Fail;

// A line, and what it asks for, told in a few words: `unknown` and `query` where it is no request.
const LINES: [(&str, &str); 54] = [
    ("hello", "hello"),
    ("  hello   ", "hello"),
    ("HELLO", "unknown"),
    ("hello\t", "unknown"),
    ("", "unknown"),
    ("   ", "unknown"),
    ("run 0", "run 0"),
    (" run  0012 ", "run 12"),
    ("run 4096", "run 4096"),
    ("run 4097", "unknown"),
    ("run -1", "unknown"),
    ("run", "unknown"),
    ("run 1 2", "unknown"),
    ("set Gravity -5", "set Gravity -5"),
    ("set gravity 5", "unknown"),
    ("set Gravity", "unknown"),
    (
        "emit Hit 9223372036854775807",
        "emit Hit 9223372036854775807",
    ),
    ("emit Hit 9223372036854775808", "unknown"),
    ("emit Gravity 1", "unknown"),
    ("spawn", "spawn"),
    ("spawn Frozen", "spawn Frozen"),
    (
        "spawn Position 3 4 Frozen Health 7",
        "spawn Position 3 4 Frozen Health 7",
    ),
    ("spawn Health 1 Health 2", "spawn Health 1 Health 2"),
    ("spawn Position 3", "unknown"),
    ("spawn Frozen 3", "unknown"),
    ("spawn 3 Frozen", "unknown"),
    ("insert 7v2 Health 5", "insert 7v2 Health 5"),
    ("insert 7v2 Frozen", "insert 7v2 Frozen"),
    ("insert 7v2 Position 1 2 3", "unknown"),
    ("insert 7 Frozen", "unknown"),
    ("insert 7v2", "unknown"),
    ("remove 0v1 Team", "remove 0v1 Team"),
    ("remove 0v1 Team 3", "unknown"),
    (
        "despawn 4294967295v4294967295",
        "despawn 4294967295v4294967295",
    ),
    ("despawn 4294967296v1", "unknown"),
    ("despawn v1", "unknown"),
    ("world", "world"),
    ("entity 07v002", "entity 7v2"),
    ("query 0 read Position, with Frozen", "query 0 of 2"),
    (
        "query 18446744073709551615",
        "query 18446744073709551615 of 0",
    ),
    ("query 18446744073709551616 read Team", "unknown"),
    ("query 5 mut Team", "query 5 of 1"),
    ("query", "unknown"),
    ("query read Team", "unknown"),
    ("query 0 red Team", "query"),
    ("query 0 read Team, read Team", "query"),
    ("resources", "resources"),
    ("events Spark 00", "events Spark 0"),
    ("values", "values"),
    ("save", "save"),
    ("digest", "digest"),
    ("mark a_1", "mark a_1"),
    ("back Home", "unknown"),
    ("quit", "quit"),
];

// The kinds and the fields of components, each behind a space.
fn components_text(alloc: Global, values: &[Value]) -> Result<String, AllocError> {
    let mut text = String::new(alloc);
    for value in values {
        text.push_str(&format!(in alloc; " {}", value.kind())?)?;
        for word in value.words().as_slice() {
            text.push_str(&format!(in alloc; " {word}")?)?;
        }
    }
    Ok(text)
}

// What an input is, in a few words.
fn input_text(alloc: Global, input: &Input) -> Result<String, AllocError> {
    match input {
        Input::SetResource(res, value) => format!(in alloc; "set {res} {value}"),
        Input::Emit(event, value) => format!(in alloc; "emit {event} {value}"),
        Input::Spawn(values) => {
            let text = components_text(alloc, values.as_slice())?;
            format!(in alloc; "spawn{text}")
        }
        Input::Insert(id, value) => {
            let text = components_text(alloc, &[*value])?;
            format!(in alloc; "insert {id}{text}")
        }
        Input::Remove(id, kind) => format!(in alloc; "remove {id} {kind}"),
        Input::Despawn(id) => format!(in alloc; "despawn {id}"),
    }
}

// What a request is, in a few words.
fn request_text(alloc: Global, request: &Request<'_>) -> Result<String, AllocError> {
    let word = match request {
        Request::Run(times) => return format!(in alloc; "run {times}"),
        Request::Put(input) => return input_text(alloc, input),
        Request::Entity(id) => return format!(in alloc; "entity {id}"),
        Request::Query(since, query) => {
            return format!(in alloc; "query {since} of {}", query.terms().len());
        }
        Request::Events(event, from) => return format!(in alloc; "events {event} {from}"),
        Request::Mark(name) => return format!(in alloc; "mark {name}"),
        Request::Back(name) => return format!(in alloc; "back {name}"),
        Request::Forget(name) => return format!(in alloc; "forget {name}"),
        Request::Hello => "hello",
        Request::World => "world",
        Request::Resources => "resources",
        Request::Values => "values",
        Request::Save => "save",
        Request::Digest => "digest",
        Request::Quit => "quit",
    };
    String::from_str(alloc, word)
}

#[test]
fn lines_ask_for_this(rt: HostRuntime) -> Result<(), Fail> {
    let alloc = rt.alloc();
    for (line, want) in LINES {
        let told = match read_request(alloc, line) {
            Ok(request) => request_text(alloc, &request)?,
            Err(RequestFault::Unknown) => String::from_str(alloc, "unknown")?,
            Err(RequestFault::Query) => String::from_str(alloc, "query")?,
            Err(RequestFault::Memory) => String::from_str(alloc, "memory")?,
        };
        assert_eq!(rt; told.as_str(), want, "at {line}");
    }
    Ok(())
}

// Lines, and what they ask to load, if they do: how many lines, and whether of any program file.
const LOADS: [(&str, Option<(u32, bool)>); 10] = [
    ("load 3", Some((3, false))),
    ("  load   003  anyway ", Some((3, true))),
    ("load 0", Some((0, false))),
    ("load 4294967295", Some((4_294_967_295, false))),
    ("load 4294967296", None),
    ("load", None),
    ("load 3 4", None),
    ("load 3 anyway anyway", None),
    ("loads 3", None),
    ("save", None),
];

#[test]
fn loads_are_read(rt: HostRuntime) -> Result<(), Fail> {
    for (line, wanted) in &LOADS {
        let found = match read_load(line) {
            Some(load) => Some((load.lines, load.anyway)),
            None => None,
        };
        assert!(rt; found == *wanted, "{line}");
    }
    Ok(())
}
