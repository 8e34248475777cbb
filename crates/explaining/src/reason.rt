// Why a file is refused, and what to do: plain data, printed once.

use crate::build_reason::BuildReason;
use crate::keys::Wants;
use crate::names::Names;
use crate::owner::Owner;
use crate::script_reason::ScriptReason;
use crate::text_reason::TextReason;
use kinds::Kind;
use std::fmt;
use text_marks::Span;
use toml::Value;
use toml::de::Error;

/// Why a file is refused.
#[derive(Clone, Copy)]
pub enum Reason<'a> {
    /// It is longer than its limit.
    TooLong,
    /// It is no document.
    Document(Error),
    /// A key or its value is refused.
    Key(KeyReason<'a>),
    /// A text of a place is none of its form.
    Text(TextReason<'a>),
    /// The schedule is refused.
    Build(BuildReason<'a>),
    /// A script is refused.
    Script(ScriptReason<'a>),
    /// Something else.
    Other(&'static str),
}

/// Why a key of a table or its value is refused.
#[derive(Clone, Copy)]
pub enum KeyReason<'a> {
    /// The table has a key that is none of these.
    Unknown {
        key: &'a str,
        owner: Owner<'a>,
        rules: &'static [(&'static str, Wants)],
    },
    /// The table has no such key.
    Missing {
        key: &'static str,
        owner: Owner<'a>,
    },
    /// The value, or an item of its array, isn't what the key wants.
    Mistyped {
        key: &'a str,
        item: Option<usize>,
        owner: Owner<'a>,
        wants: Wants,
        value: &'a Value,
    },
    /// A text is no name.
    NoName(&'a str),
    /// A word is none of the names of a list.
    NotNamed(Names<'a>, &'a str),
    /// A component has another number of fields than its kind.
    WrongCount(Kind, usize),
    /// The number at a key has more than 32 bits, or is negative.
    OutOfRange(&'a str, i64),
    /// A block has both `each` and `events`.
    Both(Owner<'a>),
}

/// What to do about a reason.
#[derive(Clone, Copy)]
pub enum Help<'a> {
    /// Nothing is known.
    None,
    /// These words.
    Words(&'static str),
    /// To write this.
    Write(&'static str),
    /// To add this key.
    Add(&'static str, &'static str),
    /// To put a text into brackets.
    Bracket(&'a str),
    /// To write two brackets for one round a header.
    Double(&'a str),
    /// To give a component the values of its kind.
    Component(Kind),
    /// To name a field of a kind.
    Fields(Kind),
    /// To insert the values of a kind.
    Insert(Kind),
    /// To have a term of a kind in a query.
    Term(&'static str, Kind),
    /// To give a key a number of 32 bits.
    Range(&'a str),
    /// A name that is similar to a word, or all there are.
    Near(Names<'a>, &'a str),
}

impl fmt::Display for Reason<'_> {
    fn fmt<W: fmt::Write>(&self, f: &mut fmt::Formatter<W>) -> fmt::Result {
        match self {
            Reason::TooLong => write!(f, "the file has over 1,048,576 bytes"),
            Reason::Document(error) => write!(f, "{}", error.message()),
            Reason::Key(reason) => write!(f, "{reason}"),
            Reason::Text(reason) => write!(f, "{reason}"),
            Reason::Build(reason) => write!(f, "{reason}"),
            Reason::Script(reason) => write!(f, "{reason}"),
            Reason::Other(words) => write!(f, "{words}"),
        }
    }
}

impl fmt::Display for KeyReason<'_> {
    fn fmt<W: fmt::Write>(&self, f: &mut fmt::Formatter<W>) -> fmt::Result {
        match self {
            KeyReason::Unknown { key, owner, .. } => write!(f, "unknown key `{key}` in {owner}"),
            KeyReason::Missing { key, owner } => write!(f, "{owner} has no `{key}`"),
            KeyReason::Mistyped {
                key,
                item,
                owner,
                wants,
                value,
            } => {
                let has = words_of(value);
                if let Some(item) = item {
                    write!(f, "item {item} of ")?;
                }
                write!(f, "`{key}` of {owner} wants {wants}, and has {has}")
            }
            KeyReason::NoName(text) => write!(f, "`{text}` is no name"),
            KeyReason::NotNamed(names, word) => {
                write!(f, "no {} is called `{word}`", names.what())
            }
            KeyReason::WrongCount(kind, count) => {
                let (name, width) = (kind.name(), kind.width());
                write!(f, "`{name}` takes {width}, and here are {count}")
            }
            KeyReason::OutOfRange(_, number) => write!(f, "{number} is out of range"),
            KeyReason::Both(owner) => write!(f, "{owner} has both `each` and `events`"),
        }
    }
}

impl fmt::Display for Wants {
    fn fmt<W: fmt::Write>(&self, f: &mut fmt::Formatter<W>) -> fmt::Result {
        let words = match self {
            Wants::Name | Wants::Resource | Wants::Event | Wants::Text => "a text",
            Wants::Flag => "a truth value",
            Wants::Number | Wants::Integer => "an integer",
            Wants::Table => "a table",
            Wants::Names | Wants::Resources | Wants::Events | Wants::Texts => "an array of texts",
            Wants::Integers => "an array of integers",
            Wants::Tables => "an array of tables",
        };
        write!(f, "{words}")
    }
}

// What a value is, in words.
fn words_of(value: &Value) -> &'static str {
    match value {
        Value::String(_) => "a text",
        Value::Integer(_) => "an integer",
        Value::Float(_) => "a number with a point",
        Value::Boolean(_) => "a truth value",
        Value::Datetime(_) => "a date",
        Value::Array(_) => "an array",
        Value::Table(_) => "a table",
    }
}

impl<'a> Reason<'a> {
    /// Where the parser of documents stopped.
    pub fn span(self) -> Option<Span> {
        match self {
            Reason::Document(error) => error.span().map(|range| Span {
                start: range.start,
                end: range.end,
            }),
            _ => None,
        }
    }

    /// What to do.
    pub fn help(self) -> Help<'a> {
        match self {
            Reason::TooLong => Help::Words("split it: a file has at most 1,048,576 bytes"),
            Reason::Document(error) => help_of_message(error.message()),
            Reason::Key(reason) => reason.help(),
            Reason::Text(reason) => reason.help(),
            Reason::Build(reason) => reason.help(),
            Reason::Script(reason) => reason.help(),
            Reason::Other(_) => Help::None,
        }
    }
}

impl<'a> KeyReason<'a> {
    // What to do.
    fn help(self) -> Help<'a> {
        match self {
            KeyReason::Unknown { key, rules, .. } => Help::Near(Names::Keys(rules), key),
            KeyReason::Missing { key, .. } => Help::Add(key, example_of(key)),
            KeyReason::Mistyped {
                key,
                owner,
                wants,
                value,
                ..
            } => help_of_type(key, owner, wants, value),
            KeyReason::NoName(_) => {
                Help::Words("a name has 1 to 32 characters of a-z, 0-9 and _, the first a letter")
            }
            KeyReason::NotNamed(names, word) => Help::Near(names, word),
            KeyReason::WrongCount(kind, _) => Help::Component(kind),
            KeyReason::OutOfRange(key, _) => Help::Range(key),
            KeyReason::Both(_) => Help::Words("make two blocks of it"),
        }
    }
}

// The value of a key that is missing.
fn example_of(key: &str) -> &'static str {
    match key {
        "name" => "\"..\"",
        "items" => "[\"..\", \"..\"]",
        _ => "[\"..\"]",
    }
}

// What to do about a value of another type than its key wants.
fn help_of_type<'a>(key: &'a str, owner: Owner<'a>, wants: Wants, value: &'a Value) -> Help<'a> {
    let is_table = value.is_table() && owner.name.is_empty();
    match (wants, value.as_str()) {
        (Wants::Names | Wants::Resources | Wants::Events | Wants::Texts, Some(text)) => {
            Help::Bracket(text)
        }
        (Wants::Tables, None) if is_table => Help::Double(key),
        (Wants::Integers, _) => match Kind::named(key) {
            Some(kind) => Help::Component(kind),
            None => Help::None,
        },
        _ => Help::Write(wants.example()),
    }
}

impl Wants {
    // A value that is wanted.
    fn example(self) -> &'static str {
        match self {
            Wants::Name => "\"move\"",
            Wants::Resource => "\"Total\"",
            Wants::Event => "\"Hit\"",
            Wants::Text => "\"..\"",
            Wants::Flag => "true",
            Wants::Number | Wants::Integer => "1",
            Wants::Table => "{ }",
            Wants::Names => "[\"move\"]",
            Wants::Resources => "[\"Total\"]",
            Wants::Events => "[\"Hit\"]",
            Wants::Texts => "[\"..\"]",
            Wants::Integers => "[1, 2]",
            Wants::Tables => "[{ .. }]",
        }
    }
}

// What to do about what the parser of documents says.
fn help_of_message(message: &str) -> Help<'static> {
    match message {
        "invalid string" => Help::Words("a text ends on its line, with its quote"),
        "invalid escape sequence" => Help::Words(
            "`\\\\` is a backslash, `\\\"` a quote; a text in `'` has no escapes",
        ),
        "duplicate key" => Help::Words("a key stands once in its table"),
        "key with no value, expected `=`" => Help::Words(
            "a line is `KEY = VALUE`, or a header in brackets",
        ),
        "unclosed table, expected `]`" => Help::Words("a header of one table is `[resources]`"),
        "unclosed array table, expected `]]`" => Help::Words(
            "a header of one of several tables is `[[system]]`",
        ),
        "missing comma between array elements, expected `,` or `]`" => Help::Words(
            "an array is in brackets, with a comma between two values: `[\"a\", \"b\"]`",
        ),
        "missing comma between key-value pairs, expected `,` or `}`" => Help::Words(
            "a table is in braces, with a comma between two keys: `{ each = 0, code = [] }`",
        ),
        "unexpected key or value, expected newline, `#`" => Help::Words(
            "a line ends behind its value, or with a comment behind `#`",
        ),
        "invalid UTF-8" => Help::Words("a program file is UTF-8"),
        _ => Help::None,
    }
}
