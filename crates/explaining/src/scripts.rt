// The words for which a script is refused.

use crate::code_text::{Form, Operand, form_of};
use crate::finding::Found;
use crate::keys::item_text;
use crate::orders::{item_named, named_at};
use crate::owner::{Owner, items_at, table_of, text_at};
use crate::reason::Reason;
use crate::script_reason::ScriptReason;
use crate::target::Target;
use crate::terms::{FETCHING, WRITING, has_term};
use crate::word::Word;
use kinds::Kind;
use parsing::integer::read_number;
use script::check::place;
use script::{Cause, Source};
use toml::{Table, Value};

// So many words of an instruction are looked at; none takes more than five.
const MOST_WORDS: usize = 64;

// How many registers a system has.
const REGISTERS: u32 = 8;

// A block of a system, and the instruction that is refused.
#[derive(Clone, Copy)]
struct Scope<'a> {
    owner: Owner<'a>,
    system: &'a Table,
    block: &'a Table,
    instruction: usize,
}

// A word, and what is wrong with it.
#[derive(Clone, Copy)]
struct Wrong<'a> {
    word: Word<'a>,
    reason: ScriptReason<'a>,
}

/// What is found of an instruction of a system, by the number of its block, that is refused for a cause.
pub fn of_script<'a>(
    document: &'a Table,
    system: &str,
    cause: Cause,
    block: usize,
    instruction: usize,
) -> Option<Found<'a>> {
    let (_, owner, table) = item_named(document, system, 0)?;
    let scope = Scope {
        owner: owner.with_block(block),
        system: table,
        block: table_of(items_at(table, "do").get(block)?)?,
        instruction,
    };
    if instruction == 0 {
        let found = scope.of_rounds(cause);
        if found.is_some() {
            return found;
        }
    }
    scope.of_code(cause)
}

impl<'a> Scope<'a> {
    // The same of how often the block runs.
    fn of_rounds(self, cause: Cause) -> Option<Found<'a>> {
        let count = items_at(self.system, "query").len();
        match (cause, self.each()) {
            (Cause::NotFetched, Some(query)) if self.query().is_none() => {
                let reason = ScriptReason::NoQuery(query, count);
                let target = Target::value(self.owner, "each", None);
                Some(Found::of(Reason::Script(reason), target))
            }
            (Cause::NotDeclared, None) if self.is_of_events() => {
                let kind = text_at(self.block, "events");
                if self.names("reads", kind) {
                    return None;
                }
                let target = Target::text(self.owner, "events", None, kind);
                let reason = ScriptReason::EventUnread(kind);
                Some(Found::of(Reason::Script(reason), target))
            }
            _ => None,
        }
    }

    // The number of the query of which the block runs for each row.
    fn each(self) -> Option<i64> {
        match self.block.get("each") {
            Some(Value::Integer(number)) => Some(*number),
            _ => None,
        }
    }

    // Whether the block runs for each event.
    fn is_of_events(self) -> bool {
        self.block.contains_key("events")
    }

    // The text of the query of which the block runs for each row.
    fn query(self) -> Option<&'a str> {
        let number = usize::try_from(self.each()?).ok()?;
        let items = items_at(self.system, "query");
        if number < items.len() {
            Some(item_text(items, number))
        } else {
            None
        }
    }

    // Whether a name is in an array of the system.
    fn names(self, key: &'static str, name: &str) -> bool {
        named_at(self.owner, self.system, key, name).is_some()
    }

    // How many ids the system is granted, where it has Commands.
    fn spawns(self) -> Option<i64> {
        match self.system.get("spawns") {
            Some(Value::Integer(count)) => Some(*count),
            _ => None,
        }
    }

    // What is found of the instruction.
    fn of_code(self, cause: Cause) -> Option<Found<'a>> {
        let items = items_at(self.block, "code");
        let text = item_text(items, self.instruction);
        let target = Target::text(self.owner, "code", Some(self.instruction), text);
        let Some(Wrong { word, reason }) = self.of_words(cause, Word::whole(text)) else {
            return Some(Found::of(Reason::Other("an instruction is refused"), target));
        };
        Some(self.with_query(
            Found::of(Reason::Script(reason), target.within(word)),
            reason,
        ))
    }

    // What is found, with the query beside it where the reason is told of that.
    fn with_query(self, found: Found<'a>, reason: ScriptReason<'a>) -> Found<'a> {
        if !reason.is_of_query() {
            return found;
        }
        match self.query_target() {
            Some(query) => found.beside(query, "the query"),
            None => found,
        }
    }

    // The query of which the block runs for each row, as it is marked.
    fn query_target(self) -> Option<Target<'a>> {
        let text = self.query()?;
        let number = usize::try_from(self.each()?).ok()?;
        let owner = Owner {
            place: self.owner.place,
            block: None,
            name: self.owner.name,
        };
        Some(Target::text(owner, "query", Some(number), text))
    }

    // The first word that is refused for a cause.
    fn of_words(self, cause: Cause, text: Word<'a>) -> Option<Wrong<'a>> {
        let (first, words) = text.first();
        let form = form_of(first.text)?;
        let mut rest = words;
        let mut count = 0usize;
        for _ in 0..MOST_WORDS {
            let (word, more) = rest.first();
            if word.is_empty() {
                break;
            }
            let reason = self.of_word(cause, form, operand_of(form, count), word.text);
            if let Some(reason) = reason {
                return Some(Wrong { word, reason });
            }
            rest = more;
            count = count.saturating_add(1);
        }
        let reason = self.of_whole(cause, first, words)?;
        Some(Wrong {
            word: first,
            reason,
        })
    }

    // Why a word is refused for a cause.
    fn of_word(
        self,
        cause: Cause,
        form: Form,
        operand: Operand,
        word: &'a str,
    ) -> Option<ScriptReason<'a>> {
        match cause {
            Cause::NotFetched => self.unfetched(form, operand, word),
            Cause::NotDeclared => self.undeclared(operand, word),
            Cause::NoField => of_field(operand, word),
            Cause::PastEnd if operand == Operand::Count => self.past_end(word),
            Cause::NoRegister => of_register(operand, word),
            Cause::NotGranted => self.ungranted(form, word),
            _ => None,
        }
    }

    // A word of a component that the query doesn't fetch, or doesn't write, or of the row, which it doesn't show.
    fn unfetched(self, form: Form, operand: Operand, word: &'a str) -> Option<ScriptReason<'a>> {
        let kind = match (operand, source_in(operand, word)) {
            (Operand::Kind, _) if form.word == "has" => Kind::named(word)?,
            (Operand::Subject, _) if word == "row" => return self.unshown(),
            (_, Some(Source::Field(field))) => field.kind,
            _ => return None,
        };
        let (Some(query), Some(number)) = (self.query(), self.each()) else {
            return Some(ScriptReason::OutsideEach(word));
        };
        if !has_term(query, FETCHING, kind.name()) {
            return Some(ScriptReason::NotFetched(word, kind, number, self.owner.name));
        }
        if operand == Operand::Target && !has_term(query, WRITING, kind.name()) {
            return Some(ScriptReason::NotMut(word, kind, number, self.owner.name));
        }
        None
    }

    // The row, which no query shows.
    fn unshown(self) -> Option<ScriptReason<'a>> {
        let (Some(query), Some(number)) = (self.query(), self.each()) else {
            return Some(ScriptReason::OutsideEach("row"));
        };
        if has_term(query, &["entity"], "") {
            return None;
        }
        Some(ScriptReason::NoEntity(number))
    }

    // A resource or an event that the system doesn't name, or an event that isn't at hand.
    fn undeclared(self, operand: Operand, word: &'a str) -> Option<ScriptReason<'a>> {
        if operand == Operand::Event && !self.names("writes", word) {
            return Some(ScriptReason::EventUnwritten(word));
        }
        let is_written = self.names("res_mut", word);
        match source_in(operand, word)? {
            Source::Event if !self.is_of_events() => Some(ScriptReason::OutsideEvents),
            Source::Resource(_) if operand == Operand::Target && !is_written => {
                Some(ScriptReason::ResUnwritten(word))
            }
            Source::Resource(_) if !is_written && !self.names("res", word) => {
                Some(ScriptReason::ResUnread(word))
            }
            _ => None,
        }
    }

    // A count of more instructions than come behind.
    fn past_end(self, word: &str) -> Option<ScriptReason<'a>> {
        let passed = read_number(word)?;
        let count = items_at(self.block, "code").len();
        let behind = count.saturating_sub(self.instruction).saturating_sub(1);
        Some(ScriptReason::PastEnd(passed, behind))
    }

    // A slot that isn't granted, or is spawned more than once.
    fn ungranted(self, form: Form, word: &'a str) -> Option<ScriptReason<'a>> {
        let number = read_number(word.strip_prefix('g')?)?;
        let count = self.spawns()?;
        if i64::from(number) >= count {
            return Some(ScriptReason::NoSlot(word, count));
        }
        if form.word != "spawn" {
            return None;
        }
        if self.each().is_some() || self.is_of_events() {
            return Some(ScriptReason::SpawnedOften(word));
        }
        Some(ScriptReason::SpawnedBefore(word))
    }

    // Why an instruction is refused for a cause, whatever its words.
    fn of_whole(self, cause: Cause, first: Word<'a>, words: Word<'a>) -> Option<ScriptReason<'a>> {
        match cause {
            Cause::NoField if first.text == "insert" => {
                let kind = words.first().1.first().0;
                Some(ScriptReason::WrongValues(Kind::named(kind.text)?))
            }
            Cause::NotGranted => Some(ScriptReason::NoCommands(first.text)),
            _ => None,
        }
    }
}

// What an instruction of a form wants of its word of this number: behind the others of an insertion values.
fn operand_of(form: Form, number: usize) -> Operand {
    match form.operands.get(number) {
        Some(operand) => *operand,
        None => Operand::Source,
    }
}

// What a word that is read or written is.
fn source_in(operand: Operand, word: &str) -> Option<Source> {
    match operand {
        Operand::Target | Operand::Source => Source::read(word),
        _ => None,
    }
}

// A field that its kind hasn't.
fn of_field<'a>(operand: Operand, word: &'a str) -> Option<ScriptReason<'a>> {
    match source_in(operand, word)? {
        Source::Field(field) if place(field.kind.width(), field.axis).is_none() => {
            let (_, axis) = word.split_once('.')?;
            Some(ScriptReason::NoField(field.kind, axis))
        }
        _ => None,
    }
}

// A register that isn't there.
fn of_register<'a>(operand: Operand, word: &'a str) -> Option<ScriptReason<'a>> {
    match source_in(operand, word)? {
        Source::Register(number) if number >= REGISTERS => Some(ScriptReason::NoRegister(word)),
        _ => None,
    }
}
