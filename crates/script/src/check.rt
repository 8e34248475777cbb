// What is looked at in a script before it runs.

ghost use Rattle.std.specs.Prelude.{◌≡◌, ◌<◌, ℕ, [], map};
ghost use Rattle.std.specs.List.{list_any};
ghost use Rattle.std.specs.Result.{result_err};
ghost use Rattle.model.specs.Lists.{is_number};
ghost use Rattle.model.specs.access.Query.{written, writes as query_writes};
ghost use Rattle.body.specs.Seen.{fetched, fetches as query_fetches};
ghost use Rattle.kinds.specs.Kind.{kind_number};
ghost use Rattle.query.specs.Term.{term_of};
ghost use Rattle.script.specs.Script.{place_in};
ghost use Rattle.access_set.specs.Footprints.{has_bit};
ghost use Rattle.script.specs.Faults.{is_unfetched, names_unfetched, names_undeclared, named_cause, has_field, source_cause, target_cause, count_cause, is_entity, shows_entity, commands_cause, slot_cause, subject_cause, pair_cause, values_cause, values_count, width_cause, least, instruction_cause};
ghost use Rattle.script.specs.Faults.{IsCommand, is_spawn, code_spawns, blocks_spawn, is_once, is_at_event, spawn_cause, code_fault};
ghost use Rattle.script.specs.Block.{block_of};

use crate::fault::{Cause, ScriptFault};
use crate::instruction::Instruction;
use crate::operands::{Axis, Field, Mentions, Source, Subject, Target, Values};
use crate::script_body::{Block, Rounds};
use access_set::Params;
use kinds::kind::prove_kinds_apart;
use kinds::{Kind, Res};
use query::Term;

/// How many registers a system has.
const REGISTERS: u32 = 8;

/// The place of a field among the fields of a kind, by how many the kind has.
pub fn place(width: usize, axis: Axis) -> Option<usize>
    ensures { result ≡ place_in width axis }
{
    match (axis, width) {
        (Axis::X, 2) | (Axis::V, 1) => Some(0),
        (Axis::Y, 2) => Some(1),
        _ => None,
    }
}

// Whether the kind of a field has the field.
fn has_field(field: Field) -> bool
    ensures { result ≡ has_field field }
{
    place(field.kind.width(), field.axis).is_some()
}

// Whether one of these terms writes a kind.
fn any_writes(terms: &[Term], kind: Kind) -> bool
    ensures { result
        ≡ list_any (λ term. is_number (kind_number kind) (written (term_of term))) terms.now }
{
    terms.iter().any(|term| term.writes(kind))
}

// Whether one of these terms fetches a kind.
fn any_fetches(terms: &[Term], kind: Kind) -> bool
    ensures { result
        ≡ list_any (λ term. is_number (kind_number kind) (fetched (term_of term))) terms.now }
{
    terms.iter().any(|term| term.fetches(kind))
}

// Whether a query with these terms has a `mut` term of a kind.
#[tactic(auto, using(crate::proofs::Terms::over_terms))]
fn writes(terms: &[Term], kind: Kind) -> bool
    ensures { result ≡ query_writes (map term_of terms.now) (kind_number kind) }
{
    any_writes(terms, kind)
}

// Whether a query with these terms fetches a kind.
#[tactic(auto, using(crate::proofs::Terms::over_terms))]
fn fetches(terms: &[Term], kind: Kind) -> bool
    ensures { result ≡ query_fetches (map term_of terms.now) (kind_number kind) }
{
    any_fetches(terms, kind)
}

// What is wrong with a source, where there is an event at hand and where not.
fn source_cause(params: &Params, terms: &[Term], event: bool, source: Source) -> Option<Cause>
    ensures { result ≡ source_cause params.now (map term_of terms.now) event source }
{
    match source {
        Source::Field(field) if !fetches(terms, field.kind) => Some(Cause::NotFetched),
        Source::Field(field) if !has_field(field) => Some(Cause::NoField),
        Source::Resource(resource) if !params.names_resource(resource) => Some(Cause::NotDeclared),
        Source::Register(number) if number >= REGISTERS => Some(Cause::NoRegister),
        Source::Event if !event => Some(Cause::NotDeclared),
        _ => None,
    }
}

// What is wrong with a target.
fn target_cause(params: &Params, terms: &[Term], target: Target) -> Option<Cause>
    ensures { result ≡ target_cause params.now (map term_of terms.now) target }
{
    match target {
        Target::Field(field) if !writes(terms, field.kind) => Some(Cause::NotFetched),
        Target::Field(field) if !has_field(field) => Some(Cause::NoField),
        Target::Resource(resource) if !params.writes_resource(resource) => Some(Cause::NotDeclared),
        Target::Register(number) if number >= REGISTERS => Some(Cause::NoRegister),
        _ => None,
    }
}

// What is wrong with a count of instructions to pass over, where so many come after.
fn count_cause(after: usize, passed: u32) -> Option<Cause>
    ensures { result ≡ count_cause after passed }
{
    if after < passed as usize {
        return Some(Cause::PastEnd);
    }
    None
}

// Whether a term shows the entity of its rows.
fn is_entity(term: Term) -> bool
    ensures { result ≡ is_entity (term_of term) }
{
    match term {
        Term::Entity => true,
        _ => false,
    }
}

// Whether one of these terms shows the entity of its rows.
fn any_entity(terms: &[Term]) -> bool
    ensures { result ≡ list_any (λ term. is_entity (term_of term)) terms.now }
{
    terms.iter().any(|term| is_entity(*term))
}

// Whether a query with these terms shows the entities of its rows.
#[tactic(auto, using(crate::proofs::Terms::over_terms))]
fn shows_entity(terms: &[Term]) -> bool
    ensures { result ≡ shows_entity (map term_of terms.now) }
{
    any_entity(terms)
}

// What is wrong with a command by itself.
fn commands_cause(params: &Params) -> Option<Cause>
    ensures { result ≡ commands_cause params.now }
{
    match params.spawns() {
        Some(_) => None,
        None => Some(Cause::NotGranted),
    }
}

// What is wrong with a slot.
fn slot_cause(params: &Params, slot: u32) -> Option<Cause>
    ensures { result ≡ slot_cause params.now slot }
{
    match params.spawns() {
        Some(count) if slot < count => None,
        _ => Some(Cause::NotGranted),
    }
}

// What is wrong with whom a command is about.
fn subject_cause(params: &Params, terms: &[Term], subject: Subject) -> Option<Cause>
    ensures { result ≡ subject_cause params.now (map term_of terms.now) subject }
{
    match subject {
        Subject::Row => {
            let shown = (!shows_entity(terms)).then_some(Cause::NotFetched);
            Cause::least(shown, commands_cause(params))
        }
        Subject::Granted(slot) => slot_cause(params, slot),
    }
}

// What is wrong with two sources.
fn pair_cause(
    params: &Params,
    terms: &[Term],
    event: bool,
    first: Source,
    second: Source,
) -> Option<Cause>
    ensures { result ≡ pair_cause params.now (map term_of terms.now) event first second }
{
    Cause::least(
        source_cause(params, terms, event, first),
        source_cause(params, terms, event, second),
    )
}

// Whether one of these kinds is named and not fetched.
fn any_unfetched(kinds: &[Kind], terms: &[Term], named: Mentions) -> bool
    ensures { result
        ≡ list_any (λ kind. is_unfetched (map term_of terms.now) named (kind_number kind))
        kinds.now }
{
    kinds.iter().any(|kind| has_bit(named.kinds, kind.number()) && !fetches(terms, *kind))
}

// Whether a kind is named of which the query fetches no component.
#[tactic(auto, using(crate::proofs::Terms::over_terms))]
fn names_unfetched(terms: &[Term], named: Mentions) -> bool
    ensures { result ≡ names_unfetched (map term_of terms.now) named }
{
    any_unfetched(Kind::every(), terms, named)
}

// Whether a resource is named that the system does not declare.
fn names_undeclared(params: &Params, named: Mentions) -> bool
    ensures { result ≡ names_undeclared params.now named }
{
    Res::ALL.iter().any(|resource| has_bit(named.resources, resource.number())
        && !params.names_resource(*resource))
}

// Whether the word has the bit of a number.
fn has_bit(word: u64, number: u32) -> bool
    requires { number < 64 }
    ensures { result ≡ has_bit word number }
{
    (word >> number) & 1 == 1
}

// What is wrong with what more values name than a kind has fields.
fn named_cause(params: &Params, terms: &[Term], event: bool, named: Mentions) -> Option<Cause>
    ensures { result ≡ named_cause params.now (map term_of terms.now) event named }
{
    if names_unfetched(terms, named) {
        return Some(Cause::NotFetched);
    }
    if names_undeclared(params, named) || (named.event && !event) {
        return Some(Cause::NotDeclared);
    }
    None
}

// What is wrong with the values of a component.
fn values_cause(params: &Params, terms: &[Term], event: bool, values: Values) -> Option<Cause>
    ensures { result ≡ values_cause params.now (map term_of terms.now) event values }
{
    match values {
        Values::One(value) => source_cause(params, terms, event, value),
        Values::Two(first, second) => pair_cause(params, terms, event, first, second),
        Values::Many(named) => named_cause(params, terms, event, named),
        Values::Empty => None,
    }
}

// How many values there are: three stands for more than two.
fn values_count(values: Values) -> usize
    ensures { result ≡ values_count values }
{
    match values {
        Values::Empty => 0,
        Values::One(_) => 1,
        Values::Two(_, _) => 2,
        Values::Many(_) => 3,
    }
}

// What is wrong with the count of values, for components of a kind.
fn width_cause(kind: Kind, values: Values) -> Option<Cause>
    ensures { result ≡ width_cause kind values }
{
    if values_count(values) == kind.width() {
        return None;
    }
    Some(Cause::NoField)
}

// The least fault of an insertion.
fn insert_cause(
    params: &Params,
    terms: &[Term],
    event: bool,
    subject: Subject,
    kind: Kind,
    values: Values,
) -> Option<Cause>
    ensures { result
        ≡ least (subject_cause params.now (map term_of terms.now) subject) (least
        (width_cause kind values) (values_cause params.now (map term_of terms.now) event
        values)) }
{
    let value = Cause::least(
        width_cause(kind, values),
        values_cause(params, terms, event, values),
    );
    Cause::least(subject_cause(params, terms, subject), value)
}

// The least fault of an instruction that so many come after, in a block of a query with these terms, or of events.
fn cause_of(
    params: &Params,
    terms: &[Term],
    event: bool,
    after: usize,
    instruction: Instruction,
) -> Option<Cause>
    ensures { result
        ≡ instruction_cause params.now (map term_of terms.now) event after instruction }
{
    match instruction {
        Instruction::Change { target, source, .. } => Cause::least(
            target_cause(params, terms, target),
            source_cause(params, terms, event, source),
        ),
        Instruction::Compare {
            left,
            right,
            passed,
            ..
        } => Cause::least(
            pair_cause(params, terms, event, left, right),
            count_cause(after, passed),
        ),
        Instruction::Has { kind, passed } => {
            let asked = (!fetches(terms, kind)).then_some(Cause::NotFetched);
            Cause::least(asked, count_cause(after, passed))
        }
        Instruction::Emit {
            event: kind,
            source,
        } => {
            let written = (!params.writes_event(kind)).then_some(Cause::NotDeclared);
            Cause::least(written, source_cause(params, terms, event, source))
        }
        command => command_cause(params, terms, event, command),
    }
}

// The least fault of an instruction that issues a command.
fn command_cause(
    params: &Params,
    terms: &[Term],
    event: bool,
    instruction: Instruction,
) -> Option<Cause>
    requires { IsCommand instruction }
    ensures { (after : ℕ)
        → result ≡ instruction_cause params.now (map term_of terms.now) event after instruction }
{
    match instruction {
        Instruction::Spawn { slot } => slot_cause(params, slot),
        Instruction::Insert {
            subject,
            kind,
            values,
        } => insert_cause(params, terms, event, subject, kind, values),
        Instruction::Remove { subject, .. } => subject_cause(params, terms, subject),
        Instruction::Despawn { subject } => subject_cause(params, terms, subject),
        _ => None,
    }
}

// Whether an instruction spawns a slot.
fn is_spawn(instruction: Instruction, slot: u32) -> bool
    ensures { result ≡ is_spawn slot instruction }
{
    match instruction {
        Instruction::Spawn { slot: spawned } => spawned == slot,
        _ => false,
    }
}

// Whether code spawns a slot.
fn code_spawns(code: &[Instruction], slot: u32) -> bool
    ensures { result ≡ code_spawns slot code.now }
{
    code.iter().any(|instruction| is_spawn(*instruction, slot))
}

// Whether a block spawns a slot.
fn block_spawns(block: &Block, slot: u32) -> bool
    ensures { result ≡ code_spawns slot (block_of block.now).code }
{
    code_spawns(block.code.as_slice(), slot)
}

// Whether one of these blocks spawns a slot.
fn any_spawns(blocks: &[Block], slot: u32) -> bool
    ensures { result ≡ list_any (λ block. code_spawns slot (block_of block).code) blocks.now }
{
    blocks.iter().any(|block| block_spawns(block, slot))
}

// The same, of the blocks as contracts see them.
#[tactic(auto, using(crate::proofs::Terms::over_terms))]
fn blocks_spawn(blocks: &[Block], slot: u32) -> bool
    ensures { result ≡ blocks_spawn slot (map block_of blocks.now) }
{
    any_spawns(blocks, slot)
}

// Whether a block runs once.
fn is_once(rounds: Rounds) -> bool
    ensures { result ≡ is_once rounds }
{
    match rounds {
        Rounds::Once => true,
        Rounds::EachRow(_) | Rounds::EachEvent(_) => false,
    }
}

// Whether an event is at hand.
fn is_at_event(rounds: Rounds) -> bool
    ensures { result ≡ is_at_event rounds }
{
    match rounds {
        Rounds::EachEvent(_) => true,
        Rounds::Once | Rounds::EachRow(_) => false,
    }
}

// What is wrong with a spawn, after these blocks and these instructions of its block.
fn spawn_cause(
    rounds: Rounds,
    before: &[Block],
    done: &[Instruction],
    instruction: Instruction,
) -> Option<Cause>
    ensures { result ≡ spawn_cause rounds (map block_of before.now) done.now instruction }
{
    match instruction {
        Instruction::Spawn { slot } => {
            let spawned = blocks_spawn(before, slot) || code_spawns(done, slot);
            (!(is_once(rounds) && !spawned)).then_some(Cause::NotGranted)
        }
        _ => None,
    }
}

// The first fault of the code of a block, after these blocks.
pub(crate) fn check_code(
    params: &Params,
    terms: &[Term],
    rounds: Rounds,
    before: &[Block],
    code: &[Instruction],
) -> Result<(), ScriptFault>
    ensures { code_fault params.now (map term_of terms.now) rounds (map block_of before.now) []
        code.now
        ≡ result_err result }
{
    let event = is_at_event(rounds);
    for (instruction, there) in code.iter().enumerate() {
        let after = code.len() - instruction - 1;
        let own = cause_of(params, terms, event, after, *there);
        let spawned = spawn_cause(rounds, before, &code[..instruction], *there);
        if let Some(cause) = Cause::least(own, spawned) {
            return Err(ScriptFault {
                cause,
                block: before.len(),
                instruction,
            });
        }
    }
    Ok(())
}
