// What the instructions of a block skip.

ghost use Rattle.std.specs.Prelude.{◌≡◌, ◌<◌, ◌^◌, ◌↔◌, ℕ, length, true, false, IsTrue};
ghost use Rattle.lints.specs.Skips.{IsUnreachable, crosses, crossing, holds_always, instruction_at, is_less, is_same, is_same_axis, is_same_field, leads, leads_to, skip_at, skip_of, skips_always};

use script::{Axis, Field, Instruction, Relation, Source};

// How many of the next an instruction skips where its test holds.
fn skip_of(instruction: &Instruction) -> Option<u32>
    ensures { result ≡ skip_of instruction.now }
{
    match *instruction {
        Instruction::Compare { passed, .. } => Some(passed),
        Instruction::Has { passed, .. } => Some(passed),
        _ => None,
    }
}

// How many the instruction at a place skips.
fn skip_at(code: &[Instruction], place: usize) -> Option<u32>
    requires { place < length code.now }
    ensures { result ≡ skip_at code.now place }
{
    skip_of(&code[place])
}

// Whether what two instructions skip crosses, of which the second is a test.
pub(crate) fn crosses(code: &[Instruction], first: usize, second: usize) -> bool
    requires first { first < length code.now }
    requires second { second < length code.now }
    requires short { length code.now < 2 ^ 16 }
    ensures { result ≡ crosses code.now first second }
{
    let is_test = !skips_always(&code[second]);
    crossing(first, skip_at(code, first), second, skip_at(code, second)) && is_test
}

// The same by how many they skip.
fn crossing(first: usize, passed: Option<u32>, second: usize, other: Option<u32>) -> bool
    requires first { first < 2 ^ 16 }
    requires second { second < 2 ^ 16 }
    ensures { result ≡ crossing first passed second other }
{
    match (passed, other) {
        (Some(passed), Some(other)) => {
            let end = first + passed as usize;
            first < second && (second <= end && end < second + other as usize)
        }
        _ => false,
    }
}

// Whether both are one letter.
fn is_same_axis(axis: Axis, other: Axis) -> bool
    ensures { result ≡ is_same_axis axis other }
{
    matches!(
        (axis, other),
        (Axis::X, Axis::X) | (Axis::Y, Axis::Y) | (Axis::V, Axis::V)
    )
}

// Whether both are one field.
fn is_same_field(field: Field, other: Field) -> bool
    ensures { result ≡ is_same_field field other }
{
    field.kind.number() == other.kind.number() && is_same_axis(field.axis, other.axis)
}

// Whether both are one value, whatever the state is.
fn is_same(source: Source, other: Source) -> bool
    ensures { result ≡ is_same source other }
{
    match (source, other) {
        (Source::Integer(value), Source::Integer(other)) => value == other,
        (Source::Register(number), Source::Register(other)) => number == other,
        (Source::Field(field), Source::Field(other)) => is_same_field(field, other),
        (Source::Resource(res), Source::Resource(other)) => res.number() == other.number(),
        (Source::Event, Source::Event) => true,
        _ => false,
    }
}

// Whether both are integers, and the first is less.
fn is_less(source: Source, other: Source) -> bool
    ensures { result ≡ is_less source other }
{
    match (source, other) {
        (Source::Integer(value), Source::Integer(other)) => value < other,
        _ => false,
    }
}

// Whether an instruction skips in every state.
fn skips_always(instruction: &Instruction) -> bool
    ensures { result ≡ skips_always instruction.now }
{
    match *instruction {
        Instruction::Compare {
            relation,
            left,
            right,
            ..
        } => holds_always(relation, left, right),
        _ => false,
    }
}

// Whether a test holds in every state.
fn holds_always(relation: Relation, left: Source, right: Source) -> bool
    ensures { result ≡ holds_always relation left right }
{
    match relation {
        Relation::Less => is_less(left, right),
        Relation::Equal => is_same(left, right),
        Relation::Greater => is_less(right, left),
    }
}

// Whether the instruction at a place is never done.
pub(crate) fn is_unreachable(code: &[Instruction], place: usize) -> bool
    requires within { place < length code.now }
    requires short { length code.now < 2 ^ 16 }
    ensures { IsTrue result ↔ IsUnreachable code.now place }
{
    if place == 0 {
        return false;
    }
    if !skips_always(&code[place - 1]) {
        return false;
    }
    !is_led_to(code, place)
}

// Whether an instruction before a place leads there.
fn is_led_to(code: &[Instruction], place: usize) -> bool
    requires within { place < length code.now }
    requires short { length code.now < 2 ^ 16 }
    ensures { IsTrue result
        ↔ ((from : ℕ) × (from < place) × (leads_to code.now from place ≡ true)) }
{
    for from in 0..place {
        if leads(from, skip_at(code, from), place) {
            return true;
        }
    }
    false
}

// Whether an instruction that skips so many leads to a place.
fn leads(from: usize, passed: Option<u32>, to: usize) -> bool
    requires { from < 2 ^ 16 }
    ensures { result ≡ leads from passed to }
{
    match passed {
        Some(passed) => from + 1 + passed as usize == to,
        None => false,
    }
}
