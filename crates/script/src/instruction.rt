// The instructions of a script, and how they are read.

ghost use Rattle.std.specs.Prelude.{◌≡◌, ◌≢◌, ◌↔◌, IsTrue, [], ◌∷◌, map, codes};
ghost use Rattle.parsing.specs.Reads.{Reads, ReadsUnlessMemory};
ghost use Rattle.script.specs.Instruction.{IsOperation, IsRelation, IsCount, AreInstruction, IsNoInsert, IsInstruction};

use crate::operands::{Source, Subject, Target, Values, read_slot};
use kinds::{Event, Kind};
use parsing::ReadError;
use parsing::integer::read_number;
use parsing::words::words_of;
use std::alloc::Global;

/// What becomes of a target and a source.
#[derive(Clone, Copy)]
pub enum Operation {
    /// The source.
    Set,
    /// The sum, cut to the least or greatest value of 64 bits where it does not fit.
    Add,
    /// The difference, cut likewise.
    Sub,
    /// The product, cut likewise.
    Mul,
    /// The lesser.
    Min,
    /// The greater.
    Max,
}

impl Operation {
    /// The operation that a word names.
    pub fn named(word: &str) -> Option<Operation>
        ensures { Reads IsOperation word.now result }
    {
        match word {
            "set" => Some(Operation::Set),
            "add" => Some(Operation::Add),
            "sub" => Some(Operation::Sub),
            "mul" => Some(Operation::Mul),
            "min" => Some(Operation::Min),
            "max" => Some(Operation::Max),
            _ => None,
        }
    }
}

/// How two values compare.
#[derive(Clone, Copy)]
pub enum Relation {
    /// The left is less than the right.
    Less,
    /// Both are equal.
    Equal,
    /// The left is greater than the right.
    Greater,
}

impl Relation {
    /// The relation that a word names.
    pub fn named(word: &str) -> Option<Relation>
        ensures { Reads IsRelation word.now result }
    {
        match word {
            "less" => Some(Relation::Less),
            "equal" => Some(Relation::Equal),
            "greater" => Some(Relation::Greater),
            _ => None,
        }
    }
}

/// An instruction.
#[derive(Clone, Copy)]
pub enum Instruction {
    /// The target becomes what the operation makes of it and the source.
    Change {
        operation: Operation,
        target: Target,
        source: Source,
    },
    /// Where the relation holds between two values, a number of the next instructions is skipped.
    Compare {
        relation: Relation,
        left: Source,
        right: Source,
        passed: u32,
    },
    /// Where the row at hand has the kind, a number of the next instructions is skipped.
    Has {
        kind: Kind,
        passed: u32,
    },
    /// An event of the kind is emitted, with the value of the source.
    Emit {
        event: Event,
        source: Source,
    },
    /// The entity of the slot is to live, with no component.
    Spawn {
        slot: u32,
    },
    /// The subject is to have a component of the kind, with these values.
    Insert {
        subject: Subject,
        kind: Kind,
        values: Values,
    },
    /// The subject is to have no component of the kind.
    Remove {
        subject: Subject,
        kind: Kind,
    },
    /// The subject is to live no more.
    Despawn {
        subject: Subject,
    },
}

// Reads how many instructions are passed over: one at the least.
fn read_count(word: &str) -> Option<u32>
    ensures { Reads IsCount word.now result }
{
    match read_number(word)? {
        0 => None,
        count => Some(count),
    }
}

// Whether a word is that of insertions.
fn is_insert(word: &str) -> bool
    ensures { IsTrue result ↔ (word.now ≡ codes "insert") }
{
    match word {
        "insert" => true,
        _ => false,
    }
}

impl Instruction {
    /// Reads an instruction: its words, with one or more spaces between and any number at either end.
    pub fn read(alloc: Global, text: &str) -> Result<Instruction, ReadError>
        ensures { ReadsUnlessMemory IsInstruction text.now result }
    {
        let words = words_of(alloc, text)?;
        match Instruction::of_words(words.as_slice()) {
            Some(instruction) => Ok(instruction),
            None => Err(ReadError::Outside),
        }
    }

    // The instruction that the words are.
    fn of_words(words: &[&str]) -> Option<Instruction>
        ensures { Reads AreInstruction (map (λ word. word.now) words.now) result }
    {
        if let [first, subject, kind, values @ ..] = words {
            if is_insert(first) {
                return Instruction::insert(subject, kind, values);
            }
        }
        Instruction::of_other_words(words)
    }

    // The instruction that the words are, where it is no insertion.
    fn of_other_words(words: &[&str]) -> Option<Instruction>
        requires { IsNoInsert (map (λ word. word.now) words.now) }
        ensures { Reads AreInstruction (map (λ word. word.now) words.now) result }
    {
        match words {
            [relation, left, right, passed] => Instruction::compare(relation, left, right, passed),
            [first, second, third] => Instruction::of_three(first, second, third),
            [first, second] => Instruction::of_two(first, second),
            _ => None,
        }
    }

    // The instruction that these three words are, where it is no insertion.
    fn of_three(first: &str, second: &str, third: &str) -> Option<Instruction>
        requires { first.now ≢ codes "insert" }
        ensures { Reads AreInstruction (first.now ∷ second.now ∷ third.now ∷ []) result }
    {
        match first {
            "has" => Instruction::has(second, third),
            "emit" => Instruction::emit(second, third),
            "remove" => Instruction::remove(second, third),
            _ => Instruction::change(first, second, third),
        }
    }

    // The instruction that these two words are.
    fn of_two(first: &str, second: &str) -> Option<Instruction>
        ensures { Reads AreInstruction (first.now ∷ second.now ∷ []) result }
    {
        match first {
            "spawn" => Instruction::spawn(second),
            "despawn" => Instruction::despawn(second),
            _ => None,
        }
    }

    // The change that these words are.
    fn change(operation: &str, target: &str, source: &str) -> Option<Instruction>
        requires has { operation.now ≢ codes "has" }
        requires emit { operation.now ≢ codes "emit" }
        requires insert { operation.now ≢ codes "insert" }
        requires remove { operation.now ≢ codes "remove" }
        ensures { Reads AreInstruction (operation.now ∷ target.now ∷ source.now ∷ []) result }
    {
        Some(Instruction::Change {
            operation: Operation::named(operation)?,
            target: Target::read(target)?,
            source: Source::read(source)?,
        })
    }

    // The comparison that these words are.
    fn compare(relation: &str, left: &str, right: &str, passed: &str) -> Option<Instruction>
        requires { relation.now ≢ codes "insert" }
        ensures { Reads AreInstruction (relation.now ∷ left.now ∷ right.now ∷ passed.now ∷ [])
            result }
    {
        Some(Instruction::Compare {
            relation: Relation::named(relation)?,
            left: Source::read(left)?,
            right: Source::read(right)?,
            passed: read_count(passed)?,
        })
    }

    // The question for a kind that these words are, after the first.
    fn has(kind: &str, passed: &str) -> Option<Instruction>
        ensures { Reads AreInstruction (codes "has" ∷ kind.now ∷ passed.now ∷ []) result }
    {
        Some(Instruction::Has {
            kind: Kind::named(kind)?,
            passed: read_count(passed)?,
        })
    }

    // The emission that these words are, after the first.
    fn emit(event: &str, source: &str) -> Option<Instruction>
        ensures { Reads AreInstruction (codes "emit" ∷ event.now ∷ source.now ∷ []) result }
    {
        Some(Instruction::Emit {
            event: Event::named(event)?,
            source: Source::read(source)?,
        })
    }

    // The spawn that this word is, after the first.
    fn spawn(slot: &str) -> Option<Instruction>
        ensures { Reads AreInstruction (codes "spawn" ∷ slot.now ∷ []) result }
    {
        Some(Instruction::Spawn {
            slot: read_slot(slot)?,
        })
    }

    // The insertion that these words are, after the first.
    fn insert(subject: &str, kind: &str, values: &[&str]) -> Option<Instruction>
        ensures { Reads AreInstruction
            (codes "insert" ∷ subject.now ∷ kind.now ∷ map (λ word. word.now) values.now) result }
    {
        Some(Instruction::Insert {
            subject: Subject::read(subject)?,
            kind: Kind::named(kind)?,
            values: Values::read(values)?,
        })
    }

    // The removal that these words are, after the first.
    fn remove(subject: &str, kind: &str) -> Option<Instruction>
        ensures { Reads AreInstruction (codes "remove" ∷ subject.now ∷ kind.now ∷ []) result }
    {
        Some(Instruction::Remove {
            subject: Subject::read(subject)?,
            kind: Kind::named(kind)?,
        })
    }

    // The end that this word is, after the first.
    fn despawn(subject: &str) -> Option<Instruction>
        ensures { Reads AreInstruction (codes "despawn" ∷ subject.now ∷ []) result }
    {
        Some(Instruction::Despawn {
            subject: Subject::read(subject)?,
        })
    }
}
