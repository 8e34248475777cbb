// Why a schedule is refused, as the program reports it.

ghost use Rattle.std.specs.Prelude.{◌≡◌, ◌∷◌, ◌++◌, Some, codes, decimal};
ghost use Rattle.std.specs.Fmt.{WritesOnOk};
ghost use Rattle.schedule_builder.specs.FaultText.{build_fault_text, cycle_text, word_text};
ghost use Rattle.schedule_builder.specs.declared.fault.BuildFault.TheVariants.{Memory};

use std::alloc::{AllocError, AllocFailed};
use std::error::Error;
use std::fmt;

/// Why a schedule is refused. It is printed as the program reports it, as `refused B6 a b c a`.
#[derive(Drop)]
pub enum BuildFault {
    /// B1: no item has this name, which is the first such name that is looked up.
    UnknownName(String),
    /// B2: the first item with an earlier item's name has this name.
    DuplicateName(String),
    /// B3: the first set that is in itself.
    HierarchyLoop(String),
    /// B4: sets that hold one another in a circle, each in the next, from the least declared one, each once.
    HierarchyCycle(Vec<String>),
    /// B5: the first item that is ordered with itself.
    DependencyLoop(String),
    /// B7: the item and the set of the first order between an item and a set that holds it, at any depth.
    CrossDependency {
        item: String,
        set: String,
    },
    /// B8: the first order of two sets that share a system, with the least declared system that they share.
    SetsIntersect {
        first: String,
        second: String,
        system: String,
    },
    /// B6: a cycle of items, by orders and by the edges that they give between members, from its least declared item, each item once.
    DependencyCycle(Vec<String>),
    /// B9: the first system of which two parameters conflict.
    SelfConflict(String),
    /// B10: the first query at fault: its system, its number, and the least fault that holds. 1: a kind is required
    /// and excluded. 2: a kind is fetched twice. 3: an `opt` term has an excluded kind.
    BadQuery {
        owner: String,
        query: usize,
        case: u32,
    },
    /// B10: the first condition with a query at fault. It has the condition's number, the number of its first such
    /// query, from the left, and the least fault of that.
    BadConditionQuery {
        condition: usize,
        query: usize,
        case: u32,
    },
    /// B11: the number of the first condition of which a query writes.
    ConditionWrites(usize),
    /// B12: the number of the least limit that is exceeded. 1: at most 256 systems. 2: at most 64 sets. 3: at most
    /// 512 conditions. 4: at most 8 queries in a system. 5: at most 1,024 ids at a start.
    OverLimit(u32),
    /// An allocation failed.
    Memory,
}

impl fmt::Display for BuildFault {
    ghost output = { λ fault. Some (build_fault_text fault) };

    fn fmt<W: fmt::Write>(&self, f: &mut fmt::Formatter<W>) -> fmt::Result {
        let (code, first, second, third) = self.line();
        write!(f, "{code}{first}{second}{third}")
    }
}

impl fmt::Debug for BuildFault {
    ghost debug_output = { λ fault. Some (build_fault_text fault) };

    fn fmt<W: fmt::Write>(&self, f: &mut fmt::Formatter<W>) -> fmt::Result {
        fmt::Display::fmt(self, f)
    }
}

// What stands in a line behind its code, a space before each, or nothing.
#[derive(Clone, Copy)]
enum Word<'a> {
    Nothing,
    Name(&'a str),
    Number(usize),
    Condition(usize),
    Cycle(&'a [String]),
}

impl fmt::Display for Word<'_> {
    ghost output = { λ word. Some (word_text word) };

    fn fmt<W: fmt::Write>(&self, f: &mut fmt::Formatter<W>) -> fmt::Result {
        match self {
            Word::Nothing => Ok(()),
            Word::Name(name) => write_name(f, name),
            Word::Number(number) => write!(f, " {number}"),
            Word::Condition(number) => write!(f, " #{number}"),
            Word::Cycle(names) => write_cycle(f, names),
        }
    }
}

// A code, and up to three words.
type Line<'a> = (&'static str, Word<'a>, Word<'a>, Word<'a>);

// A line with one word.
fn with_word<'a>(code: &'static str, word: Word<'a>) -> Line<'a>
    ensures { result.0.now ++ word_text result.1 ++ word_text result.2 ++ word_text result.3
        ≡ code.now ++ word_text word.entry }
{
    (code, word, Word::Nothing, Word::Nothing)
}

// The line of a query at fault, with code B10: its owner as a word, its number, and what is wrong with it.
fn b10<'a>(owner: Word<'a>, query: usize, case: u32) -> Line<'a>
    ensures { result.0.now ++ word_text result.1 ++ word_text result.2 ++ word_text result.3
        ≡ codes "refused B10" ++ word_text owner.entry ++ (32 ∷ decimal query)
        ++ (32 ∷ decimal case) }
{
    let case = Word::Number(case as usize);
    ("refused B10", owner, Word::Number(query), case)
}

impl BuildFault {
    // The line of the fault: its code, and up to three words.
    fn line(&self) -> Line<'_>
        ensures { result.0.now ++ word_text result.1 ++ word_text result.2 ++ word_text result.3
            ≡ build_fault_text self.now }
    {
        match self {
            BuildFault::UnknownName(name) => with_word("refused B1", Word::Name(name)),
            BuildFault::DuplicateName(name) => with_word("refused B2", Word::Name(name)),
            BuildFault::HierarchyLoop(name) => with_word("refused B3", Word::Name(name)),
            BuildFault::HierarchyCycle(names) => with_word("refused B4", Word::Cycle(names)),
            BuildFault::DependencyLoop(name) => with_word("refused B5", Word::Name(name)),
            BuildFault::DependencyCycle(names) => with_word("refused B6", Word::Cycle(names)),
            BuildFault::CrossDependency { item, set } => (
                "refused B7",
                Word::Name(item),
                Word::Name(set),
                Word::Nothing,
            ),
            BuildFault::SetsIntersect {
                first,
                second,
                system,
            } => (
                "refused B8",
                Word::Name(first),
                Word::Name(second),
                Word::Name(system),
            ),
            BuildFault::SelfConflict(name) => with_word("refused B9", Word::Name(name)),
            BuildFault::BadQuery { owner, query, case } => b10(Word::Name(owner), *query, *case),
            BuildFault::BadConditionQuery {
                condition,
                query,
                case,
            } => b10(Word::Condition(*condition), *query, *case),
            BuildFault::ConditionWrites(condition) => with_word(
                "refused B11",
                Word::Condition(*condition),
            ),
            BuildFault::OverLimit(limit) => with_word("refused B12", Word::Number(*limit as usize)),
            BuildFault::Memory => with_word("error memory", Word::Nothing),
        }
    }
}

// Writes a name, with a space before it.
fn write_name<W: fmt::Write>(f: &mut fmt::Formatter<W>, name: &str) -> fmt::Result
    ensures { WritesOnOk W.write_str_gives f.old result (32 ∷ name.now) f.new }
{
    write!(f, " {name}")
}

// Writes the names of a cycle, a space before each, and its first name again.
fn write_cycle<W: fmt::Write>(f: &mut fmt::Formatter<W>, names: &[String]) -> fmt::Result
    ensures { WritesOnOk W.write_str_gives f.old result (cycle_text names.now) f.new }
{
    for name in names {
        write_name(f, name)?;
    }
    match names.first() {
        Some(name) => write_name(f, name),
        None => Ok(()),
    }
}

impl Error for BuildFault {}

impl From<AllocError> for BuildFault {
    ghost from_gives = { λ _ fault. fault ≡ Memory };

    fn from(_error: AllocError) -> BuildFault {
        BuildFault::Memory
    }
}

impl<T: Drop> From<AllocFailed<T>> for BuildFault {
    ghost from_gives = { λ _ fault. fault ≡ Memory };

    fn from(_error: AllocFailed<T>) -> BuildFault {
        BuildFault::Memory
    }
}
