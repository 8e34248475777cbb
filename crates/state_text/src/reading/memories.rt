// The line of what a system or a condition remembers, read.

ghost use Rattle.std.specs.Prelude.{◌≡◌, ℕ, ℤ, List, length, map, FitsSigned, IfOk};
ghost use Rattle.std.specs.Int.{w64};
ghost use Rattle.std.specs.Fmt.{signed_decimal};
ghost use Rattle.std.specs.List.{AllByRecursion};
ghost use Rattle.model.specs.state.State.{Memory as ModelMemory};
ghost use Rattle.body.specs.Steps.{IsMemoryAt};
ghost use Rattle.state_text.specs.Laws.{FitsMemory};
ghost use Rattle.state_text.specs.LineWords.{AreLines, memories_before, memory_words};
ghost use Rattle.state_text.specs.Reading.{Gives, UnlessMemory};

use crate::reading::fault::LineFault;
use crate::reading::lines::Lines;
use crate::reading::words::{integer_of, numbers_of, tick_of};
use body::Memory;
use change_ticks::Tick;
use std::alloc::Global;

// So many memories, a line each.
pub(crate) fn read_memories(
    alloc: Global,
    clock: Tick,
    name: &str,
    count: u64,
    lines: &mut Lines<'_>,
) -> Result<Vec<Memory>, LineFault>
    ensures sound { IfOk result (λ memories. AllByRecursion (IsMemoryAt clock) memories.items) }
    ensures all { (ms : List ModelMemory) (more : List (List (List ℕ))) → length ms ≡ count
        → AllByRecursion (IsMemoryAt clock) ms → AllByRecursion FitsMemory ms
        → AreLines (memories_before name.now ms more) lines.old.rest.now
        → UnlessMemory result (λ memories. (memories.items ≡ ms)
        × AreLines more lines.new.rest.now) }
{
    let mut memories = Vec::new(alloc);
    for _at in 0..count {
        let words = lines.words(alloc)?;
        let memory = read_memory(alloc, clock, name, &words)?;
        memories.reserve(1)?;
        memories.push_reserved(memory);
    }
    Ok(memories)
}

// A memory: whose it is, its last run, its registers, its cursors.
fn read_memory(alloc: Global, clock: Tick, name: &str, words: &[&str]) -> Result<Memory, LineFault>
    ensures sound { IfOk result (λ memory. IsMemoryAt clock memory) }
    ensures all { (m : ModelMemory) → IsMemoryAt clock m → FitsMemory m
        → map (λ word. word.now) words.now ≡ memory_words name.now m → Gives result m }
{
    let [first, last_run, registers @ ..] = words else {
        return Err(LineFault::Outside);
    };
    if *first != name {
        return Err(LineFault::Outside);
    }
    let last_run = tick_of(last_run, clock)?;
    let (registers, cursors) = registers.split_at_checked(8).ok_or(LineFault::Outside)?;
    let registers = registers_of(registers)?;
    let cursors = numbers_of(alloc, cursors)?;
    Ok(Memory::of(last_run, cursors, registers))
}

// Eight registers.
fn registers_of(words: &[&str]) -> Result<[i64; 8], LineFault>
    requires { length words.now ≡ 8 }
    ensures number { IfOk result (λ registers. length registers ≡ 8) }
    ensures all { (zs : List ℤ) → AllByRecursion (FitsSigned w64) zs
        → map (λ word. word.now) words.now ≡ map signed_decimal zs → Gives result zs }
{
    let mut registers = [0; 8];
    for at in 0..8 {
        registers[at] = integer_of(words[at])?;
    }
    Ok(registers)
}
