// What is found of the blocks of a system.

ghost use Rattle.std.specs.Prelude.{◌≡◌, ◌==◌, ◌<◌, ◌≤◌, OnOk, length};
ghost use Rattle.lints.specs.Collected.{Adds, Among};
ghost use Rattle.lints.specs.Lints.{IsOfBlock, IsOfBlocks, IsOfInstruction, IsOfPair, looked_at};

use crate::adding::add_where;
use crate::lint::Lint;
use crate::skips::{crosses, is_unreachable};
use script::{Block, Instruction};
use std::alloc::AllocError;

// In a block of more instructions it isn't looked at what they skip.
const MOST_LOOKED_AT: usize = 512;

// A block of a system, by their numbers.
#[derive(Clone, Copy)]
pub struct Within {
    /// The number of the system.
    pub system: usize,
    /// The number of the block.
    pub block: usize,
}

// How many instructions of a block are looked at for what they skip.
fn looked_at(code: &[Instruction]) -> usize
    ensures looked { result ≡ looked_at code.now }
    ensures within { result ≤ length code.now }
    ensures few { result ≤ 512 }
    ensures all { 0 < result → length code.now ≤ 512 }
{
    if code.len() <= MOST_LOOKED_AT {
        code.len()
    } else {
        0
    }
}

// Whether there is no instruction.
fn is_empty(code: &[Instruction]) -> bool
    ensures { result ≡ (length code.now == 0) }
{
    code.is_empty()
}

// Adds what is found of two instructions.
fn add_of_pair(
    found: &mut Vec<Lint>,
    code: &[Instruction],
    at: Within,
    first: usize,
    second: usize,
) -> Result<(), AllocError>
    requires first { first < length code.now }
    requires second { second < length code.now }
    requires short { length code.now ≤ 512 }
    ensures { OnOk result (Adds (IsOfPair code.now at.system at.block first second)
        found.old.items found.new.items) }
{
    let is = crosses(code, first, second);
    let Within { system, block } = at;
    let crossing = Lint::CrossingSkip {
        system,
        block,
        first,
        second,
    };
    add_where(found, is, crossing)?;
    Ok(())
}

// Adds what is found of an instruction and each other.
fn add_of_pairs(
    found: &mut Vec<Lint>,
    code: &[Instruction],
    at: Within,
    first: usize,
) -> Result<(), AllocError>
    requires first { first < length code.now }
    requires short { length code.now ≤ 512 }
    ensures { OnOk result (Adds
        (Among (length code.now) (IsOfPair code.now at.system at.block first)) found.old.items
        found.new.items) }
{
    for second in 0..code.len() {
        add_of_pair(found, code, at, first, second)?;
    }
    Ok(())
}

// Adds what is found of an instruction.
fn add_of_instruction(
    found: &mut Vec<Lint>,
    code: &[Instruction],
    at: Within,
    place: usize,
) -> Result<(), AllocError>
    requires within { place < length code.now }
    requires short { length code.now ≤ 512 }
    ensures { OnOk result (Adds (IsOfInstruction code.now at.system at.block place)
        found.old.items found.new.items) }
{
    let is = is_unreachable(code, place);
    let unreachable = Lint::Unreachable {
        system: at.system,
        block: at.block,
        instruction: place,
    };
    add_where(found, is, unreachable)?;
    add_of_pairs(found, code, at, place)?;
    Ok(())
}

// Adds what is found of the instructions of a block that are looked at.
fn add_of_code(found: &mut Vec<Lint>, code: &[Instruction], at: Within) -> Result<(), AllocError>
    ensures { OnOk result (Adds
        (Among (looked_at code.now) (IsOfInstruction code.now at.system at.block))
        found.old.items found.new.items) }
{
    for place in 0..looked_at(code) {
        add_of_instruction(found, code, at, place)?;
    }
    Ok(())
}

// Adds what is found of a block.
fn add_of_block(found: &mut Vec<Lint>, block: &Block, at: Within) -> Result<(), AllocError>
    ensures { OnOk result (Adds (IsOfBlock block.now.code.items at.system at.block)
        found.old.items found.new.items) }
{
    let code = block.code.as_slice();
    let empty = Lint::EmptyCode {
        system: at.system,
        block: at.block,
    };
    add_where(found, is_empty(code), empty)?;
    add_of_code(found, code, at)?;
    Ok(())
}

// Adds what is found of the blocks of a system.
pub(crate) fn add_of_blocks(
    found: &mut Vec<Lint>,
    blocks: &[Block],
    system: usize,
) -> Result<(), AllocError>
    ensures { OnOk result (Adds
        (Among (length blocks.now) (IsOfBlocks blocks.now system)) found.old.items
        found.new.items) }
{
    for block in 0..blocks.len() {
        let at = Within { system, block };
        add_of_block(found, &blocks[block], at)?;
    }
    Ok(())
}
