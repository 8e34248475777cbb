// The texts of a place of a program file, read.

ghost use Rattle.std.specs.Prelude.{◌≡◌, List, length, vec_len, map, Any, IfOk, IfErr, IsErrOf};
ghost use Rattle.parsing.specs.Reads.{SpellsNone};
ghost use Rattle.query.specs.Grammar.{IsQuery};
ghost use Rattle.run_condition.specs.Grammar.{IsCondition};
ghost use Rattle.script.specs.Instruction.{IsInstruction};
ghost use Rattle.program_file.specs.Readings.{AreSpelled};
ghost use Rattle.program_file.specs.PlaceFault.{IsNoValue, NoneIs};
ghost use Rattle.query.specs.declared.query.Query.{Query as QueryValue};
ghost use Rattle.run_condition.specs.declared.cond.Cond.{Cond as CondValue};
ghost use Rattle.script.specs.declared.instruction.Instruction.{Instruction as InstructionValue};

use crate::place_fault::PlaceFault;
use query::Query;
use run_condition::Cond;
use script::Instruction;
use std::alloc::Global;

/// The queries that texts spell, in order. `Text` is for one that spells none.
pub fn queries_of(alloc: Global, texts: &[&str]) -> Result<Vec<Query>, PlaceFault>
    ensures ok { IfOk result (λ queries. AreSpelled IsQuery queries.items (map (λ text. text.now)
        texts.now)) }
    ensures count { IfOk result (λ queries. vec_len queries ≡ length texts.now) }
    ensures outside { IsErrOf result PlaceFault.Text
        → Any (λ text. SpellsNone IsQuery text.now) texts.now }
    ensures only { IfErr result IsNoValue }
    ensures refused { IfErr result (NoneIs (λ (queries : List QueryValue). AreSpelled IsQuery
        queries (map (λ text. text.now) texts.now))) }
{
    let mut queries = Vec::new(alloc);
    for text in texts {
        queries.push(Query::read(alloc, text)?)?;
    }
    Ok(queries)
}

/// The conditions that texts spell, in order. `Text` is for one that spells none.
pub fn conditions_of(alloc: Global, texts: &[&str]) -> Result<Vec<Cond>, PlaceFault>
    ensures ok { IfOk result (λ conditions. AreSpelled IsCondition conditions.items (map
        (λ text. text.now) texts.now)) }
    ensures outside { IsErrOf result PlaceFault.Text
        → Any (λ text. SpellsNone IsCondition text.now) texts.now }
    ensures only { IfErr result IsNoValue }
    ensures refused { IfErr result (NoneIs (λ (conditions : List CondValue). AreSpelled IsCondition
        conditions (map (λ text. text.now) texts.now))) }
{
    let mut conditions = Vec::new(alloc);
    for text in texts {
        conditions.push(Cond::read(alloc, text)?)?;
    }
    Ok(conditions)
}

/// The instructions that texts spell, in order. `Text` is for one that spells none.
pub fn instructions_of(alloc: Global, texts: &[&str]) -> Result<Vec<Instruction>, PlaceFault>
    ensures ok { IfOk result (λ code. AreSpelled IsInstruction code.items (map (λ text. text.now)
        texts.now)) }
    ensures outside { IsErrOf result PlaceFault.Text
        → Any (λ text. SpellsNone IsInstruction text.now) texts.now }
    ensures only { IfErr result IsNoValue }
    ensures refused { IfErr result (NoneIs (λ (code : List InstructionValue). AreSpelled
        IsInstruction code (map (λ text. text.now) texts.now))) }
{
    let mut code = Vec::new(alloc);
    for text in texts {
        code.push(Instruction::read(alloc, text)?)?;
    }
    Ok(code)
}
