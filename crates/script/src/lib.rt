// Scripts: what a system does, as data.
#![tactic(auto)]

ghost use Rattle.script.specs.Within.{ScriptsKeepWithin, ScriptsKeepWithinShown};

mod blocks;
pub mod check;
mod columns;
pub mod fault;
pub mod frame;
pub mod instruction;
mod interpreter;
mod listed_columns;
pub mod operands;
pub mod row_plan;
pub mod script_body;

/// The answer of a script without fault keeps within the parameters of its system, on all that a system with these
/// parameters can be shown. It writes components at `mut` terms alone, of their kinds' widths, resources that the
/// system writes, and the system's registers. It issues commands only with Commands. It inserts components of their
/// kinds' widths, and spawns granted ids alone, none twice.
pub fn scripts_keep_within()
    ensures within { ScriptsKeepWithin }
    ensures shown { ScriptsKeepWithinShown }
{}

pub use fault::{Cause, CheckFault, ScriptFault};
pub use frame::{FrameOp, FrameTarget, Operand, Operands};
pub use instruction::{Instruction, Operation, Relation};
pub use operands::{Axis, Field, Mentions, Source, Subject, Target, Values};
pub use row_plan::RowPlan;
pub use script_body::{Block, Rounds, ScriptBody};
