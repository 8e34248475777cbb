// What a schedule says of a trace.

ghost use Rattle.std.specs.Prelude.{◌≡◌, IfOk};
ghost use Rattle.trace_checker.specs.declared.check.Verdict.{Verdict};
ghost use Rattle.trace_checker.specs.Verdicts.{IsVerdict, AreVerdicts, is_complete, fault_number};

use crate::checking::Checker;
use executor_core::{StepFault, Trace};
use schedule_builder::Built;
use std::alloc::{AllocError, Global};
use std::fmt;

/// What a schedule says of a trace.
#[derive(Clone, Copy, PartialEq, Eq, Debug)]
pub enum Verdict {
    /// All steps are lawful, every system has ended and every sync point is done.
    Complete,
    /// All steps are lawful, and some are missing.
    Unfinished,
    /// This step, counted from 1, is the first that may not come, for this fault.
    Bad(usize, StepFault),
}

impl Verdict {
    /// Whether all steps are lawful and none is missing.
    pub fn is_complete(&self) -> bool
        ensures { result ≡ is_complete self.now }
    {
        match self {
            Verdict::Complete => true,
            Verdict::Unfinished | Verdict::Bad(_, _) => false,
        }
    }
}

impl fmt::Display for Verdict {
    ghost use Rattle.std.specs.Prelude.{Some};
    ghost use Rattle.trace_checker.specs.Verdicts.{verdict_text};

    ghost output = { λ verdict. Some (verdict_text verdict) };

    fn fmt<W: fmt::Write>(&self, f: &mut fmt::Formatter<W>) -> fmt::Result {
        match self {
            Verdict::Complete => write!(f, "complete"),
            Verdict::Unfinished => write!(f, "unfinished"),
            Verdict::Bad(step, fault) => {
                let number = number_of(*fault);
                write!(f, "bad {step} S{number}")
            }
        }
    }
}

/// The number of a fault, 1 to 9: of those that hold of a step, the least is reported.
pub fn number_of(fault: StepFault) -> u8
    ensures { result ≡ fault_number fault }
{
    match fault {
        StepFault::Unknown => 1,
        StepFault::Repeated => 2,
        StepFault::NotReady => 3,
        StepFault::ConditionOpen => 4,
        StepFault::ConditionFalse => 5,
        StepFault::ConditionTrue => 6,
        StepFault::Conflict => 7,
        StepFault::NotRunning => 8,
        StepFault::LevelOpen => 9,
    }
}

/// What a schedule says of each of these traces, by itself.
pub fn check_all(alloc: Global, built: &Built, traces: &[Trace]) -> Result<Vec<Verdict>, AllocError>
    ensures { IfOk result (λ verdicts. AreVerdicts built.now traces.now verdicts.items) }
{
    let mut checker = Checker::new(built);
    let mut verdicts = Vec::new(alloc);
    for trace in traces {
        verdicts.push(checker.check(alloc, built, trace)?)?;
    }
    Ok(verdicts)
}

/// The verdict of a schedule on a trace: exactly one is that of it. Where the trace records archetypes, two systems
/// meet by those that were recorded last. Recorded answers and archetypes are not compared with a world.
pub fn check(alloc: Global, built: &Built, trace: &Trace) -> Result<Verdict, AllocError>
    ensures verdict { IfOk result (λ verdict. IsVerdict built.now trace.now verdict) }
    ensures only { (other : Verdict) → IsVerdict built.now trace.now other
        → IfOk result (λ verdict. verdict ≡ other) }
{
    let mut checker = Checker::new(built);
    checker.check(alloc, built, trace)
}
