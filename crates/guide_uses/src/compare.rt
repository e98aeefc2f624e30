//! Compares two configurations: the renewals of one program under two leases.
ghost use Rattle.std.specs.Prelude.{IfOk, IfSome};
ghost use Rattle.guide_uses.specs.Renewals.{AreRenewals};

use crate::drive::TWO_CORES;
use interleaving_core::{Config, OpenError, System};
use physiological_order::{Memory, Op};
use programs::{End, Step, StepProgram};
use schedules::{Policy, run_to_end};
use std::alloc::Global;

/// How many renewals these steps of one core take by rounds, with this lease; `None` if they aren't all done after
/// 1,000 rounds. A run by rounds has no choice, so the count is that of the configuration.
pub fn renewals(alloc: Global, steps: &[Step], lease: u64) -> Result<Option<u128>, OpenError>
    ensures { IfOk result (λ renewals. IfSome renewals (AreRenewals steps.now lease)) }
{
    let _inside: Option<Op> = None;
    let config = Config {
        cores: 1,
        lease,
        ..TWO_CORES
    };
    let mut system = System::new(alloc, config, Memory::new(alloc))?;
    let mut programs = [StepProgram::new(steps)];
    match run_to_end(alloc, &mut system, &mut programs, Policy::Rounds, 1000) {
        End::AllDone => Ok(Some(system.counts().renewals)),
        _ => Ok(None),
    }
}
