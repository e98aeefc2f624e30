//! Checks what threads did with a machine, once it is closed.
ghost use Rattle.std.specs.Prelude.{◌≡◌, IfOk};
ghost use Rattle.closed_machine.specs.RunParts.{Parts};

use closed_machine::Run;
use physiological_order::{Op, Verdict, check};
use std::alloc::{AllocError, Global};

/// Checks what a machine left as it was closed. The records are legal: any threads may have driven its seats.
pub fn check_run(alloc: Global, run: &Run) -> Result<Verdict, AllocError>
    requires { Parts run.now }
    ensures { IfOk result (λ verdict. verdict ≡ Verdict.Legal) }
{
    let mut issued: Vec<Vec<Op>> = Vec::new(alloc);
    for core in 0..run.set_up.config.cores {
        let ops = Vec::from_slice(alloc, run.issued(core))?;
        issued.push(ops)?;
    }
    check(alloc, &run.set_up.memory, &issued, run.records())
}
