//! Operations one after the other on one flat memory.
ghost use Rattle.std.specs.Prelude.{◌≡◌, ℕ, IfOk};
ghost use Rattle.physiological_order.specs.Order as order;
ghost use Rattle.physiological_order.specs.Words.{words_end};

use crate::memory::Memory;
use crate::operation::Op;
use std::alloc::{AllocError, Global};

/// What each operation receives when they are performed in this order on a memory that opens as given, and the memory
/// that they leave.
pub fn replay(
    alloc: Global,
    opening: &Memory,
    operations: &[Op],
) -> Result<(Vec<Option<u64>>, Memory), AllocError>
    ensures received { IfOk result (λ replayed.
        replayed.0.items ≡ order.replay (order.flat opening.now) operations.now) }
    ensures left { IfOk result (λ replayed. (word : ℕ) →
        order.flat replayed.1 word ≡ order.replay_end (order.flat opening.now) operations.now word) }
    ensures words { IfOk result (λ replayed. replayed.1 ≡ words_end opening.now operations.now) }
{
    let mut memory = opening.try_clone()?;
    let mut received = Vec::with_capacity(alloc, operations.len())?;
    for operation in operations {
        received.push(memory.perform(*operation)?)?;
    }
    Ok((received, memory))
}
