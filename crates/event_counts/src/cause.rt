//! Why an operation needs a request.
ghost use Rattle.std.specs.Prelude.{◌≡◌, Some, slice_get};
ghost use Rattle.private_cache.specs.declared.line_copy.LineCopy.{LineCopy};
ghost use Rattle.event_counts.specs.Counting.{cause_of, cause_on, cause_open, cause_without};
ghost use Rattle.event_counts.specs.Losses.{loss};

use crate::lost_copies::LostCopies;
use core_pts::Core;
use interleaving_core::{History, System};
use physiological_order::Op;

/// Why a core needs a request for its open operation: what copy of the line it has, or how it lost its last one.
#[derive(Clone, Copy, Debug, PartialEq, Eq)]
pub enum Cause {
    /// It has none, and never lost one.
    Cold,
    /// It has none: it lost its last one by an eviction of its own.
    Evicted,
    /// It has none: it lost its last one by a recall.
    Recalled,
    /// A load finds a Shared copy whose lease has ended.
    Ended,
    /// A store or swap finds a Shared copy.
    Shared,
}

// The cause of an operation whose line has no copy, by how the core lost its last one.
fn cause_without_copy(lost: Option<Cause>) -> Cause
    ensures { result ≡ cause_without lost }
{
    match lost {
        None => Cause::Cold,
        Some(lost) => lost,
    }
}

// The cause of an operation whose line has a copy.
fn cause_on_copy(op: &Op) -> Cause
    ensures { (copy : LineCopy) (lost : _) → result ≡ cause_on op.now (Some copy) lost }
{
    match *op {
        Op::Load(_) => Cause::Ended,
        Op::Store(_, _) => Cause::Shared,
        Op::Swap(_, _) => Cause::Shared,
    }
}

// The cause of a core's open operation.
fn cause_of_open_op(lost: &LostCopies, number: u32, core: &Core) -> Cause
    ensures { result ≡ cause_open lost.now.lost number core.now core.now.open_op }
{
    let Some((op, _)) = core.open_op() else {
        return Cause::Cold;
    };
    let line = core.line_of(op);
    match core.copy(line) {
        None => cause_without_copy(lost.loss(number, line)),
        Some(_) => cause_on_copy(&op),
    }
}

// The cause of a core that was answered Requested: its copy is as it was.
pub(crate) fn cause_of<K: History>(lost: &LostCopies, system: &System<K>, core: u32) -> Cause
    ensures { result ≡ cause_of lost.now.lost core (slice_get system.now.cores core) }
{
    match system.core(core) {
        None => Cause::Cold,
        Some(state) => cause_of_open_op(lost, core, state),
    }
}
