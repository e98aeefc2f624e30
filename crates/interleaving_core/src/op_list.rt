//! The operations that a core was issued.
ghost use Rattle.std.specs.Prelude.{◌≡◌, ◌++◌, ◌∷◌, [], OnErr, OnOk};

use physiological_order::Op;
use std::alloc::{AllocError, Global};
use std::marker::Model;

/// Operations in the order in which they were issued. Contracts see the list.
#[derive(Drop)]
pub struct OpList {
    ops: Vec<Op>,
}

impl Model for OpList {
    ghost use Rattle.std.specs.Prelude.{List};
    ghost use Rattle.physiological_order.specs.declared.operation.Op.{Op};

    ghost Value = { List Op };

    ghost view = { λ a. a.ops.items };
}

impl OpList {
    // No operations; this takes no memory yet.
    pub(crate) fn new(alloc: Global) -> OpList
        ensures { result ≡ [] }
    {
        OpList {
            ops: Vec::new(alloc),
        }
    }

    // One more operation. Where memory is refused nothing changes.
    pub(crate) fn push(&mut self, op: &Op) -> Result<(), AllocError>
        ensures pushed { OnOk result (self.new ≡ self.old ++ op.now ∷ []) }
        ensures refused { OnErr result (self.new ≡ self.old) }
    {
        self.ops.push(*op)?;
        Ok(())
    }

    // Drops all operations. The memory stays.
    pub(crate) fn clear(&mut self)
        ensures { self.new ≡ [] }
    {
        self.ops.clear();
    }

    /// The operations.
    pub fn as_slice(&self) -> &[Op]
        ensures { result.now ≡ self.now }
    {
        &self.ops
    }
}
