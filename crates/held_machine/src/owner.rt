//! The owner of a machine, or of none, as C lays out a pointer.
ghost use Rattle.std.specs.Prelude.{◌≡◌, IsSome, Option, Some, None};
ghost use Rattle.machine_table.specs.Machine.{Machine};
ghost use Rattle.held_machine.specs.Ownership.{held_code, owner_owns};

use crate::parts::Parts;
use interleaving_core::System;
use std::alloc::Global;
use std::marker::Model;

/// Owns the machine that `at` points to, or nothing. The pointer's type doesn't say so, since C may hold no type that
/// leads to borrowed cells. In a clause `held` is the machine.
#[repr(C)]
pub struct Owner {
    at: *mut u8,
    alloc: Global,
    pub ghost held: { Option Machine } by { held_code },
}

impl Model for Owner {
    ghost also_owns = { λ owner. owner_owns owner.alloc owner.at owner.held };
}

impl Owner {
    /// The owner of nothing.
    pub(crate) fn none(alloc: Global) -> Owner
        ensures { result.held ≡ None }
    {
        Owner {
            at: std::ptr::null_mut(),
            alloc,
        }
    }

    /// The owner of a machine.
    pub(crate) fn hold(parts: Parts<System, Global>) -> Owner
        ensures { result.held ≡ Some parts.value }
    {
        let Parts { ptr, alloc } = parts;
        Owner {
            at: ptr as *mut u8,
            alloc,
        }
    }

    /// The machine of an owner that has one.
    pub(crate) fn into_parts(self) -> Parts<System, Global>
        requires { IsSome self.held }
        ensures { self.held ≡ Some result.value }
    {
        let Owner { at, alloc } = self;
        Parts {
            ptr: at as *mut System,
            alloc,
        }
    }

    /// Lets an owner of nothing go. An owner that has a machine can't be let go: it has no `Drop`.
    pub(crate) fn drop_empty(self)
        requires { self.held ≡ None }
    {
        let Owner { at: _, alloc: _ } = self;
    }
}
