//! The handle: an owner, and whether it has a machine.
ghost use Rattle.std.specs.Prelude.{◌≡◌, Some, None, MatchOption, is_some, nat_lt};

use crate::owner::Owner;
use crate::parts::Parts;
use interleaving_core::System;
use std::alloc::Global;
use std::mem;

/// A machine that C keeps, or none: all zeros are none. In a clause `owner.held` is the machine.
#[repr(C)]
pub struct Handle {
    pub owner: Owner,
    is_open: u64,
    pub ghost tied: { is_some owner.held ≡ nat_lt 0 is_open },
}

/// Takes the machine out of its handle, which has none then.
pub fn take_out(alloc: Global, handle: &mut Handle) -> Option<Box<System>>
    ensures taken { MatchOption result (handle.old.owner.held ≡ None) (λ system. handle.old.owner.held ≡ Some
        system.value) }
    ensures left { handle.new.owner.held ≡ None }
{
    if handle.is_open == 0 {
        return None;
    }
    let none = Handle {
        owner: Owner::none(alloc),
        is_open: 0,
    };
    let Handle { owner, is_open: _ } = mem::replace(handle, none);
    Some(owner.into_parts().into_box())
}

/// Puts a machine into a handle that has none.
pub fn put_back(handle: &mut Handle, system: Box<System>)
    requires { handle.old.owner.held ≡ None }
    ensures { handle.new.owner.held ≡ Some system.value }
{
    let full = Handle {
        owner: Owner::hold(Parts::of(system)),
        is_open: 1,
    };
    let Handle { owner, is_open: _ } = mem::replace(handle, full);
    owner.drop_empty();
}
