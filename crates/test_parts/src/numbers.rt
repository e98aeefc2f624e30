//! The numbers of refusals and errors, and how large an arena may be.
use core_pts::IssueError;
use drawn_numbers::DrawError;
use line_arena::{Arena, ArenaError};
use llc_bank::EvictError;
use machine_table::{OpenError, Refusal};
use network::{PartError, SendError};
use private_cache::CacheError;
use std::alloc::Global;

#[test]
fn errors_have_these_numbers(rt: HostRuntime) {
    let refusals = [
        Refusal::Busy.number(),
        Refusal::TooMany.number(),
        Refusal::NoSuch.number(),
        Refusal::NoRoom.number(),
        Refusal::Pinned.number(),
        Refusal::NetworkFull.number(),
        Refusal::NoMemory.number(),
        Refusal::Exhausted.number(),
        Refusal::Stopped.number(),
    ];
    let pairs = [
        [OpenError::BadConfig.number(), OpenError::NoMemory.number()],
        [SendError::Full.number(), SendError::NoMemory.number()],
        [PartError::Exhausted.number(), PartError::NoMemory.number()],
        [ArenaError::NoMemory.number(), ArenaError::TooLarge.number()],
        [IssueError::Busy.number(), IssueError::TooMany.number()],
        [EvictError::NotHere.number(), EvictError::Busy.number()],
        [DrawError::NoMemory.number(), DrawError::TooMany.number()],
        [CacheError::NoRoom.number(), CacheError::NotHere.number()],
    ];
    assert_eq!(rt;
        (refusals, pairs, CacheError::Pinned.number()),
        ([1, 2, 3, 4, 5, 6, 7, 8, 9], [[1, 2]; 8], 3)
    );
}

/// Why an arena with cells for these many bytes, and with these many lists, isn't made, by number; 0 if it is.
fn refusal(alloc: Global, cells: u32, lists: u32) -> u8 {
    match Arena::<u8>::new(alloc, cells, lists) {
        Ok(_) => 0,
        Err(error) => error.number(),
    }
}

#[test]
fn arenas_have_limits(rt: HostRuntime) {
    let alloc = rt.alloc();
    assert_eq!(rt;
        [
            refusal(alloc, 16_777_216, 1),
            refusal(alloc, 16_777_217, 1),
            refusal(alloc, 1, 1_048_576),
            refusal(alloc, 1, 1_048_577),
        ],
        [0, 2, 0, 2]
    );
}
