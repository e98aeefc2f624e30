//! Counts the cores that are done, and finds whether all turns were used.
ghost use Rattle.std.specs.Prelude.{◌≡◌, ◌≤◌, true, length};
ghost use Rattle.std.specs.List.{zip};
ghost use Rattle.thread_driver.specs.Shifts.{AreOver};
ghost use Rattle.thread_driver.specs.Teams.{AreUsed, over_in};

use crate::core_turns::is_over;
use mailboxes::CoreSeat;
use programs::program::Program;

/// Whether no core has an open operation, and no program a next step.
pub(crate) fn are_core_seats_over<P: Program>(cores: &[CoreSeat], programs: &[P]) -> bool
    requires { length programs.now ≡ length cores.now }
    ensures done { result ≡ true → AreOver P.acts cores.now programs.now }
    ensures all_done { AreOver P.acts cores.now programs.now → result ≡ true }
{
    for i in 0..cores.len() {
        if !is_over(&cores[i], &programs[i]) {
            return false;
        }
    }
    true
}

/// How many cores have no open operation, and a program without a next step.
pub(crate) fn count_core_seats_over<P: Program>(cores: &[CoreSeat], programs: &[P]) -> u64
    requires { length programs.now ≡ length cores.now }
    ensures { result ≡ over_in P.acts (zip cores.now programs.now) }
{
    let mut count = 0;
    for i in 0..cores.len() {
        count += u64::from(is_over(&cores[i], &programs[i]));
    }
    count
}

/// Whether each seat had as many turns as it may: of the first `cores` and the first `banks` of these numbers.
pub(crate) fn all_turns_used(
    cores_had: &[u32],
    cores: usize,
    banks_had: &[u32],
    banks: usize,
    limit: u32,
) -> bool
    requires { (cores ≤ length cores_had.now) × (banks ≤ length banks_had.now) }
    ensures { result ≡ true →
        AreUsed limit cores cores_had.now × AreUsed limit banks banks_had.now }
{
    are_turns_used(cores_had, cores, limit) && are_turns_used(banks_had, banks, limit)
}

// The same of seats of one kind.
fn are_turns_used(had: &[u32], seats: usize, limit: u32) -> bool
    requires { seats ≤ length had.now }
    ensures { result ≡ true → AreUsed limit seats had.now }
{
    for i in 0..seats {
        if had[i] < limit {
            return false;
        }
    }
    true
}
