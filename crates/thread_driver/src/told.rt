//! What a turn of a seat reports.
ghost use Rattle.std.specs.Prelude.{◌≡◌};
ghost use Rattle.thread_driver.specs.Given.{told_by_both};
ghost use Rattle.thread_driver.specs.Turns.{has_moved, told_of_turn};

use inbox::Served;
use machine_table::Refusal;
use mailboxes::Turn;

/// The result of a turn of a seat.
#[derive(Clone, Copy, Debug, PartialEq, Eq)]
pub struct Told {
    /// Allocation failed in a call of the seat.
    pub no_memory: bool,
    /// A sum of times didn't fit, and the seat stopped in this turn.
    pub is_exhausted: bool,
    /// A step of a program was done, or a message was put or served.
    pub has_progressed: bool,
}

/// Nothing to report yet.
pub(crate) const QUIET: Told = Told {
    no_memory: false,
    is_exhausted: false,
    has_progressed: false,
};

/// What two turns report together.
pub(crate) fn told_by_both(first: Told, second: Told) -> Told
    ensures { result ≡ told_by_both first second }
{
    Told {
        no_memory: first.no_memory || second.no_memory,
        is_exhausted: first.is_exhausted || second.is_exhausted,
        has_progressed: first.has_progressed || second.has_progressed,
    }
}

/// What the turn of a seat reports, which was stopped or not before and after.
pub(crate) fn told_of_turn(
    was_stopped: bool,
    is_stopped: bool,
    moved: Result<Turn, Refusal>,
) -> Told
    ensures { result ≡ told_of_turn was_stopped is_stopped moved }
{
    Told {
        no_memory: matches!(moved, Err(Refusal::NoMemory)),
        is_exhausted: is_stopped && !was_stopped,
        has_progressed: has_moved_messages(moved),
    }
}

/// Whether messages were put, or one was served.
pub(crate) fn has_moved_messages(moved: Result<Turn, Refusal>) -> bool
    ensures { result ≡ has_moved moved }
{
    match moved {
        Err(_) => false,
        Ok(turn) => turn.put > 0 || !matches!(turn.served, Served::Nothing | Served::Held),
    }
}
