//! The signals as they open, with all their signalers.
ghost use Rattle.std.specs.Prelude.{◌≡◌, ℕ, ◌+◌, ◌<◌, ◌≤◌, false, [], length, IfOk};
ghost use Rattle.stop_flags.specs.Told.{nothing};
ghost use Rattle.stop_flags.specs.Signalers.{AreNewSignalers, AllNewSignalers, HasMade};

use crate::signaler::Signaler;
use crate::signals::Signals;
use crate::steps::{FlagSeat, make_seat};
use crate::words::Said;
use atomic_table::Table;
use std::alloc::{AllocError, Global};

/// Signals that nobody has set, with a signaler for each of 1 to 16 workers. AllocError if memory for them can't be
/// allocated.
pub fn open_signals(alloc: Global, workers: u32) -> Result<(Signals, Vec<Signaler>), AllocError>
    requires { (0 < workers) × (workers ≤ 16) }
    ensures { IfOk result (λ r. (r.0.workers ≡ workers) × (length r.1.items ≡ workers) ×
        AreNewSignalers r.0 r.1.items) }
{
    let (signals, mut first) = open_flag_table(alloc, workers)?;
    let mut all = open_other_signalers(alloc, &signals, &mut first)?;
    all.insert(0, new_signaler(first))?;
    Ok((signals, all))
}

// The table, and the first seat.
fn open_flag_table(alloc: Global, workers: u32) -> Result<(Signals, FlagSeat), AllocError>
    requires { (0 < workers) × (workers ≤ 16) }
    ensures { IfOk result (λ r. (r.0.workers ≡ workers) × HasMade r.0 1 r.1) }
{
    let (table, first) = Table::of_words(alloc, &[0, 0], &workers)?;
    let signals = Signals { table, workers };
    Ok((signals, first))
}

// All signalers but the first.
fn open_other_signalers(
    alloc: Global,
    signals: &Signals,
    first: &mut FlagSeat,
) -> Result<Vec<Signaler>, AllocError>
    requires { HasMade signals.now 1 first.old }
    ensures others { IfOk result (λ ss. (length ss.items + 1 ≡ signals.now.workers) ×
        AllNewSignalers signals.now 1 ss.items) }
    ensures first { IfOk result (λ ss. HasMade signals.now signals.now.workers first.new) }
{
    let mut others = Vec::new(alloc);
    for number in 1..signals.workers {
        let seat = make_seat(&signals.table.shared, first);
        others.push(new_signaler(seat))?;
    }
    Ok(others)
}

// A signaler as it opens.
fn new_signaler(seat: FlagSeat) -> Signaler
    requires { (seat.me.0.spent ≡ false) × (seat.me.0.mine.said ≡ nothing) × (seat.me.1 ≡ []) }
    ensures { (result.seat ≡ seat) × (result.said ≡ nothing) }
{
    let said = Said {
        finished: 0,
        stops: false,
    };
    Signaler { seat, said }
}
