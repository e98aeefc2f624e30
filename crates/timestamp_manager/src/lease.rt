//! How far a line's lease extends when it is asked for or returned, and what a requester must be sent.
ghost use Rattle.std.specs.Prelude.{◌≡◌, ◌+◌};
ghost use Rattle.std.specs.Result.{result_ok};
ghost use Rattle.timestamp_manager.specs.Lease.{if_fits, is_version, returned_lease, shared_lease};

/// A sum of times does not fit 64 bits.
#[derive(Clone, Copy, Debug, PartialEq, Eq)]
pub struct Exhausted;

/// A request to read a line written at `wts` and leased to `rts`, by a reader at time `pts` that has the copy of this
/// version, or none. Answers the time to which the line is leased then, the latest of `rts`, `wts + lease` and
/// `pts + lease`, and whether that alone renews the reader's copy, which has the line's version.
///
/// Exhausted exactly when `wts + lease` or `pts + lease` does not fit.
pub fn on_shared(
    wts: u64,
    rts: u64,
    pts: u64,
    version: Option<u64>,
    lease: u64,
) -> Result<(u64, bool), Exhausted>
    ensures { result_ok result ≡ shared_lease wts rts pts version lease }
{
    let from_write = end_of_lease(wts, lease)?;
    let from_reader = end_of_lease(pts, lease)?;
    let renews = on_exclusive(wts, version);
    Ok((rts.max(from_write).max(from_reader), renews))
}

/// A request to own a line written at `wts`, by a core that has the copy of this version, or none: whether the copy
/// has the line's words, so that the grant alone is sent.
pub fn on_exclusive(wts: u64, version: Option<u64>) -> bool
    ensures { result ≡ is_version wts version }
{
    match version {
        Some(version) => version == wts,
        None => false,
    }
}

/// The time to which an owner is asked to lease its line when a reader at time `pts` needs it: `pts + lease`.
///
/// Exhausted exactly when the sum does not fit.
pub fn recall_until(pts: u64, lease: u64) -> Result<u64, Exhausted>
    ensures { result_ok result ≡ if_fits (pts + lease) }
{
    end_of_lease(pts, lease)
}

/// An owner returns a line written at `wts` and leased to `rts`, and is asked to lease it at least to `until`: the
/// time to which its copy may be read from now on, the latest of `rts`, `wts + lease` and `until`.
///
/// Exhausted exactly when `wts + lease` does not fit.
pub fn downgrade(wts: u64, rts: u64, until: u64, lease: u64) -> Result<u64, Exhausted>
    ensures { result_ok result ≡ returned_lease wts rts until lease }
{
    let from_write = end_of_lease(wts, lease)?;
    Ok(rts.max(from_write).max(until))
}

// The end of a lease that begins at a time.
fn end_of_lease(time: u64, lease: u64) -> Result<u64, Exhausted>
    ensures { result_ok result ≡ if_fits (time + lease) }
{
    match time.checked_add(lease) {
        Some(end) => Ok(end),
        None => Err(Exhausted),
    }
}
