//! What a message and an eviction do to a bank's entry of one line: decisions, which change nothing.
ghost use Rattle.std.specs.Prelude.{◌≡◌, false, true};
ghost use Rattle.std.specs.Option.{option_copied};
ghost use Rattle.std.specs.Result.{result_ok};
ghost use Rattle.llc_bank.specs.OnEntry.{asked_back, evicted, exclusive_request, leased, loaded, read_answer};
ghost use Rattle.llc_bank.specs.OnEntry.{shared_request};

use crate::entry::Entry;
use network::{Body, TimedLine, Words};
use timestamp_manager::{Exhausted, on_exclusive, on_shared, recall_until};

/// What a bank does at a message.
#[derive(Clone, Copy, Debug, PartialEq, Eq)]
pub enum Decision {
    /// A request waits, and nothing changes.
    Waits,
    /// The line is loaded for a request, which waits.
    Loads,
    /// The bank asks the owner to return the line by this message, for a request, which waits.
    Recalls { owner: u32, sent: Body },
    /// A request is answered, which makes the entry the most recently used one.
    Grants { entry: Entry, sent: Body },
    /// A message that is no request makes the entry this one.
    Becomes(Entry),
    /// A message that is no request makes the line leave.
    Leaves,
    /// A sum of times does not fit.
    TooLate,
    /// The table has no case.
    NoCase,
}

/// What a bank does at an eviction.
#[derive(Clone, Copy, Debug, PartialEq, Eq)]
pub enum Eviction {
    /// The bank does not have the line.
    NotThere,
    /// The line is being loaded, recalled or stored.
    IsBusy,
    /// A clean line leaves, leased up to this time.
    Drops { rts: u64 },
    /// A dirty line goes to DRAM, leased up to this time.
    Stores { rts: u64, words: Words },
    /// The bank asks the owner to return the line.
    AsksBack { owner: u32 },
}

// A request of a line that the bank does not have.
fn decide_on_absent_line(room: bool) -> Decision
    ensures { result ≡ loaded room }
{
    if room {
        Decision::Loads
    } else {
        Decision::Waits
    }
}

// What a reader of a line that is leased so is sent: a renewal if it has the version, the line if it has not.
fn reply_to_reader(renews: bool, line: &TimedLine) -> Body
    ensures { result ≡ read_answer renews line.now }
{
    if renews {
        Body::RenewRep { rts: line.rts }
    } else {
        Body::ShRep(*line)
    }
}

// A reader is given a line that is leased so.
#[inline(always)]
fn decide_read_grant(dirty: bool, renews: bool, line: TimedLine) -> Decision
    ensures { result ≡ Decision.Grants (Entry.Shared dirty line) (read_answer renews line) }
{
    let sent = reply_to_reader(renews, &line);
    let entry = Entry::Shared { dirty, line };
    Decision::Grants { entry, sent }
}

// A reader of a line is given this lease; whether it has the version comes with it.
#[inline(always)]
fn decide_on_reader_lease(
    dirty: bool,
    line: &TimedLine,
    lease: Result<(u64, bool), Exhausted>,
) -> Decision
    ensures { result ≡ leased dirty line.now (result_ok lease) }
{
    let Ok((rts, renews)) = lease else {
        return Decision::TooLate;
    };
    let longer = TimedLine {
        wts: line.wts,
        rts,
        words: line.words,
    };
    decide_read_grant(dirty, renews, longer)
}

// The owner is asked to keep a copy leased to this time, if it fits.
fn decide_recall_for_reader(owner: u32, until: Result<u64, Exhausted>) -> Decision
    ensures { result ≡ asked_back owner (result_ok until) }
{
    match until {
        Ok(rts) => Decision::Recalls {
            owner,
            sent: Body::WbReq { rts },
        },
        Err(_) => Decision::TooLate,
    }
}

/// A request to read.
#[inline(always)]
pub(crate) fn decide_shared_request(
    lease: u64,
    room: bool,
    pts: u64,
    version: Option<u64>,
    entry: Option<&Entry>,
) -> Decision
    ensures { result ≡ shared_request lease room pts version (option_copied entry.entry) }
{
    match entry {
        None => decide_on_absent_line(room),
        Some(Entry::Shared { dirty, line }) => decide_on_reader_lease(
            *dirty,
            line,
            on_shared(line.wts, line.rts, pts, version, lease),
        ),
        Some(Entry::Exclusive { owner }) => decide_recall_for_reader(
            *owner,
            recall_until(pts, lease),
        ),
        Some(Entry::Loading | Entry::Recalling { .. } | Entry::Storing) => Decision::Waits,
    }
}

/// A request to own, by a core.
#[inline(always)]
pub(crate) fn decide_exclusive_request(
    room: bool,
    core: u32,
    version: Option<u64>,
    entry: Option<&Entry>,
) -> Decision
    ensures { result ≡ exclusive_request room core version (option_copied entry.entry) }
{
    match entry {
        None => decide_on_absent_line(room),
        Some(Entry::Shared { dirty: _, line }) => {
            let sent = if on_exclusive(line.wts, version) {
                Body::UpgradeRep { rts: line.rts }
            } else {
                Body::ExRep(*line)
            };
            Decision::Grants {
                entry: Entry::Exclusive { owner: core },
                sent,
            }
        }
        Some(Entry::Exclusive { owner }) => Decision::Recalls {
            owner: *owner,
            sent: Body::FlushReq,
        },
        Some(Entry::Loading | Entry::Recalling { .. } | Entry::Storing) => Decision::Waits,
    }
}

/// The entry of a line that its owner gives back.
#[inline(always)]
pub(crate) fn returned_entry(line: &TimedLine) -> Entry
    ensures { result ≡ Entry.Shared true line.now }
{
    Entry::Shared {
        dirty: true,
        line: *line,
    }
}

/// The entry of a line whose words come from DRAM.
#[inline(always)]
pub(crate) fn filled_entry(mts: u64, words: &Words) -> Entry
    ensures { result ≡ Entry.Shared false
        (record { wts = mts; rts = mts; words = words.now }) }
{
    Entry::Shared {
        dirty: false,
        line: TimedLine {
            wts: mts,
            rts: mts,
            words: *words,
        },
    }
}

/// What an eviction of a line that a bank has this entry of does.
pub(crate) fn decide_eviction(entry: Option<&Entry>) -> Eviction
    ensures decision { result ≡ evicted (option_copied entry.entry) }
{
    match entry {
        None => Eviction::NotThere,
        Some(Entry::Shared { dirty: false, line }) => Eviction::Drops { rts: line.rts },
        Some(Entry::Shared { dirty: true, line }) => Eviction::Stores {
            rts: line.rts,
            words: line.words,
        },
        Some(Entry::Exclusive { owner }) => Eviction::AsksBack { owner: *owner },
        Some(Entry::Loading | Entry::Recalling { .. } | Entry::Storing) => Eviction::IsBusy,
    }
}
