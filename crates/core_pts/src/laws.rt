//! Laws of a core's table. The functions do nothing: their contracts are the laws.
ghost use Rattle.core_pts.specs.CoreLaws.{CompletesOnCopy, FlushOfOpenLineHeld, IdleCoreIssues, LoadReceivesWord};
ghost use Rattle.core_pts.specs.CoreLaws.{NothingCompletedKeeps, OpenCoreIsBusy, PrivateWriteNotBefore};
ghost use Rattle.core_pts.specs.CoreLaws.{ReadsNameVersion};
ghost use Rattle.core_pts.specs.CoreLaws.{SharedReadInLease, SwapReceivesWord, TimeNeverFalls, WriteAfterReaders};
ghost use Rattle.core_pts.specs.CoreLaws.{WriteBackOfOpenLineHeld, WritesNameVersion, WritesOwnedCopy};

/// An attempt completes only the open operation, and only on a copy of its line; a load receives the copy's word, and
/// so does a swap.
pub fn completed_on_a_copy()
    ensures copies { CompletesOnCopy }
    ensures loads { LoadReceivesWord }
    ensures swaps { SwapReceivesWord }
{}

/// A store or swap needs a copy that the core owns, and comes after the end of the copy's lease and not before the
/// core's time. Under private writes, on a copy that the core wrote, it comes before neither.
pub fn writes_come_after_reads()
    ensures owned { WritesOwnedCopy }
    ensures others { WriteAfterReaders }
    ensures private { PrivateWriteNotBefore }
{}

/// A completed operation's time is the core's from then on, and never falls; a copy that the core doesn't own is never
/// read past its lease.
pub fn time_never_falls()
    ensures times { TimeNeverFalls }
    ensures leases { SharedReadInLease }
{}

/// A recall of the line of the open operation is held, for any copy.
pub fn open_line_stays()
    ensures flushes { FlushOfOpenLineHeld }
    ensures write_backs { WriteBackOfOpenLineHeld }
{}

/// A core without an open operation takes one, unless it was issued 4,294,967,295. A core with one is busy.
pub fn idle_core_issues()
    ensures idle { IdleCoreIssues }
    ensures busy { OpenCoreIsBusy }
{}

/// A request names the version of the core's copy of the line, or none without a copy; one to read also names the
/// core's time.
pub fn requests_name_versions()
    ensures reads { ReadsNameVersion }
    ensures writes { WritesNameVersion }
{}

/// An attempt that completes nothing changes nothing.
pub fn nothing_completed_keeps()
    ensures { NothingCompletedKeeps }
{}
