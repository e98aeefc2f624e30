//! Laws of leases. The functions do nothing: their contracts are the laws.
ghost use Rattle.timestamp_manager.specs.LeaseLaws.{AbsentNeverRenews, ReturnedLeaseFits, ReturnedLeaseIsShortest};
ghost use Rattle.timestamp_manager.specs.LeaseLaws.{ReturnedLeaseReaches, SharedLeaseCovers, SharedLeaseFits};
ghost use Rattle.timestamp_manager.specs.LeaseLaws.{SharedLeaseIsShortest};

/// A lease never falls, and covers a whole lease from the last write and from the reader's time; it is no longer. It
/// is granted exactly if both of these fit. A reader without a copy is never answered by a renewal.
pub fn shared_leases_cover()
    ensures covers { SharedLeaseCovers }
    ensures shortest { SharedLeaseIsShortest }
    ensures fits { SharedLeaseFits }
    ensures absent { AbsentNeverRenews }
{}

/// The lease of a line that is returned never falls, and covers a whole lease from the last write and the time that
/// was asked for; it is no longer. It is granted exactly if the lease from the last write fits.
pub fn returned_leases_reach()
    ensures reaches { ReturnedLeaseReaches }
    ensures shortest { ReturnedLeaseIsShortest }
    ensures fits { ReturnedLeaseFits }
{}
