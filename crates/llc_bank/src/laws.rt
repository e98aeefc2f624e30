//! Laws of banks. The functions do nothing: their contracts are the laws.
ghost use Rattle.llc_bank.specs.BankLaws.{EvictionsRaiseTime, FillsAtMemoryTime, GrantsUnownedLines};
ghost use Rattle.llc_bank.specs.BankLaws.{LoadsAbsentLines, ReadersAreLeased, WordsGoToOtherVersions};

/// A bank grants a line only if no core owns it, and to the requester, who owns it from then on.
pub fn grants_unowned_lines()
    ensures { GrantsUnownedLines }
{}

/// A bank loads a line from DRAM only if it does not have it: never while the line is being stored.
pub fn loads_absent_lines()
    ensures { LoadsAbsentLines }
{}

/// An eviction never lowers the memory time, and raises it to the end of the lease of a line that leaves or is stored.
pub fn evictions_raise_time()
    ensures { EvictionsRaiseTime }
{}

/// A line that comes from DRAM has its words, and both its times are the memory time at which it arrives.
pub fn fills_at_memory_time()
    ensures { FillsAtMemoryTime }
{}

/// The lease that a bank sends a reader never falls, and covers a whole lease from the line's last write and from the
/// reader's time; the line's lease then ends there.
pub fn readers_are_leased()
    ensures { ReadersAreLeased }
{}

/// A bank answers a request of a line that no core owns without words exactly when the request names the line's
/// version; it always sends words to one that names none.
pub fn words_go_to_other_versions()
    ensures { WordsGoToOtherVersions }
{}
