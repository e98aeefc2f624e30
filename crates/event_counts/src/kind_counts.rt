//! Messages counted by their kinds.
ghost use Rattle.std.specs.Prelude.{◌≡◌};
ghost use Rattle.event_counts.specs.Counts.{more, with_kind};

use network::Body;

/// How many messages of each kind, in the order of docs/PROTOCOL.md.
#[derive(Clone, Copy, Debug, PartialEq, Eq)]
pub struct KindCounts {
    pub sh_req: u64,
    pub ex_req: u64,
    pub sh_rep: u64,
    pub ex_rep: u64,
    pub renew_rep: u64,
    pub upgrade_rep: u64,
    pub flush_req: u64,
    pub wb_req: u64,
    pub flush_rep: u64,
    pub wb_rep: u64,
    pub dram_ld: u64,
    pub dram_ld_rep: u64,
    pub dram_st: u64,
    pub dram_st_rep: u64,
}

impl KindCounts {
    /// No messages.
    pub const NONE: KindCounts = KindCounts {
        sh_req: 0,
        ex_req: 0,
        sh_rep: 0,
        ex_rep: 0,
        renew_rep: 0,
        upgrade_rep: 0,
        flush_req: 0,
        wb_req: 0,
        flush_rep: 0,
        wb_rep: 0,
        dram_ld: 0,
        dram_ld_rep: 0,
        dram_st: 0,
        dram_st_rep: 0,
    };

    /// One more message with this body.
    pub(crate) fn count_message(&mut self, body: &Body)
        ensures { self.new ≡ with_kind self.old body.now }
    {
        match body {
            Body::ShReq { .. } => self.sh_req = increment_count(self.sh_req),
            Body::ExReq { .. } => self.ex_req = increment_count(self.ex_req),
            Body::ShRep(_) => self.sh_rep = increment_count(self.sh_rep),
            Body::ExRep(_) => self.ex_rep = increment_count(self.ex_rep),
            Body::RenewRep { .. } => self.renew_rep = increment_count(self.renew_rep),
            Body::UpgradeRep { .. } => self.upgrade_rep = increment_count(self.upgrade_rep),
            Body::FlushReq => self.flush_req = increment_count(self.flush_req),
            Body::WbReq { .. } => self.wb_req = increment_count(self.wb_req),
            Body::FlushRep(_) => self.flush_rep = increment_count(self.flush_rep),
            Body::WbRep(_) => self.wb_rep = increment_count(self.wb_rep),
            Body::DramLd => self.dram_ld = increment_count(self.dram_ld),
            Body::DramLdRep(_) => self.dram_ld_rep = increment_count(self.dram_ld_rep),
            Body::DramSt(_) => self.dram_st = increment_count(self.dram_st),
            Body::DramStRep => self.dram_st_rep = increment_count(self.dram_st_rep),
        }
    }
}

/// One more; at its greatest value, 2^64 - 1, a count stays.
#[inline(always)]
pub(crate) fn increment_count(count: u64) -> u64
    ensures { result ≡ more count }
{
    if count < u64::MAX { count + 1 } else { count }
}
