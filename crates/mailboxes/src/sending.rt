//! What messages are delivered to at a seat, each part with what it sends by.
use closed_machine::Outbox;
use core_pts::Core;
use dram_mts::Dram;
use llc_bank::Bank;

/// A core, and what its seat sends by.
#[derive(Drop)]
pub struct SendingCore {
    pub(crate) core: Core,
    pub(crate) outbox: Outbox,
}

/// A bank with the DRAM behind it, and what their seat sends by.
#[derive(Drop)]
pub struct SendingBank {
    pub(crate) bank: Bank,
    pub(crate) dram: Dram,
    pub(crate) outbox: Outbox,
}
