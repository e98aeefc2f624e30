//! Between which nodes each kind of message goes.
ghost use Rattle.std.specs.Prelude.{◌≡◌};
ghost use Rattle.network.specs.Routes.{has_endpoints, is_bank_to_dram, is_core_to_bank};

use crate::message::{Body, Message, Node};

// Whether the endpoints are a core and a bank, both of those that there are.
fn is_core_to_bank(cores: u32, banks: u32, from: Node, to: Node) -> bool
    ensures { result ≡ is_core_to_bank cores banks from to }
{
    match (from, to) {
        (Node::Core(core), Node::Bank(bank)) => core < cores && bank < banks,
        _ => false,
    }
}

// Whether the endpoints are a bank and the DRAM behind it.
fn is_bank_to_dram(banks: u32, from: Node, to: Node) -> bool
    ensures { result ≡ is_bank_to_dram banks from to }
{
    match (from, to) {
        (Node::Bank(bank), Node::Dram(dram)) => bank < banks && bank == dram,
        _ => false,
    }
}

/// Whether a message goes between nodes that its kind goes between, in a machine with this many cores and banks.
/// Requests and returns go from a core to a bank; replies and recalls from a bank to a core; loads and stores from a
/// bank to the DRAM behind it, and their replies back.
pub fn has_endpoints(cores: u32, banks: u32, message: &Message) -> bool
    ensures { result ≡ has_endpoints cores banks message.now }
{
    let from = message.from;
    let to = message.to;
    match message.body {
        Body::ShReq { .. } | Body::ExReq { .. } | Body::FlushRep(_) | Body::WbRep(_) =>
            is_core_to_bank(cores, banks, from, to),
        Body::ShRep(_) | Body::ExRep(_) | Body::RenewRep { .. } | Body::UpgradeRep { .. } =>
            is_core_to_bank(cores, banks, to, from),
        Body::FlushReq | Body::WbReq { .. } => is_core_to_bank(cores, banks, to, from),
        Body::DramLd | Body::DramSt(_) => is_bank_to_dram(banks, from, to),
        Body::DramLdRep(_) | Body::DramStRep => is_bank_to_dram(banks, to, from),
    }
}
