//! Slots that are kept for messages in flight, and given back.
ghost use Rattle.std.specs.Prelude.{IsTrue};
ghost use Rattle.network.specs.Routes.{has_endpoints};

use network::{Body, InFlight, LineNo, Message, MsgNo, Node};
use std::alloc::{AllocError, Global};

fn request() -> Message
    ensures { IsTrue (has_endpoints 2 1 result) }
{
    Message {
        from: Node::Core(1),
        to: Node::Bank(0),
        line: LineNo(7),
        body: Body::ExReq { version: None },
    }
}

/// Whether the expected number of slots is kept after each of six messages that come and go while the first one stays.
/// A slot is kept for the first one and for up to two that were taken; with the third these three are given back.
fn are_given_back(alloc: Global) -> Result<bool, AllocError> {
    let mut flight = InFlight::new(alloc, 2, 1, 3)?;
    let _first = flight.send(request());
    for slots in [2, 3, 1, 2, 3, 1] {
        if let Ok(number) = flight.send(request()) {
            let _there = flight.remove(number);
        }
        if flight.slots() != slots {
            return Ok(false);
        }
    }
    Ok(true)
}

#[test]
fn slots_are_given_back(rt: HostRuntime) {
    assert_eq!(rt; are_given_back(rt.alloc()), Ok(true));
}

/// The bank asks its DRAM for a line.
fn load() -> Message
    ensures { IsTrue (has_endpoints 2 1 result) }
{
    Message {
        from: Node::Bank(0),
        to: Node::Dram(0),
        line: LineNo(7),
        body: Body::DramLd,
    }
}

/// Whether the oldest message from core 1 to the bank is the first one that it sent and, once that is taken, the
/// second; whether a message to DRAM is found, and none the other way; and whether a message is taken once.
fn are_in_order(alloc: Global) -> Result<bool, AllocError> {
    let (core, bank, dram) = (Node::Core(1), Node::Bank(0), Node::Dram(0));
    let mut flight = InFlight::new(alloc, 2, 1, 3)?;
    let _first = flight.send(request());
    let _second = flight.send(request());
    let _third = flight.send(load());
    let oldest = flight.oldest(core, bank);
    let taken = flight.take(MsgNo(0));
    let again = flight.take(MsgNo(0));
    let next = flight.oldest(core, bank);
    let is_taken = taken == Some(request()) && again.is_none() && flight.count() == 2;
    let is_found = oldest == Some(MsgNo(0)) && next == Some(MsgNo(1));
    let to_dram = flight.oldest(bank, dram) == Some(MsgNo(2));
    let is_none = flight.oldest(bank, core).is_none() && flight.oldest(dram, bank).is_none();
    Ok(is_taken && is_found && to_dram && is_none)
}

#[test]
fn the_oldest_message_of_two_nodes_is_found(rt: HostRuntime) {
    assert_eq!(rt; are_in_order(rt.alloc()), Ok(true));
}
