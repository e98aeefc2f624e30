//! The walk along arranged records to the first one with a fault.
ghost use Rattle.std.specs.Prelude.{◌≡◌, ◌↔◌, length, IsTrue, IfOk};
ghost use Rattle.physiological_order.specs.Order.{flat};
ghost use Rattle.physiological_order.specs.Faults.{issued_by, WalksTo};
ghost use Rattle.physiological_order.specs.Picking.{picked, Within};
ghost use Rattle.physiological_order.specs.Walking.{IsNext};

use crate::memory::Memory;
use crate::operation::{Op, Record};
use crate::stamps::Stamp;
use crate::verdict::Verdict;
use std::alloc::{AllocError, Global};

/// The verdict on records picked by stamps, which are arranged: the first fault along the stamps, program order before
/// value.
pub(crate) fn arranged_verdict(
    alloc: Global,
    opening: &Memory,
    issued: &[Vec<Op>],
    records: &[Record],
    by_number: &[usize],
    stamps: &[Stamp],
) -> Result<Verdict, AllocError>
    requires { Within records.now by_number.now stamps.now }
    ensures { IfOk result (WalksTo (flat opening.now) (issued_by issued.now)
        (picked records.now by_number.now stamps.now)) }
{
    let mut memory = opening.try_clone()?;
    let mut places = vec![in alloc; 0u64; issued.len()]?;
    for stamp in stamps {
        let record = &records[by_number[stamp.number as usize]];
        if !is_next_of_its_core(issued, &places, record) {
            return Ok(Verdict::OutOfProgramOrder(record.number));
        }
        places[record.core as usize] = u64::from(record.place) + 1;
        if memory.perform(record.op)? != record.received {
            return Ok(Verdict::WrongValue(record.number));
        }
    }
    Ok(Verdict::Legal)
}

/// Whether the record is the next of its core's issued list, after this many of each core's.
fn is_next_of_its_core(issued: &[Vec<Op>], places: &[u64], candidate: &Record) -> bool
    requires { length places.now ≡ length issued.now }
    ensures { IsTrue result ↔ IsNext issued.now places.now candidate.now }
{
    let Some(operations) = issued.get(candidate.core as usize) else {
        return false;
    };
    let is_place = places[candidate.core as usize] == u64::from(candidate.place);
    match operations.get(candidate.place as usize) {
        Some(operation) => is_place && *operation == candidate.op,
        None => false,
    }
}
