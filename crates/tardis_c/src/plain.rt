//! Words, operations and records as C has them, and what is wrong with them.
ghost use Rattle.std.specs.Prelude.{◌≡◌};
ghost use Rattle.tardis_c.specs.Plain.{address_fault, op_of, operation_fault, record_fault, record_of, store_of};
ghost use Rattle.tardis_c.specs.Plain.{word_fault};

use physiological_order::{Op, Record, WordAddr};

/// A word and the value that it opens with, as `tardis.h` has it.
#[repr(C)]
#[derive(Clone, Copy)]
pub struct PlainWord {
    /// A byte address, which is a multiple of 8.
    pub address: u64,
    pub value: u64,
}

/// An operation of a core, as `tardis.h` has it.
#[repr(C)]
#[derive(Clone, Copy)]
pub struct PlainOperation {
    /// The number of the core, 0 to 1048575.
    pub core: u32,
    /// 0 a load, 1 a store, 2 a swap.
    pub kind: u32,
    /// A byte address, which is a multiple of 8.
    pub address: u64,
    /// What is written; ignored for a load.
    pub value: u64,
}

/// A record of a completed operation, as `tardis.h` has it.
#[repr(C)]
#[derive(Clone, Copy)]
pub struct PlainRecord {
    pub operation: PlainOperation,
    /// The operation's place in its core's program order, counted from 0, below 2^32.
    pub place: u64,
    /// What was received; ignored for a store.
    pub received: u64,
    /// The timestamp.
    pub time: u64,
    /// The completion number.
    pub number: u64,
}

/// What may have a fault.
pub(crate) trait Plain {
    ghost use Rattle.std.specs.Prelude.{◌≡◌, ℕ};

    /// The number of what is wrong, 0 for nothing.
    ghost fault: { Self → ℕ };

    /// The number of what is wrong, as the program numbers the faults of a line: 4 the core, 5 the kind, 6 the address,
    /// 7 the place. It is 0 for nothing.
    fn fault(&self) -> u64
        ensures { result ≡ fault self.now };
}

impl Plain for PlainWord {
    ghost use Rattle.tardis_c.specs.Plain.{word_fault};

    ghost fault = { word_fault };

    fn fault(&self) -> u64 {
        address_fault(self.address)
    }
}

impl Plain for PlainOperation {
    ghost use Rattle.tardis_c.specs.Plain.{operation_fault};

    ghost fault = { operation_fault };

    fn fault(&self) -> u64 {
        if self.core > 1_048_575 {
            4
        } else if self.kind > 2 {
            5
        } else {
            address_fault(self.address)
        }
    }
}

impl Plain for PlainRecord {
    ghost use Rattle.tardis_c.specs.Plain.{record_fault};

    ghost fault = { record_fault };

    fn fault(&self) -> u64 {
        let fault = self.operation.fault();
        if fault != 0 {
            fault
        } else if self.place < 4_294_967_296 {
            0
        } else {
            7
        }
    }
}

// The number of what is wrong with an address.
fn address_fault(address: u64) -> u64
    ensures { result ≡ address_fault address }
{
    if address % 8 == 0 { 0 } else { 6 }
}

/// The store that leaves a word as it opens.
pub(crate) fn store_of(plain: &PlainWord) -> Op
    ensures { result ≡ store_of plain.now }
{
    Op::Store(WordAddr::at(plain.address / 8), plain.value)
}

/// The operation that has no fault.
pub(crate) fn op_of(plain: &PlainOperation) -> Op
    ensures { result ≡ op_of plain.now }
{
    let word = WordAddr::at(plain.address / 8);
    match plain.kind {
        0 => Op::Load(word),
        1 => Op::Store(word, plain.value),
        _ => Op::Swap(word, plain.value),
    }
}

// What an operation of this kind received.
fn received_of(plain: &PlainRecord) -> Option<u64>
    ensures { result ≡ (record_of plain.now).received }
{
    if plain.operation.kind == 1 {
        None
    } else {
        Some(plain.received)
    }
}

/// The record that has no fault.
pub(crate) fn record_of(plain: &PlainRecord) -> Record
    requires { record_fault plain.now ≡ 0 }
    ensures { result ≡ record_of plain.now }
{
    Record {
        core: plain.operation.core,
        place: plain.place as u32,
        op: op_of(&plain.operation),
        received: received_of(plain),
        ts: plain.time,
        number: plain.number,
    }
}

/// What is wrong with a word, as a check of a history tells it; 0 for nothing.
#[unsafe(no_mangle)]
pub extern "C" fn tardis_c_word_fault(plain: &PlainWord) -> u32
    ensures { result ≡ word_fault plain.now }
{
    plain.fault() as u32
}

/// What is wrong with an operation, as a check of a history tells it; 0 for nothing.
#[unsafe(no_mangle)]
pub extern "C" fn tardis_c_operation_fault(plain: &PlainOperation) -> u32
    ensures { result ≡ operation_fault plain.now }
{
    plain.fault() as u32
}

/// What is wrong with a record, as a check of a history tells it; 0 for nothing.
#[unsafe(no_mangle)]
pub extern "C" fn tardis_c_record_fault(plain: &PlainRecord) -> u32
    ensures { result ≡ record_fault plain.now }
{
    plain.fault() as u32
}
