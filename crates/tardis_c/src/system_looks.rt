//! What a caller in C looks up in its machine.
ghost use Rattle.std.specs.Prelude.{◌≡◌, ◌≤◌, ◌⊎◌, ◌/◌, Some, length, map, option_map, slice_get};
ghost use Rattle.machine_table.specs.Machine.{open_op};
ghost use Rattle.machine_theorem.specs.Coherence.{coherent, owners};
ghost use Rattle.interleaving_core.specs.LookUps.{copies, entries, make_room, victim};
ghost use Rattle.ranked_lines.specs.Rising.{sorted};
ghost use Rattle.tardis_c.specs.SystemParts.{open_of, place_of, plain_record, victim_of};
ghost use Rattle.tardis_c.specs.Systems.{AreLines, Tells, TellsFound, TellsLines, if_below, message_at};
ghost use Rattle.tardis_c.specs.Systems.{overwrite_front, told, totals_of};

use crate::plain::PlainRecord;
use crate::system_parts::{
    Place, PlainMessage, PlainOpen, capped, message_of, open_of, place_of, plain_record, victim_of,
};
use held_machine::{Handle, put_back, take_out};
use interleaving_core::{LineNo, MsgNo, System};
use physiological_order::{Op, WordAddr};
use std::alloc::{AllocError, Global};

/// What a machine has counted so far, as `tardis.h` has it.
#[repr(C)]
#[derive(Clone, Copy)]
pub struct Totals {
    /// How many renewals were sent; and so on. The greatest number of 64 bits stands for more.
    pub renewals: u64,
    pub upgrades: u64,
    pub flushes: u64,
    pub write_backs: u64,
    /// How many messages are in flight.
    pub messages: u64,
    /// How many operations are completed.
    pub records: u64,
    /// 1 if an event was answered that times are exhausted.
    pub is_stopped: u64,
}

// What a machine has counted.
fn totals_of(system: &System) -> Totals
    ensures { result ≡ totals_of system.now }
{
    let counts = system.counts();
    Totals {
        renewals: capped(counts.renewals),
        upgrades: capped(counts.upgrades),
        flushes: capped(counts.flushes),
        write_backs: capped(counts.write_backs),
        messages: u64::from(system.messages()),
        records: system.completed() as u64,
        is_stopped: u64::from(system.is_stopped()),
    }
}

// The number of the message at an index of those in flight.
fn message_number_at(system: &System, index: u32) -> Option<u64>
    ensures { result ≡ slice_get (map (λ x. x.0) system.now.mail.messages) index }
{
    match system.message(index) {
        None => None,
        Some(number) => Some(number.0),
    }
}

// The message in flight of a number.
fn message_at(system: &System, number: u64) -> Option<PlainMessage>
    ensures { result ≡ message_at system.now number }
{
    match system.look(MsgNo(number)) {
        None => None,
        Some(message) => Some(message_of(number, message)),
    }
}

// The record of the operation that completed as this one.
fn record_at(system: &System, number: usize) -> Option<PlainRecord>
    ensures { result ≡ option_map plain_record (slice_get system.now.records number) }
{
    // The check finds what a record holds only where the function names its type.
    let _inside: Option<Op> = None;
    match system.records().get(number) {
        None => None,
        Some(done) => Some(plain_record(done)),
    }
}

// A core's open operation, if there is the core.
fn open_operation_of_core(system: &System, core: u32) -> Option<PlainOpen>
    ensures { result ≡ if_below core (length system.now.cores) (open_of core (open_op system.now core)) }
{
    if core >= system.cores() {
        return None;
    }
    Some(open_of(core, system.open_op(core)))
}

// The copy to evict, if there is the core.
fn place_of_victim(system: &System, core: u32, line: u64) -> Option<Place>
    ensures { result ≡ if_below core (length system.now.cores) (victim_of (victim system.now core line)) }
{
    if core >= system.cores() {
        return None;
    }
    Some(victim_of(system.victim(core, LineNo(line))))
}

// The lines of a core's copies, if there is the core.
fn lines_of_copies(system: &System, core: u32) -> Option<Result<Vec<LineNo>, AllocError>>
    ensures { AreLines result core (length system.now.cores) (sorted (copies system.now core)) }
{
    if core >= system.cores() {
        return None;
    }
    Some(system.copies(core))
}

// The lines of a bank's entries, if there is the bank.
fn lines_of_entries(system: &System, bank: u32) -> Option<Result<Vec<LineNo>, AllocError>>
    ensures { AreLines result bank (length system.now.banks) (sorted (entries system.now bank)) }
{
    if bank >= system.banks() {
        return None;
    }
    Some(system.entries(bank))
}

// The smaller of two lengths.
fn smaller_length(first: usize, second: usize) -> usize
    ensures { (result ≡ first) × (first ≤ second) ⊎ (result ≡ second) × (second ≤ first) }
{
    if first < second { first } else { second }
}

// Writes lines over the front of others, as far as there are any.
fn overwrite_front(found: &[LineNo], lines: &mut [u64])
    ensures { lines.new ≡ overwrite_front found.now lines.old }
{
    for at in 0..smaller_length(found.len(), lines.len()) {
        let line = found[at];
        lines[at] = line.0;
    }
}

// Writes what lines there are, and how many: 0, 18 if there is no such part, or 3 if an allocation failed.
fn write_lines(
    found: Option<Result<Vec<LineNo>, AllocError>>,
    lines: &mut [u64],
    count: &mut usize,
) -> u32
    ensures { TellsFound found (lines.old, count.old) (lines.new, count.new) result }
{
    match found {
        None => 18,
        Some(Err(AllocError)) => 3,
        Some(Ok(found)) => {
            *count = found.len();
            overwrite_front(&found, lines);
            0
        }
    }
}

// Writes what there is to tell: 0, or 18 if there is nothing.
fn write_found<T: Copy>(found: Option<T>, out: &mut T) -> u32
    ensures { (out.new, result) ≡ told out.old found }
{
    match found {
        None => 18,
        Some(value) => {
            *out = value;
            0
        }
    }
}

/// What the machine has counted.
#[unsafe(no_mangle)]
pub extern "C" fn tardis_c_system_totals(
    alloc: Global,
    machine: &mut Handle,
    out: &mut Totals,
) -> u32
    ensures { Tells machine.old.owner.held machine.new.owner.held out.old out.new result
        (λ m. Some (totals_of m)) }
{
    let Some(system) = take_out(alloc, machine) else {
        return 16;
    };
    *out = totals_of(&system);
    put_back(machine, system);
    0
}

/// The number of the message at an index of those in flight, in the order of sending; 18 past the last one.
#[unsafe(no_mangle)]
pub extern "C" fn tardis_c_system_message_number(
    alloc: Global,
    machine: &mut Handle,
    index: u32,
    out: &mut u64,
) -> u32
    ensures { Tells machine.old.owner.held machine.new.owner.held out.old out.new result
        (λ m. slice_get (map (λ x. x.0) m.mail.messages) index) }
{
    let Some(system) = take_out(alloc, machine) else {
        return 16;
    };
    let found = message_number_at(&system, index);
    put_back(machine, system);
    write_found(found, out)
}

/// The record of the operation that completed as this one, counted from 0; 18 if there is none yet.
#[unsafe(no_mangle)]
pub extern "C" fn tardis_c_system_record(
    alloc: Global,
    machine: &mut Handle,
    number: usize,
    out: &mut PlainRecord,
) -> u32
    ensures { Tells machine.old.owner.held machine.new.owner.held out.old out.new result
        (λ m. option_map plain_record (slice_get m.records number)) }
{
    let Some(system) = take_out(alloc, machine) else {
        return 16;
    };
    let found = record_at(&system, number);
    put_back(machine, system);
    write_found(found, out)
}

/// The message in flight of a number; 18 if there is none.
#[unsafe(no_mangle)]
pub extern "C" fn tardis_c_system_message(
    alloc: Global,
    machine: &mut Handle,
    number: u64,
    out: &mut PlainMessage,
) -> u32
    ensures { Tells machine.old.owner.held machine.new.owner.held out.old out.new result
        (λ m. message_at m number) }
{
    let Some(system) = take_out(alloc, machine) else {
        return 16;
    };
    let found = message_at(&system, number);
    put_back(machine, system);
    write_found(found, out)
}

/// A core's open operation; 18 if there is no such core.
#[unsafe(no_mangle)]
pub extern "C" fn tardis_c_system_open_operation(
    alloc: Global,
    machine: &mut Handle,
    core: u32,
    out: &mut PlainOpen,
) -> u32
    ensures { Tells machine.old.owner.held machine.new.owner.held out.old out.new result
        (λ m. if_below core (length m.cores) (open_of core (open_op m core))) }
{
    let Some(system) = take_out(alloc, machine) else {
        return 16;
    };
    let found = open_operation_of_core(&system, core);
    put_back(machine, system);
    write_found(found, out)
}

/// The copy to evict from a core's cache to make a place for a line, if there is none; 18 if there is no such core.
#[unsafe(no_mangle)]
pub extern "C" fn tardis_c_system_victim(
    alloc: Global,
    machine: &mut Handle,
    core: u32,
    line: u64,
    out: &mut Place,
) -> u32
    ensures { Tells machine.old.owner.held machine.new.owner.held out.old out.new result
        (λ m. if_below core (length m.cores) (victim_of (victim m core line))) }
{
    let Some(system) = take_out(alloc, machine) else {
        return 16;
    };
    let found = place_of_victim(&system, core, line);
    put_back(machine, system);
    write_found(found, out)
}

/// The bank and the line to evict so that a request that is held finds room.
#[unsafe(no_mangle)]
pub extern "C" fn tardis_c_system_make_room(
    alloc: Global,
    machine: &mut Handle,
    number: u64,
    out: &mut Place,
) -> u32
    ensures { Tells machine.old.owner.held machine.new.owner.held out.old out.new result
        (λ m. Some (place_of (make_room m number))) }
{
    let Some(system) = take_out(alloc, machine) else {
        return 16;
    };
    *out = place_of(system.make_room(MsgNo(number)));
    put_back(machine, system);
    0
}

/// How many own a line: at most one does.
#[unsafe(no_mangle)]
pub extern "C" fn tardis_c_system_owners(
    alloc: Global,
    machine: &mut Handle,
    line: u64,
    out: &mut u64,
) -> u32
    ensures { Tells machine.old.owner.held machine.new.owner.held out.old out.new result
        (λ m. Some (owners m line)) }
{
    let Some(system) = take_out(alloc, machine) else {
        return 16;
    };
    *out = u64::from(system.owners(LineNo(line)));
    put_back(machine, system);
    0
}

/// The coherent value of the word that a byte address lies in.
#[unsafe(no_mangle)]
pub extern "C" fn tardis_c_system_value(
    alloc: Global,
    machine: &mut Handle,
    address: u64,
    out: &mut u64,
) -> u32
    ensures { Tells machine.old.owner.held machine.new.owner.held out.old out.new result
        (λ m. Some (coherent m (address / 8))) }
{
    let Some(system) = take_out(alloc, machine) else {
        return 16;
    };
    *out = system.coherent(WordAddr::at(address / 8));
    put_back(machine, system);
    0
}

/// The numbers of the lines that a core has copies of, in rising order: as many as there is room for, and how many
/// there are. 18 if there is no such core, else 3 if an allocation failed; nothing is written then.
#[unsafe(no_mangle)]
pub extern "C" fn tardis_c_system_copies(
    alloc: Global,
    machine: &mut Handle,
    core: u32,
    lines: &mut [u64],
    count: &mut usize,
) -> u32
    ensures { TellsLines machine.old.owner.held machine.new.owner.held (lines.old, count.old)
        (lines.new, count.new) result core (λ m. length m.cores) (λ m. sorted (copies m core)) }
{
    let Some(system) = take_out(alloc, machine) else {
        return 16;
    };
    let found = lines_of_copies(&system, core);
    put_back(machine, system);
    write_lines(found, lines, count)
}

/// The numbers of the lines that a bank has Shared or Exclusive, in the same way.
#[unsafe(no_mangle)]
pub extern "C" fn tardis_c_system_entries(
    alloc: Global,
    machine: &mut Handle,
    bank: u32,
    lines: &mut [u64],
    count: &mut usize,
) -> u32
    ensures { TellsLines machine.old.owner.held machine.new.owner.held (lines.old, count.old)
        (lines.new, count.new) result bank (λ m. length m.banks) (λ m. sorted (entries m bank)) }
{
    let Some(system) = take_out(alloc, machine) else {
        return 16;
    };
    let found = lines_of_entries(&system, bank);
    put_back(machine, system);
    write_lines(found, lines, count)
}
