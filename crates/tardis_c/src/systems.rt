//! A machine that a caller in C drives: it is opened, takes events, and is closed.
ghost use Rattle.std.specs.Prelude.{◌≡◌, true, None, IfOk};
ghost use Rattle.machine_table.specs.declared.event.Event.TheVariants.{Advance, Attempt, Deliver, EvictBank};
ghost use Rattle.machine_table.specs.declared.event.Event.TheVariants.{EvictCache};
ghost use Rattle.machine_table.specs.Opening.{at_start};
ghost use Rattle.machine_table.specs.SetUp.{is_good};
ghost use Rattle.tardis_c.specs.Systems.{Issues, Opens, OpensUnless, Steps};

use crate::arrays::first_fault;
use crate::histories::memory_of_opening_words;
use crate::options::{PlainOptions, machine_options};
use crate::plain::{Plain, PlainOperation, PlainWord, op_of};
use crate::system_parts::{CAnswer, c_answer};
use held_machine::{Handle, put_back, take_out};
use interleaving_core::{Config, Event, LineNo, MsgNo, System};
use physiological_order::Memory;
use std::alloc::{AllocError, Global};
use worker_driver::config_of;

// A machine on the heap.
fn new_boxed_machine(
    alloc: Global,
    config: Config,
    memory: Memory,
) -> Result<Box<System>, AllocError>
    requires { is_good config ≡ true }
    ensures { IfOk result (λ system. system.value ≡ at_start config memory) }
{
    match System::new(alloc, config, memory) {
        Ok(system) => Ok(Box::new(alloc, system)?),
        Err(_) => Err(AllocError),
    }
}

// Opens a machine in a handle that has none.
fn open_in_handle(
    alloc: Global,
    machine: &mut Handle,
    cores: u32,
    options: &PlainOptions,
    opening: &[PlainWord],
) -> u32
    requires { machine.old.owner.held ≡ None }
    ensures { Opens machine.new.owner.held result cores options.now opening.now }
{
    if first_fault(opening).is_some() {
        return 12;
    }
    let Some(config) = config_of(&machine_options(options), cores) else {
        return 6;
    };
    let Ok(memory) = memory_of_opening_words(alloc, opening) else {
        return 3;
    };
    match new_boxed_machine(alloc, config, memory) {
        Ok(system) => {
            put_back(machine, system);
            0
        }
        Err(AllocError) => 3,
    }
}

/// Opens a machine with this number of cores, built as the options say, over a memory that opens with these words and
/// 0 elsewhere. 0; 17 if the handle has a machine already; 12 if a word has a fault, else 6 if a value of the
/// configuration is out of its range, and 3 if an allocation failed. The handle stays as it was if that isn't 0.
#[unsafe(no_mangle)]
pub extern "C" fn tardis_c_system_open(
    alloc: Global,
    machine: &mut Handle,
    cores: u32,
    options: &PlainOptions,
    opening: &[PlainWord],
) -> u32
    ensures { OpensUnless machine.old.owner.held machine.new.owner.held result cores options.now
        opening.now }
{
    if let Some(system) = take_out(alloc, machine) {
        put_back(machine, system);
        return 17;
    }
    open_in_handle(alloc, machine, cores, options, opening)
}

// One event, and its answer: 0, or 16 without a machine.
fn step_in_handle(alloc: Global, machine: &mut Handle, event: Event, answer: &mut CAnswer) -> u32
    ensures { Steps machine.old.owner.held machine.new.owner.held answer.old answer.new result event }
{
    let Some(mut system) = take_out(alloc, machine) else {
        return 16;
    };
    let came = system.step(event);
    *answer = c_answer(&came);
    put_back(machine, system);
    0
}

/// A core is given its next operation. 10 if that has a fault, which then isn't looked for in the machine; 16 without a
/// machine. Nothing changes then.
#[unsafe(no_mangle)]
pub extern "C" fn tardis_c_system_issue(
    alloc: Global,
    machine: &mut Handle,
    operation: &PlainOperation,
    answer: &mut CAnswer,
) -> u32
    ensures { Issues machine.old.owner.held machine.new.owner.held answer.old answer.new result
        operation.now }
{
    if operation.fault() != 0 {
        return 10;
    }
    step_in_handle(
        alloc,
        machine,
        Event::Issue(operation.core, op_of(operation)),
        answer,
    )
}

/// A core tries to complete its open operation, or sends the request that it needs.
#[unsafe(no_mangle)]
pub extern "C" fn tardis_c_system_attempt(
    alloc: Global,
    machine: &mut Handle,
    core: u32,
    answer: &mut CAnswer,
) -> u32
    ensures { Steps machine.old.owner.held machine.new.owner.held answer.old answer.new result
        (Attempt core) }
{
    step_in_handle(alloc, machine, Event::Attempt(core), answer)
}

/// A message in flight is delivered to its part.
#[unsafe(no_mangle)]
pub extern "C" fn tardis_c_system_deliver(
    alloc: Global,
    machine: &mut Handle,
    number: u64,
    answer: &mut CAnswer,
) -> u32
    ensures { Steps machine.old.owner.held machine.new.owner.held answer.old answer.new result
        (Deliver number) }
{
    step_in_handle(alloc, machine, Event::Deliver(MsgNo(number)), answer)
}

/// A copy of a line is evicted from a core's cache.
#[unsafe(no_mangle)]
pub extern "C" fn tardis_c_system_evict_copy(
    alloc: Global,
    machine: &mut Handle,
    core: u32,
    line: u64,
    answer: &mut CAnswer,
) -> u32
    ensures { Steps machine.old.owner.held machine.new.owner.held answer.old answer.new result
        (EvictCache core line) }
{
    step_in_handle(
        alloc,
        machine,
        Event::EvictCache(core, LineNo(line)),
        answer,
    )
}

/// A bank evicts a line, or asks its owner to return it.
#[unsafe(no_mangle)]
pub extern "C" fn tardis_c_system_evict_entry(
    alloc: Global,
    machine: &mut Handle,
    bank: u32,
    line: u64,
    answer: &mut CAnswer,
) -> u32
    ensures { Steps machine.old.owner.held machine.new.owner.held answer.old answer.new result
        (EvictBank bank line) }
{
    step_in_handle(alloc, machine, Event::EvictBank(bank, LineNo(line)), answer)
}

/// A core advances its time by one.
#[unsafe(no_mangle)]
pub extern "C" fn tardis_c_system_advance(
    alloc: Global,
    machine: &mut Handle,
    core: u32,
    answer: &mut CAnswer,
) -> u32
    ensures { Steps machine.old.owner.held machine.new.owner.held answer.old answer.new result
        (Advance core) }
{
    step_in_handle(alloc, machine, Event::Advance(core), answer)
}

/// Gives the machine's memory back; the handle has none then. Without a machine the call does nothing.
#[unsafe(no_mangle)]
pub extern "C" fn tardis_c_system_close(alloc: Global, machine: &mut Handle)
    ensures { machine.new.owner.held ≡ None }
{
    drop(take_out(alloc, machine));
}
