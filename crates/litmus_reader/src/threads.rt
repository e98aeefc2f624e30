//! The threads of a litmus test, as a run drives them.

ghost use Rattle.std.specs.Prelude.{◌≡◌, replicate};
ghost use Rattle.litmus_reader.specs.Litmus.{settings_of};
ghost use Rattle.litmus_reader.specs.ThreadSteps.{Thread, register_value, with_register, settled_thread, with_items};
ghost use Rattle.litmus_reader.specs.ThreadSteps.{next_operation, done_with};

use litmus_parser::{Cell, Instruction, Item, Name, Setting};
use physiological_order::{Op, WordAddr};
use std::marker::Model;

/// A thread of a test: its registers and the instructions that are left, of which the first is a
/// memory instruction of its own.
#[derive(Drop)]
pub struct ThreadState<'a> {
    thread: u8,
    rest: &'a [Cell],
    registers: [u64; 32],
}

impl<'a> Model for ThreadState<'a> {
    ghost use Rattle.litmus_reader.specs.ThreadSteps.{Thread};

    ghost Value = { Thread };

    ghost view = { λ t. record { thread = t.thread; registers = t.registers; rest = t.rest.now } };
}

/// A register's value; x0 reads as 0.
fn register_value(registers: &[u64; 32], register: u8) -> u64
    ensures { result ≡ register_value registers.now register }
{
    match registers.get(usize::from(register)) {
        Some(value) => *value,
        None => 0,
    }
}

/// Sets a register; writes to x0 are ignored.
fn set_register(registers: &mut [u64; 32], register: u8, value: u64)
    ensures { registers.new ≡ with_register registers.old register value }
{
    if register > 0 && register < 32 {
        registers[usize::from(register)] = value;
    }
}

/// Does a thread's instructions up to its next memory instruction: what is left from there on.
#[tactic(auto, unfolding(crate::specs::ThreadSteps::settled_thread))]
fn run_to_memory_instruction<'a>(
    thread: u8,
    registers: &mut [u64; 32],
    cells: &'a [Cell],
) -> &'a [Cell]
    ensures { settled_thread thread registers.old cells.now ≡
        record { thread = thread; registers = registers.new; rest = result.now } }
{
    let mut rest = cells;
    while let Some((cell, after)) = rest.split_first() {
        if cell.thread == thread {
            match cell.instruction {
                Instruction::Set { target, value } => set_register(
                    registers,
                    target,
                    u64::from(value),
                ),
                Instruction::Fence => {}
                _ => return rest,
            }
        }
        rest = after;
    }
    rest
}

/// The registers of a thread as the items set them; what isn't set is 0.
#[tactic(auto, unfolding(crate::specs::ThreadSteps::with_items))]
fn open_registers(thread: u8, items: &[Item], registers: &mut [u64; 32])
    ensures { registers.new ≡ with_items thread (settings_of items.now) registers.old }
{
    let mut left = items;
    while let Some((item, rest)) = left.split_first() {
        if let Name::Register(owner, register) = item.name {
            if let Setting::Number(value) = item.setting {
                if owner == thread {
                    set_register(registers, register, u64::from(value));
                }
            }
        }
        left = rest;
    }
}

/// The address of a location's word.
pub(crate) fn location_address(location: u8) -> WordAddr
    ensures { result ≡ location }
{
    WordAddr::at(u64::from(location))
}

impl<'a> ThreadState<'a> {
    /// A thread as the test opens it.
    pub(crate) fn open(thread: u8, items: &[Item], cells: &'a [Cell]) -> ThreadState<'a>
        ensures { result ≡
            settled_thread thread (with_items thread (settings_of items.now) (replicate 32 0))
            cells.now }
    {
        let mut registers = [0; 32];
        open_registers(thread, items, &mut registers);
        let rest = run_to_memory_instruction(thread, &mut registers, cells);
        ThreadState {
            thread,
            rest,
            registers,
        }
    }

    /// The thread's next operation, the same until `done`; `None` if it has finished.
    pub fn next(&self) -> Option<Op>
        ensures { result ≡ next_operation self.now }
    {
        let cell = self.rest.first()?;
        match cell.instruction {
            Instruction::Load { location, .. } => Some(Op::Load(location_address(location))),
            Instruction::Store { source, location } => Some(Op::Store(
                location_address(location),
                register_value(&self.registers, source),
            )),
            Instruction::Swap {
                source,
                location,
                ..
            } => Some(Op::Swap(
                location_address(location),
                register_value(&self.registers, source),
            )),
            _ => None,
        }
    }

    /// Takes the next operation as done, with the value that it received; a thread that has
    /// finished stays as it is.
    pub fn done(&mut self, received: Option<u64>)
        ensures { self.new ≡ done_with self.old received }
    {
        let Some((cell, rest)) = self.rest.split_first() else {
            return;
        };
        if let Some(value) = received {
            match cell.instruction {
                Instruction::Load { target, .. } | Instruction::Swap { target, .. } => {
                    set_register(&mut self.registers, target, value);
                }
                _ => {}
            }
        }
        self.rest = run_to_memory_instruction(self.thread, &mut self.registers, rest);
    }

    /// A register's value.
    pub fn register(&self, register: u8) -> u64
        ensures { result ≡ register_value self.now.registers register }
    {
        register_value(&self.registers, register)
    }
}
