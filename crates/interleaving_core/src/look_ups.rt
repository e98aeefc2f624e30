//! What can be looked up in a machine.
ghost use Rattle.std.specs.Prelude.{◌≡◌, ◌<◌, IfOk, IsTrue, length, map, option_copied, slice_get, Some};
ghost use Rattle.network.specs.NumberedMessages.{IsRising, at_number};
ghost use Rattle.ranked_lines.specs.Rising.{sorted};
ghost use Rattle.machine_table.specs.Transition.{transition};
ghost use Rattle.interleaving_core.specs.LookUps.{copies, entries, free_copies, is_request, is_waiting, make_room};
ghost use Rattle.machine_table.specs.Machine.{open_op};
ghost use Rattle.interleaving_core.specs.LookUps.{room_at, victim, victim_for_core};
ghost use Rattle.machine_theorem.specs.Kept.{Invariant};
ghost use Rattle.interleaving_core.specs.CoreMasks.{IsMask, is_idle, is_trying};

use crate::histories::History;
use crate::machine_state::MachineState;
use core_pts::Core;
use dram_mts::Dram;
use llc_bank::Bank;
use machine_table::{Answer, Event};
use network::{Body, LineNo, Message, MsgNo, Node};
use physiological_order::Op;
use std::alloc::{AllocError, Global};

impl<H: History> MachineState<H> {
    // The allocator that the machine was made with.
    pub(crate) fn allocator(&self) -> Global {
        *self.cores.allocator()
    }

    // The core of a number.
    pub(crate) fn core(&self, number: u32) -> Option<&Core>
        ensures { option_copied result ≡ slice_get self.now.cores number }
    {
        self.cores.get(number as usize)
    }

    // The bank of a number.
    pub(crate) fn bank(&self, number: u32) -> Option<&Bank>
        ensures { option_copied result ≡ slice_get self.now.banks number }
    {
        self.banks.get(number as usize)
    }

    // The DRAM behind the bank of a number.
    pub(crate) fn dram(&self, number: u32) -> Option<&Dram>
        ensures { option_copied result ≡ slice_get self.now.drams number }
    {
        self.drams.get(number as usize)
    }

    // The message in flight of a number.
    pub(crate) fn message_in_flight(&self, number: MsgNo) -> Option<&Message>
        ensures { option_copied result ≡ at_number number self.now.mail.messages }
    {
        self.flight.look(number)
    }

    // The number of the message in flight at an index, which is looked up soon.
    pub(crate) fn seek_message(&mut self, at: u32) -> Option<MsgNo>
        ensures number { result ≡ slice_get (map (λ m. m.0) self.old.mail.messages) at }
        ensures same { self.new ≡ self.old }
    {
        self.flight.seek_nth(at)
    }

    // The open operation of a core, and whether its request is out.
    #[inline(always)]
    pub(crate) fn open_op(&self, core: u32) -> Option<(Op, bool)>
        ensures { result ≡ open_op self.now core }
    {
        self.cores.get(core as usize)?.open_op()
    }

    // Whether an attempt of a core is to find that its request is out, and that it has no copy of the line.
    #[inline(always)]
    pub(crate) fn is_waiting(&self, core: u32) -> bool
        requires { Invariant self.now }
        ensures value { result ≡ is_waiting self.now core }
        ensures waiting { IsTrue result → (Answer.Waiting, self.now) ≡
            transition self.now (Event.Attempt core) }
    {
        if self.is_stopped {
            return false;
        }
        let Some(own) = self.core(core) else {
            return false;
        };
        own.is_waiting()
    }

    // The cores without an open operation.
    #[inline(always)]
    pub(crate) fn idle_cores(&self) -> u64
        ensures { IsMask result (is_idle self.now) }
    {
        self.masks.idle
    }

    // The cores with an open operation whose request isn't out.
    #[inline(always)]
    pub(crate) fn trying_cores(&self) -> u64
        ensures { IsMask result (is_trying self.now) }
    {
        self.masks.trying
    }

    // The copy to evict from a core's cache to make a place for a line, where there is none.
    pub(crate) fn victim(&self, core: u32, line: LineNo) -> Option<LineNo>
        ensures { result ≡ victim self.now core line }
    {
        self.cores.get(core as usize)?.victim(line)
    }

    // The copy to evict to make a place for the line of a core's open operation.
    #[inline(always)]
    pub(crate) fn open_victim(&self, core: u32) -> Option<LineNo>
        requires { Invariant self.now }
        ensures { result ≡ victim_for_core self.now core (open_op self.now core) }
    {
        let Some(own) = self.core(core) else {
            return None;
        };
        own.open_victim()
    }

    // The line to evict from a bank so that a request that waits for room there finds it.
    #[inline(always)]
    pub(crate) fn make_room(&self, number: MsgNo) -> Option<(u32, LineNo)>
        ensures { result ≡ make_room self.now number }
    {
        let message = self.flight.look(number)?;
        if !is_request(&message.body) {
            return None;
        }
        self.victim_in_bank(message.line, message.to)
    }

    // The line to evict from a bank for a line that waits for room there.
    #[inline(always)]
    fn victim_in_bank(&self, line: LineNo, to: Node) -> Option<(u32, LineNo)>
        ensures { result ≡ room_at self.now line to }
    {
        let Node::Bank(bank) = to else {
            return None;
        };
        let victim = self.banks.get(bank as usize)?.make_room(line)?;
        Some((bank, victim))
    }

    // The lines of a core's copies, rising.
    pub(crate) fn copies(&self, core: u32) -> Result<Vec<LineNo>, AllocError>
        ensures { IfOk result (λ lines. lines.items ≡ sorted (copies self.now core)) }
    {
        match self.cores.get(core as usize) {
            Some(core) => core.lines(),
            None => Ok(Vec::new(self.allocator())),
        }
    }

    // The lines that a bank has and that nothing is under way for, rising.
    pub(crate) fn entries(&self, bank: u32) -> Result<Vec<LineNo>, AllocError>
        ensures { IfOk result (λ lines. lines.items ≡ sorted (entries self.now bank)) }
    {
        match self.banks.get(bank as usize) {
            Some(bank) => bank.lines(),
            None => Ok(Vec::new(self.allocator())),
        }
    }

    // How many copies may be evicted from a core's cache.
    pub(crate) fn free_copies(&self, core: u32) -> usize
        ensures { result ≡ length (free_copies self.now core) }
    {
        match self.cores.get(core as usize) {
            Some(core) => core.free_copies(),
            None => 0,
        }
    }

    // The line that comes after so many others, once those that may be evicted are in rising order.
    pub(crate) fn free_copy(&self, core: u32, at: usize) -> Result<LineNo, AllocError>
        requires { at < length (free_copies self.now core) }
        ensures { IfOk result (λ line. slice_get (sorted (free_copies self.now core)) at ≡ Some
            line) }
    {
        match self.cores.get(core as usize) {
            Some(core) => core.free_copy(at),
            None => unreachable!(),
        }
    }

    // How many lines a bank has that nothing is under way for.
    pub(crate) fn settled(&self, bank: u32) -> usize
        ensures { result ≡ length (entries self.now bank) }
    {
        match self.banks.get(bank as usize) {
            Some(bank) => bank.settled(),
            None => 0,
        }
    }

    // The line that comes after so many others, once those that nothing is under way for are in rising order.
    pub(crate) fn entry(&self, bank: u32, at: usize) -> Result<LineNo, AllocError>
        requires { at < length (entries self.now bank) }
        ensures { IfOk result (λ line. slice_get (sorted (entries self.now bank)) at ≡ Some line) }
    {
        match self.banks.get(bank as usize) {
            Some(bank) => bank.settled_line(at),
            None => unreachable!(),
        }
    }
}

// Whether a message asks for a line.
#[inline(always)]
fn is_request(body: &Body) -> bool
    ensures { result ≡ is_request body.now }
{
    matches!(body, Body::ShReq { .. } | Body::ExReq { .. })
}
