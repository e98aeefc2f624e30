//! How each core lost its last copy of each line.
ghost use Rattle.std.specs.Prelude.{◌≡◌, ◌<◌, OnOk, option_copied, slice_get};
ghost use Rattle.std.specs.FinMap.{empty};
ghost use Rattle.event_counts.specs.Losses.{at_risk, copy_at, copy_for, copy_under, has_copy, key_of, loss};
ghost use Rattle.event_counts.specs.Losses.{lost_after, taken_by, with_loss};

use crate::cause::Cause;
use interleaving_core::{Event, History, System};
use network::{LineNo, Message, Node};
use std::alloc::{AllocError, Global};
use std::collections::HashMap;
use std::marker::Model;

/// The copies that are lost, by core and line. Contracts see a finite map, and for how many more copies there is room.
#[derive(Drop)]
pub(crate) struct LostCopies {
    hash: HashMap<u128, Cause>,
}

impl Model for LostCopies {
    ghost use Rattle.std.specs.FinMap as map;
    ghost use Rattle.std.specs.HashMap.{spare};
    ghost use Rattle.std.specs.Ordering.{nat_cmp};
    ghost use Rattle.std.specs.Coded.{codes, coded_ℕ};
    ghost use Rattle.event_counts.specs.contracts.cause.Cause as cause;
    ghost use Rattle.event_counts.specs.Losses.{LostCopies};

    ghost Value = { LostCopies };

    ghost coded = { Prim.hlevel (codes, map.code {R = nat_cmp} coded_ℕ cause.the_row.coded) };

    ghost view = { λ a. record { lost = map.from_entries a.hash.entries; room = spare a.hash } };
}

// The number that stands for a core and a line.
#[inline(always)]
fn key_of_copy(core: u32, line: LineNo) -> u128
    ensures { result ≡ key_of core line }
{
    line.0 as u128 * 0x1_0000_0000 + core as u128
}

impl LostCopies {
    /// No copy is lost. It allocates nothing yet.
    pub(crate) fn new(alloc: Global) -> LostCopies
        ensures { result.lost ≡ empty }
    {
        LostCopies {
            hash: HashMap::new(alloc),
        }
    }

    /// How a core lost its last copy of a line, if it ever lost one.
    pub(crate) fn loss(&self, core: u32, line: LineNo) -> Option<Cause>
        ensures { result ≡ loss self.now.lost core line }
    {
        self.hash.get(&key_of_copy(core, line)).copied()
    }

    /// Makes room for one more copy.
    pub(crate) fn reserve(&mut self) -> Result<(), AllocError>
        ensures same { self.new.lost ≡ self.old.lost }
        ensures room { OnOk result (0 < self.new.room) }
    {
        self.hash.reserve(1)
    }

    // A core lost its copy of a line so.
    fn note_loss(&mut self, core: u32, line: LineNo, why: Cause)
        requires { 0 < self.old.room }
        ensures { self.new.lost ≡ with_loss self.old.lost core line why }
    {
        let stored: Result<_, _> = self.hash.insert(key_of_copy(core, line), why);
        let _before = stored.unwrap();
    }

    /// Notes the copy that an event may take, if it isn't there on the machine after it.
    #[inline(always)]
    pub(crate) fn see<K: History>(
        &mut self,
        copy: Option<(u32, LineNo)>,
        event: &Event,
        system: &System<K>,
    )
        requires { 0 < self.old.room }
        ensures { self.new.lost ≡ lost_after self.old.lost copy event.now system.now }
    {
        let Some((core, line)) = copy else {
            return;
        };
        if !has_copy(system, core, line) {
            self.note_loss(core, line, cause_of_loss(event));
        }
    }
}

// How an event takes a copy.
fn cause_of_loss(event: &Event) -> Cause
    ensures { result ≡ taken_by event.now }
{
    match event {
        Event::EvictCache(_, _) => Cause::Evicted,
        _ => Cause::Recalled,
    }
}

/// Whether a core has a copy of a line.
pub(crate) fn has_copy<K: History>(system: &System<K>, core: u32, line: LineNo) -> bool
    ensures { result ≡ has_copy (slice_get system.now.cores core) line }
{
    match system.core(core) {
        None => false,
        Some(core) => core.copy(line).is_some(),
    }
}

// A core and a line, if the core has a copy of it.
fn copy_at<K: History>(system: &System<K>, core: u32, line: LineNo) -> Option<(u32, LineNo)>
    ensures { result ≡ copy_at system.now core line }
{
    if has_copy(system, core, line) {
        Some((core, line))
    } else {
        None
    }
}

// The copy of a line at a node, if that is a core that has one.
fn copy_at_node<K: History>(system: &System<K>, line: LineNo, to: Node) -> Option<(u32, LineNo)>
    ensures { result ≡ copy_for system.now line to }
{
    match to {
        Node::Core(core) => copy_at(system, core, line),
        _ => None,
    }
}

// The copy of a message's line at its core.
fn copy_of_message_line<K: History>(
    system: &System<K>,
    message: Option<&Message>,
) -> Option<(u32, LineNo)>
    ensures { result ≡ copy_under system.now (option_copied message.entry) }
{
    match message {
        None => None,
        Some(message) => copy_at_node(system, message.line, message.to),
    }
}

/// The copy that an event may take, if it is there before it: its core and its line.
pub(crate) fn copy_at_risk<K: History>(system: &System<K>, event: &Event) -> Option<(u32, LineNo)>
    ensures { result ≡ at_risk system.now event.now }
{
    match event {
        Event::EvictCache(core, line) => copy_at(system, *core, *line),
        Event::Deliver(number) => copy_of_message_line(system, system.look(*number)),
        _ => None,
    }
}
