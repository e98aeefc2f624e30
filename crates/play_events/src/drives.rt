//! Programs of steps, by which rounds or a seed drive a machine.

use crate::counts::Counted;
use event_text::{Reply, put_event};
use interleaving_core::{Event, System};
use physiological_order::Op;
use programs::{End, Step, StepProgram};
use schedules::{Driven, Policy, drive_fair_round, drive_round, drive_seed};
use std::alloc::{AllocError, Global};

/// The programs of cores, and the events of the last drive.
#[derive(Drop)]
pub(crate) struct Drives {
    alloc: Global,
    /// By core; a later program comes after an earlier one.
    programs: Vec<(u32, Vec<Step>)>,
    events: Vec<Event>,
    /// How many of the events were looked at.
    at: usize,
    /// Whether the machine had no event since it opened.
    is_new: bool,
    /// The schedule of the last drive, if the machine had just opened.
    counted: Option<Policy>,
}

/// The steps of a core's last program.
fn last_steps_of_core(programs: &[(u32, Vec<Step>)], core: u32) -> &[Step] {
    for (of, steps) in programs.iter().rev() {
        if *of == core {
            return steps.as_slice();
        }
    }
    &[]
}

/// A program for each core.
fn programs_by_core<'a>(
    alloc: Global,
    given: &'a [(u32, Vec<Step>)],
    cores: u32,
) -> Result<Vec<StepProgram<'a>>, AllocError> {
    let mut programs = Vec::new(alloc);
    for core in 0..cores {
        programs.push(StepProgram::new(last_steps_of_core(given, core)))?;
    }
    Ok(programs)
}

/// How a drive ended, before the number of its events.
fn name_of_end(end: End) -> &'static str {
    match end {
        End::AllDone => "all-done,",
        End::Stalled => "stalled,",
        End::TurnsUsed => "limit,",
        End::Exhausted => "exhausted,",
        End::NoMemory => "memory,",
    }
}

/// Drives the machine by these programs, one for each core.
fn drive_by_policy(
    alloc: Global,
    system: &mut System,
    programs: &mut [StepProgram<'_>],
    policy: Policy,
    limit: u32,
) -> Option<Driven> {
    if programs.len() as u64 != u64::from(system.cores()) {
        return None;
    }
    Some(match policy {
        Policy::Rounds => drive_round(alloc, system, programs, limit),
        Policy::FairRounds => drive_fair_round(alloc, system, programs, limit),
        Policy::Seed(seed) => drive_seed(alloc, system, programs, seed, limit),
    })
}

impl Drives {
    pub(crate) fn new(alloc: Global) -> Drives {
        let _inside: Option<Op> = None;
        Drives {
            alloc,
            programs: Vec::new(alloc),
            events: Vec::new(alloc),
            at: 0,
            is_new: true,
            counted: None,
        }
    }

    /// Gives a core its program.
    pub(crate) fn give_program(&mut self, core: u32, steps: Vec<Step>, out: &mut Reply) {
        let _inside: Option<Op> = None;
        match self.programs.push((core, steps)) {
            Ok(()) => out.put_word("given"),
            Err(_) => out.note_no_memory(),
        }
    }

    /// Drives the machine, if memory for programs can be allocated; how that ended, and how many events were made.
    fn run_programs(
        &mut self,
        system: &mut System,
        policy: Policy,
        limit: u32,
        out: &mut Reply,
    ) -> Result<(), AllocError> {
        let mut programs = programs_by_core(self.alloc, self.programs.as_slice(), system.cores())?;
        let programs = programs.as_mut_slice();
        let Some(run) = drive_by_policy(self.alloc, system, programs, policy, limit) else {
            return Ok(());
        };
        out.put_word(name_of_end(run.end));
        out.put_number(run.events.len() as u64);
        out.put_word("events");
        self.events = run.events;
        self.at = 0;
        Ok(())
    }

    /// A machine opens.
    pub(crate) fn note_opening(&mut self) {
        self.is_new = true;
        self.counted = None;
    }

    /// The machine gets events.
    pub(crate) fn note_events(&mut self) {
        self.is_new = false;
    }

    /// Drives the machine, and writes how that ended, and how many events were made.
    pub(crate) fn drive_machine(
        &mut self,
        system: &mut System,
        policy: Policy,
        limit: u32,
        out: &mut Reply,
    ) {
        self.counted = if self.is_new { Some(policy) } else { None };
        self.is_new = false;
        if self.run_programs(system, policy, limit, out).is_err() {
            out.note_no_memory();
        }
    }

    /// The next events of the last drive, at most this many.
    pub(crate) fn put_next_events(&mut self, count: u32, out: &mut Reply) {
        for _ in 0..count {
            let Some(event) = self.events.get(self.at) else {
                break;
            };
            out.begin_part();
            put_event(event, out);
            self.at = self.at.saturating_add(1);
        }
        out.put_word_if_empty("end");
    }

    /// The counts of the last drive, made once more on this machine, which has just opened; nothing if its own had had
    /// events before.
    pub(crate) fn count_last_drive(&self, system: System) -> Result<Option<Counted>, AllocError> {
        let Some(policy) = self.counted else {
            return Ok(None);
        };
        let mut counted = Counted::new(self.alloc, system, policy)?;
        counted.make_events(self.events.as_slice())?;
        Ok(Some(counted))
    }
}
