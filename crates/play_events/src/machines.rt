//! The machine that an example plays on, and what the player keeps with it.

use crate::calls::Call;
use crate::counts::Counted;
use crate::drives::Drives;
use crate::looks::{put_look_up, put_order_kept};
use event_text::{NO_MACHINE, NO_MEMORY, Opening, Reply, opening_memory_of, put_answer};
use interleaving_core::{Answer, Config, Event, OpenError, System};
use physiological_order::{Memory, Op, Record, WordAddr};
use std::alloc::{AllocError, Global};

/// The machine, once it is opened, the words that it opened with, and the programs.
#[derive(Drop)]
pub(crate) struct Played {
    pub(crate) alloc: Global,
    pub(crate) system: Option<System>,
    config: Option<Config>,
    pub(crate) words: Vec<(WordAddr, u64)>,
    drives: Drives,
}

/// A machine that opens with these words.
pub(crate) fn open_machine(
    alloc: Global,
    config: Config,
    words: &[(WordAddr, u64)],
) -> Result<System, OpenError> {
    match opening_memory_of(alloc, words) {
        Ok(memory) => System::new(alloc, config, memory),
        Err(_) => Err(OpenError::NoMemory),
    }
}

/// Writes the answers to a list of events.
pub(crate) fn put_answers(answers: &[Answer], out: &mut Reply) {
    for answer in answers {
        out.begin_part();
        put_answer(answer, out);
    }
}

/// Plays events as one list.
fn run_event_list(system: &mut System, events: &[Event], out: &mut Reply) {
    match system.run(events) {
        Ok(answers) => put_answers(answers.as_slice(), out),
        Err(_) => out.put_word(NO_MEMORY),
    }
}

fn answer_event(system: &mut System, event: Event, out: &mut Reply) {
    let _inside: (Option<Op>, Option<Record>) = (None, None);
    let came = system.step(event);
    put_answer(&came, out);
}

/// Starts keeping lines in order, or stops.
fn keep_or_forget_order(system: &mut System, is_kept: bool, out: &mut Reply) {
    if !is_kept {
        system.forget_order();
    } else if system.keep_order().is_err() {
        return out.put_word(NO_MEMORY);
    }
    put_order_kept(system, out);
}

impl Played {
    pub(crate) fn new(alloc: Global) -> Played {
        Played {
            alloc,
            system: None,
            config: None,
            words: Vec::new(alloc),
            drives: Drives::new(alloc),
        }
    }

    /// How many words a line of the machine has; 1 if there is none.
    pub(crate) fn line_words(&self) -> u32 {
        match &self.system {
            Some(system) => system.line_words(),
            None => 1,
        }
    }

    fn play_opening(&mut self, opening: Opening, out: &mut Reply) {
        self.system = None;
        self.config = Some(opening.config);
        self.words = opening.words;
        self.drives.note_opening();
        match open_machine(self.alloc, opening.config, self.words.as_slice()) {
            Ok(system) => {
                self.system = Some(system);
                out.put_word("opened");
            }
            Err(OpenError::BadConfig) => out.put_word("refused BadConfig"),
            Err(OpenError::NoMemory) => out.put_word(NO_MEMORY),
        }
    }

    /// Opens the machine again with this memory; if an allocation fails, the machine is dropped.
    pub(crate) fn reopen_machine(&mut self, memory: Memory) -> Option<Result<(), AllocError>> {
        let system = self.system.take()?;
        self.drives.note_opening();
        match system.reopen(memory) {
            Ok(system) => {
                self.system = Some(system);
                Some(Ok(()))
            }
            Err(error) => Some(Err(error)),
        }
    }

    fn play_reopening(&mut self, words: Vec<(WordAddr, u64)>, out: &mut Reply) {
        let Ok(memory) = opening_memory_of(self.alloc, words.as_slice()) else {
            return out.put_word(NO_MEMORY);
        };
        self.words = words;
        match self.reopen_machine(memory) {
            Some(Ok(())) => out.put_word("reopened"),
            Some(Err(_)) => out.put_word(NO_MEMORY),
            None => out.put_word(NO_MACHINE),
        }
    }

    /// The counts of the last drive.
    fn count_last_drive(&self) -> Result<Option<Counted>, AllocError> {
        let Some(config) = self.config else {
            return Ok(None);
        };
        match open_machine(self.alloc, config, self.words.as_slice()) {
            Ok(system) => self.drives.count_last_drive(system),
            Err(_) => Err(AllocError),
        }
    }

    fn put_drive_counts(&self, out: &mut Reply) {
        if self.system.is_none() {
            return out.put_word(NO_MACHINE);
        }
        match self.count_last_drive() {
            Ok(Some(counted)) => counted.put_run_counts(out),
            Ok(None) => out.put_word("none"),
            Err(_) => out.put_word(NO_MEMORY),
        }
    }

    /// Plays what a line asks for, and writes the answer.
    pub(crate) fn play_call(&mut self, call: Call, out: &mut Reply) {
        let call = match call {
            Call::Machine(opening) => return self.play_opening(opening, out),
            Call::Reopen(words) => return self.play_reopening(words, out),
            Call::Counts => return self.put_drive_counts(out),
            call => call,
        };
        let Some(system) = &mut self.system else {
            return out.put_word(NO_MACHINE);
        };
        match call {
            Call::Event(event) => {
                self.drives.note_events();
                answer_event(system, event, out)
            }
            Call::Run(events) => {
                self.drives.note_events();
                run_event_list(system, events.as_slice(), out)
            }
            Call::Keep(is_kept) => keep_or_forget_order(system, is_kept, out),
            Call::Look(look) => put_look_up(self.alloc, system, self.words.as_slice(), &look, out),
            Call::Drive(policy, limit) => self.drives.drive_machine(system, policy, limit, out),
            Call::Made(count) => self.drives.put_next_events(count, out),
            Call::Program(core, steps) => self.drives.give_program(core, steps, out),
            Call::Machine(_) | Call::Reopen(_) | Call::Counts => {}
        }
    }
}
