//! Two more ways to play an example: on its machine, opened again, and with all its events as one list on a new one.
//! The answers must be those that came the first time.

use crate::calls::Call;
use crate::machines::{Played, open_machine, put_answers};
use crate::player::{next_readable_turn, play_turn, read_call_again};
use event_text::{Example, Page, Reply, opening_memory_of};
use interleaving_core::{Answer, Config, Event, System};
use physiological_order::{Op, WordAddr};
use std::alloc::{AllocError, Global};
use std::io;
use std::io::Write;

/// Words of a memory that no example opens with.
const OTHER_WORDS: [(u64, u64); 2] = [(0, 30), (1, 31)];

/// What a machine must answer that is opened again with these.
const AS_OPENED: &str = "records 0 messages 0 words 30 31";

/// The events of an example.
#[derive(Drop)]
struct Listed {
    config: Option<Config>,
    events: Vec<Event>,
    /// The index of each line with events, and how many there are up to it.
    lines: Vec<(usize, usize)>,
    /// Whether the example can be played in other ways: it opens one machine, once, and drives none.
    is_plain: bool,
}

impl Listed {
    /// Takes in the event of a line, or its events.
    fn add_events(&mut self, at: usize, events: &[Event]) -> io::Result<()> {
        let _inside: Option<Op> = None;
        for event in events {
            self.events.push(*event)?;
        }
        self.lines.push((at, self.events.len()))?;
        Ok(())
    }

    /// Takes in the line at an index.
    fn add_call(&mut self, at: usize, call: &Call) -> io::Result<()> {
        match call {
            Call::Machine(opening) => {
                self.is_plain = self.is_plain && self.config.is_none();
                self.config = Some(opening.config);
                Ok(())
            }
            Call::Event(event) => self.add_events(at, &[*event]),
            Call::Run(events) => self.add_events(at, events.as_slice()),
            Call::Reopen(_) | Call::Drive(_, _) => {
                self.is_plain = false;
                Ok(())
            }
            _ => Ok(()),
        }
    }
}

/// The events of an example.
fn list_example_events(
    alloc: Global,
    example: &Example<'_>,
    line_words: u32,
) -> io::Result<Listed> {
    let mut listed = Listed {
        config: None,
        events: Vec::new(alloc),
        lines: Vec::new(alloc),
        is_plain: true,
    };
    let mut cursor = example.cursor();
    for at in 0..usize::MAX {
        let Some(turn) = next_readable_turn(&mut cursor)? else {
            break;
        };
        let call = read_call_again(alloc, &turn, line_words)?;
        listed.add_call(at, &call)?;
    }
    Ok(listed)
}

/// The memory that no example opens with.
fn other_opening_words(alloc: Global) -> io::Result<Vec<(WordAddr, u64)>> {
    let mut words = Vec::new(alloc);
    for (word, value) in OTHER_WORDS {
        words.push((WordAddr::at(word), value))?;
    }
    Ok(words)
}

/// Opens the machine again with these words.
fn reopen_with_words(played: &mut Played, words: &[(WordAddr, u64)]) -> io::Result<()> {
    let memory = opening_memory_of(played.alloc, words)?;
    if let Some(reopened) = played.reopen_machine(memory) {
        reopened?;
    }
    Ok(())
}

/// Writes what must be so of a machine that was opened again with the other memory.
fn put_reopened_machine(system: &System, out: &mut Reply) {
    out.put_named_number("records", system.records().len() as u64);
    out.put_named_number("messages", u64::from(system.messages()));
    out.put_word("words");
    for (word, _) in OTHER_WORDS {
        out.put_number(system.coherent(WordAddr::at(word)));
    }
}

/// Opens the machine with the other memory, compares what it then has, and opens it with its own.
fn compare_reopened_machine<W: Write + Drop>(
    played: &mut Played,
    page: &mut Page<'_>,
    reply: &mut Reply,
    out: &mut W,
) -> io::Result<()> {
    let alloc = played.alloc;
    reopen_with_words(played, other_opening_words(alloc)?.as_slice())?;
    reply.clear();
    if let Some(system) = &played.system {
        put_reopened_machine(system, reply);
    }
    page.compare_opening(AS_OPENED, reply, "opened again", out)?;
    let words = Vec::from_slice(alloc, played.words.as_slice())?;
    reopen_with_words(played, words.as_slice())
}

/// Plays an example on its machine, opened again.
fn play_on_reopened_machine<W: Write + Drop>(
    played: &mut Played,
    example: &Example<'_>,
    page: &mut Page<'_>,
    out: &mut W,
) -> io::Result<()> {
    let mut reply = Reply::new(played.alloc);
    compare_reopened_machine(played, page, &mut reply, out)?;
    let mut cursor = example.cursor();
    for at in 0..usize::MAX {
        let Some(turn) = next_readable_turn(&mut cursor)? else {
            break;
        };
        if turn.call_name() != "machine" {
            play_turn(played, &turn, &mut reply)?;
            page.compare_answer(at, &reply, "opened again", out)?;
        }
    }
    Ok(())
}

/// Compares the answers to the events of an example as one list with those that came line by line.
fn compare_list_answers<W: Write + Drop>(
    answers: &[Answer],
    listed: &Listed,
    page: &mut Page<'_>,
    reply: &mut Reply,
    out: &mut W,
) -> io::Result<()> {
    if answers.len() != listed.events.len() {
        reply.put_word("another number of answers");
        return page.compare_answer(0, reply, "as one list", out);
    }
    let mut from = 0;
    for (at, to) in &listed.lines {
        let Some(part) = answers.get(from..*to) else {
            break;
        };
        from = *to;
        reply.clear();
        put_answers(part, reply);
        page.compare_answer(*at, reply, "as one list", out)?;
    }
    Ok(())
}

/// Plays the events of an example as one list on a new machine.
fn play_as_one_list<W: Write + Drop>(
    alloc: Global,
    system: &mut System,
    listed: &Listed,
    page: &mut Page<'_>,
    out: &mut W,
) -> io::Result<()> {
    let answers = system.run(listed.events.as_slice())?;
    compare_list_answers(
        answers.as_slice(),
        listed,
        page,
        &mut Reply::new(alloc),
        out,
    )
}

/// Plays an example in the other ways, if it can be: its machine was opened, once, and all its events are in lines.
pub(crate) fn play_other_ways<W: Write + Drop>(
    played: &mut Played,
    example: &Example<'_>,
    page: &mut Page<'_>,
    out: &mut W,
) -> io::Result<()> {
    let alloc = played.alloc;
    let listed = list_example_events(alloc, example, played.line_words())?;
    let Some(config) = listed.config else {
        return Ok(());
    };
    if !listed.is_plain || played.system.is_none() {
        return Ok(());
    }
    let anew = open_machine(alloc, config, played.words.as_slice());
    play_on_reopened_machine(played, example, page, out)?;
    match anew {
        Ok(mut system) => play_as_one_list(alloc, &mut system, &listed, page, out),
        Err(_) => Err(io::Error::from(AllocError)),
    }
}
