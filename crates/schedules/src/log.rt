//! What a run notes: each event is shown when it is answered, and which programs have a next step.
ghost use Rattle.std.specs.Prelude.{◌≡◌, ◌≢◌, ◌<◌, ℕ, IsTrue, None, false, List, if◌then◌else◌};
ghost use Rattle.std.specs.Int.{bit_at};
ghost use Rattle.machine_table.specs.declared.event.Event.TheVariants.{Deliver};
ghost use Rattle.machine_table.specs.Machine.{Machine};
ghost use Rattle.interleaving_core.specs.LookUps.{make_room};
ghost use Rattle.interleaving_core.specs.PartChanges.{answer_in};
ghost use Rattle.interleaving_core.specs.StepAnswers.{Stepped};
ghost use Rattle.schedules.specs.Notes.{IsNoted, IsSame, Noted, answered, is_no_memory, is_refused};
ghost use Rattle.schedules.specs.Parts.{is_advanced, is_times_end, is_held, is_evicted, is_progress, is_no_room};

use crate::watcher::Watcher;
use interleaving_core::{Event, History, PlainAnswer, Refusal, System, with_bit};
use machine_table::laws::every_answer_keeps_its_word;
use network::MsgNo;
use physiological_order::Record;
use programs::End;

// Who is shown the events of a run, whether one of them was progress in this turn, and the cores whose programs have a
// next step: core c is one exactly if bit c is set.
pub(crate) struct Log<W> {
    watcher: W,
    has_progressed: bool,
    unfinished: u64,
}

// Whether an answer, of a machine with any records, is more than Waiting, Held or a refusal.
fn is_progress(plain: &Option<PlainAnswer>) -> bool
    ensures { (records : List Record) → result ≡ is_progress (answer_in records plain.now) }
{
    match plain {
        Some(PlainAnswer::Waiting | PlainAnswer::Held | PlainAnswer::Refused(_)) => false,
        _ => true,
    }
}

pub(crate) fn is_held(plain: &Option<PlainAnswer>) -> bool
    ensures { (records : List Record) → result ≡ is_held (answer_in records plain.now) }
{
    matches!(*plain, Some(PlainAnswer::Held))
}

pub(crate) fn is_evicted(plain: &Option<PlainAnswer>) -> bool
    ensures { (records : List Record) → result ≡ is_evicted (answer_in records plain.now) }
{
    matches!(*plain, Some(PlainAnswer::Evicted))
}

pub(crate) fn is_no_room(plain: &Option<PlainAnswer>) -> bool
    ensures { (records : List Record) → result ≡ is_no_room (answer_in records plain.now) }
{
    matches!(*plain, Some(PlainAnswer::Refused(Refusal::NoRoom)))
}

pub(crate) fn is_advanced(plain: &Option<PlainAnswer>) -> bool
    ensures { (records : List Record) → result ≡ is_advanced (answer_in records plain.now) }
{
    matches!(*plain, Some(PlainAnswer::Advanced))
}

// Whether an event was refused; only a refusal may end a run.
fn is_refused(plain: &Option<PlainAnswer>) -> bool
    ensures refused { (records : List Record) → result ≡ is_refused (answer_in records plain.now) }
    ensures goes_on { (records : List Record) → result ≡ false →
        (is_no_memory (answer_in records plain.now) ≡ false)
        × (is_times_end (answer_in records plain.now) ≡ false) }
{
    matches!(*plain, Some(PlainAnswer::Refused(_)))
}

fn is_no_memory(plain: &Option<PlainAnswer>) -> bool
    ensures { (records : List Record) → result ≡ is_no_memory (answer_in records plain.now) }
{
    matches!(*plain, Some(PlainAnswer::Refused(Refusal::NoMemory)))
}

fn is_exhausted(plain: &Option<PlainAnswer>) -> bool
    ensures { (records : List Record) → result ≡ is_times_end (answer_in records plain.now) }
{
    matches!(*plain, Some(PlainAnswer::Refused(Refusal::Exhausted)))
}

impl<W> Log<W> {
    // Nothing is noted.
    pub(crate) fn new(watcher: W) -> Log<W>
        ensures watcher { result.watcher ≡ watcher }
        ensures progressed { result.has_progressed ≡ false }
    {
        Log {
            watcher,
            has_progressed: false,
            unfinished: 0,
        }
    }

    // The watcher, as the run left it.
    pub(crate) fn into_watcher(self) -> W
        ensures { result ≡ self.watcher }
    {
        let Log {
            watcher,
            has_progressed: _,
            unfinished: _,
        } = self;
        watcher
    }

    // A turn begins.
    pub(crate) fn begin_turn(&mut self)
        ensures { self.new ≡ record self.old { has_progressed = false } }
    {
        self.has_progressed = false;
    }

    // Whether an answer of this turn was progress.
    pub(crate) fn has_progressed(&self) -> bool
        ensures { result ≡ self.now.has_progressed }
    {
        self.has_progressed
    }

    // The cores whose programs have a next step, as was noted.
    #[inline(always)]
    pub(crate) fn unfinished_cores(&self) -> u64
        ensures { result ≡ self.now.unfinished }
    {
        self.unfinished
    }

    // The cores whose programs have a next step are noted.
    pub(crate) fn set_unfinished_cores(&mut self, unfinished: u64)
        ensures { self.new ≡ record self.old { unfinished = unfinished } }
    {
        self.unfinished = unfinished;
    }

    // Whether a core's program has a next step is noted.
    #[inline(always)]
    pub(crate) fn set_core_unfinished(&mut self, core: u32, has_next: bool)
        requires { core < 64 }
        ensures same { self.new ≡ record self.old { unfinished = self.new.unfinished } }
        ensures here { bit_at self.new.unfinished core ≡ (if has_next then 1 else 0) }
        ensures elsewhere { (i : ℕ) → i ≢ core →
            bit_at self.new.unfinished i ≡ bit_at self.old.unfinished i }
    {
        self.unfinished = with_bit(self.unfinished, core, has_next);
    }
}

impl<W: Watcher> Log<W> {
    // An answered event is noted, for which the watcher is ready, and shown with the machine after it.
    #[inline(always)]
    fn log_event<K: History>(
        &mut self,
        system: &System<K>,
        event: &Event,
        plain: &Option<PlainAnswer>,
    )
        requires { (before : Machine) × W.watches.IsReady self.old.watcher before event.now }
        ensures { (before : Machine) → W.watches.IsReady self.old.watcher before event.now →
            IsNoted W.watches before self.old event.now (answer_in system.now.records plain.now)
            system.now self.new }
    {
        self.watcher.see(system, event, plain);
        if !self.has_progressed {
            self.has_progressed = is_progress(plain);
        }
    }

    // Notes the answer to an event, for which the watcher is ready. An error ends the run, as one of `step_and_log`
    // does.
    #[inline(always)]
    fn log_answer<K: History>(
        &mut self,
        system: &System<K>,
        event: &Event,
        plain: Option<PlainAnswer>,
    ) -> Result<Option<PlainAnswer>, End>
        requires { (before : Machine) × W.watches.IsReady self.old.watcher before event.now }
        ensures { (before : Machine) (first : Log W) → IsSame W.watches first self.old →
            W.watches.IsReady self.old.watcher before event.now →
            Stepped before event.now (answer_in system.now.records plain) system.now →
            Noted W.watches before first event.now (answered system.now.records result)
            system.now self.new }
    {
        every_answer_keeps_its_word();
        if !is_refused(&plain) {
            self.log_event(system, event, &plain);
            return Ok(plain);
        }
        if is_no_memory(&plain) {
            return Err(End::NoMemory);
        }
        self.log_event(system, event, &plain);
        if is_exhausted(&plain) {
            return Err(End::Exhausted);
        }
        Ok(plain)
    }
}

// Gives the machine an event and notes it. An error ends the run: Exhausted, where the event is noted, or NoMemory,
// where nothing changed and it isn't. That comes only if the event asks for memory, or the watcher does.
#[inline(always)]
pub(crate) fn step_and_log<W: Watcher, K: History>(
    log: &mut Log<W>,
    system: &mut System<K>,
    event: &Event,
) -> Result<Option<PlainAnswer>, End>
    ensures { Noted W.watches system.old log.old event.now (answered system.new.records result)
        system.new log.new }
{
    if log.watcher.prepare(system, event).is_err() {
        return Err(End::NoMemory);
    }
    let plain = system.step_plain(*event);
    log.log_answer(system, event, plain)
}

// The same for the delivery of a message. Where `waits` is set it is held, and no line need leave its bank for it.
#[inline(always)]
pub(crate) fn deliver_and_log<W: Watcher, K: History>(
    log: &mut Log<W>,
    system: &mut System<K>,
    number: MsgNo,
    waits: &mut bool,
) -> Result<Option<PlainAnswer>, End>
    requires { waits.old ≡ false }
    ensures noted { Noted W.watches system.old log.old (Deliver number)
        (answered system.new.records result) system.new log.new }
    ensures told { IsTrue waits.new → make_room system.new number ≡ None }
{
    let event = Event::Deliver(number);
    if log.watcher.prepare(system, &event).is_err() {
        return Err(End::NoMemory);
    }
    let (plain, is_waiting) = system.step_delivery(number);
    *waits = is_waiting;
    log.log_answer(system, &event, plain)
}

// The same for an attempt of a core. Most find that it waits for its line: these take few instructions, and no call.
#[inline(always)]
pub(crate) fn attempt_and_log<W: Watcher, K: History>(
    log: &mut Log<W>,
    system: &mut System<K>,
    core: u32,
) -> Result<Option<PlainAnswer>, End>
    ensures { Noted W.watches system.old log.old (Event.Attempt core)
        (answered system.new.records result) system.new log.new }
{
    let event = Event::Attempt(core);
    if !system.is_waiting(core) {
        return step_and_log(log, system, &event);
    }
    if log.watcher.prepare(system, &event).is_err() {
        return Err(End::NoMemory);
    }
    let plain = Some(PlainAnswer::Waiting);
    log.watcher.see(system, &event, &plain);
    Ok(plain)
}
