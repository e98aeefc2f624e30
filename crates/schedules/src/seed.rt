//! The seeded schedule: each turn draws two words, the first for a list of events, the second for the entry of it that
//! is made. No list of events is built: the schedule knows the cores that do something, counts the other entries, and
//! looks the drawn one up.
ghost use Rattle.std.specs.Prelude.{◌≡◌, ◌∷◌, [], ◌<◌, ◌≤◌, ◌+◌, ◌%◌, ◌*◌, ◌^◌, ℕ, List, length, IfOk};
ghost use Rattle.std.specs.Prelude.{Some};
ghost use Rattle.std.specs.Prelude.{count_ones, slice_get};
ghost use Rattle.std.specs.Int.{bit_at};
ghost use Rattle.interleaving_core.specs.LookUps.{entries, free_copies};
ghost use Rattle.machine_table.specs.Machine.{open_op};
ghost use Rattle.ranked_lines.specs.Rising.{sorted};
ghost use Rattle.programs.specs.Acts.{next_in};
ghost use Rattle.schedules.specs.SeedSchedule.{advances, core_step, core_steps, choice_at, chosen, drawn, line_events};
ghost use Rattle.schedules.specs.SeedSchedule.{of_seed, steps};
ghost use Rattle.schedules.specs.Notes.{Did, IsAsked, at};
ghost use Rattle.schedules.specs.SeedViews.{IsLine};

use crate::log::Log;
use crate::look_ups::next_step_of_core;
use crate::schedule::Schedule;
use crate::turn::{attempt_or_make_place, deliver_or_make_room, do_program_step, make_event};
use crate::watcher::Watcher;
use interleaving_core::{Event, History, System, with_bit};
use network::LineNo;
use programs::End;
use programs::program::Program;
use rand_core::SeedableRng;
use rand_core::utils::NextWord;
use rand_pcg::Pcg32;
use std::alloc::AllocError;
use std::marker::Model;

// The generator.
#[derive(Drop)]
pub(crate) struct Seeds {
    generator: Pcg32,
}

impl Model for Seeds {
    ghost use Rattle.rand_pcg.specs.Lcg.{Lcg};

    ghost Value = { Lcg };

    ghost view = { λ a. a.generator };
}

impl Seeds {
    // Before the first turn.
    pub(crate) fn new(seed: u64) -> Seeds
        ensures { result ≡ of_seed seed }
    {
        Seeds {
            generator: Pcg32::seed_from_u64(seed),
        }
    }
}

// What holds lines that may leave it: the cores' caches, or the banks.
trait Holder {
    ghost use Rattle.std.specs.Prelude.{ℕ, List};
    ghost use Rattle.machine_table.specs.Machine.{Machine};
    ghost use Rattle.machine_table.specs.declared.event.Event.{Event};

    // How many there are, their lines, and a line's event.
    ghost holders: { Machine → ℕ };

    ghost lines: { Machine → ℕ → List ℕ };

    ghost eviction: { ℕ → ℕ → Event };

    fn holders<K: History>(system: &System<K>) -> u32
        ensures value { result ≡ holders system.now }
        ensures bound { result ≤ 64 };

    fn count<K: History>(system: &System<K>, holder: u32) -> usize
        ensures { result ≡ length (lines system.now holder) };

    fn line<K: History>(system: &System<K>, holder: u32, at: usize) -> Result<LineNo, AllocError>
        requires { at < length (lines system.now holder) }
        ensures { IfOk result (λ line.
            slice_get (sorted (lines system.now holder)) at ≡ Some line) };

    fn eviction(holder: u32, line: LineNo) -> Event
        ensures { result ≡ eviction holder line };
}

// The cores, with the copies that aren't pinned.
struct Copies;

impl Holder for Copies {
    ghost use Rattle.machine_table.specs.declared.event.Event.TheVariants as event;
    ghost use Rattle.interleaving_core.specs.LookUps.{free_copies};

    ghost holders = { λ m. m.config.cores };

    ghost lines = { free_copies };

    ghost eviction = { event.EvictCache };

    fn holders<K: History>(system: &System<K>) -> u32 {
        system.cores()
    }

    fn count<K: History>(system: &System<K>, holder: u32) -> usize {
        system.free_copies(holder)
    }

    fn line<K: History>(system: &System<K>, holder: u32, at: usize) -> Result<LineNo, AllocError> {
        system.free_copy(holder, at)
    }

    fn eviction(holder: u32, line: LineNo) -> Event {
        Event::EvictCache(holder, line)
    }
}

// The banks, with the lines that they have Shared or Exclusive.
struct Entries;

impl Holder for Entries {
    ghost use Rattle.machine_table.specs.declared.event.Event.TheVariants as event;
    ghost use Rattle.interleaving_core.specs.LookUps.{entries};

    ghost holders = { λ m. m.config.banks };

    ghost lines = { entries };

    ghost eviction = { event.EvictBank };

    fn holders<K: History>(system: &System<K>) -> u32 {
        system.banks()
    }

    fn count<K: History>(system: &System<K>, holder: u32) -> usize {
        system.settled(holder)
    }

    fn line<K: History>(system: &System<K>, holder: u32, at: usize) -> Result<LineNo, AllocError> {
        system.entry(holder, at)
    }

    fn eviction(holder: u32, line: LineNo) -> Event {
        Event::EvictBank(holder, line)
    }
}

// The place that a word draws among so many entries. The division is one of 32 bits, which is cheap.
#[inline(always)]
fn drawn_index(b: u32, total: u128) -> u32
    requires { 0 < total }
    ensures { result ≡ b % total }
{
    if u128::from(b) < total {
        return b;
    }
    b % total as u32
}

// An advance of a core.
fn advance_drawn_core<P: Program, W: Watcher, K: History>(
    system: &mut System<K>,
    programs: &mut [P],
    log: &mut Log<W>,
    b: u32,
) -> Result<(), End>
    ensures { Did P.acts W.watches (chosen P.acts (choice_at (advances system.old) b))
        (at system.old programs.old log.old) result (at system.new programs.new log.new) }
{
    let cores = system.cores();
    if cores == 0 {
        return Ok(());
    }
    make_event(system, programs, log, &Event::Advance(b % cores))
}

// How many lines all holders have together.
fn line_count<H: Holder, K: History>(system: &System<K>) -> u128
    ensures { result ≡ length (line_events H.eviction (H.lines system.now)
        (H.holders system.now)) }
{
    let mut total = 0;
    for holder in 0..H::holders(system) {
        total += H::count(system, holder) as u128;
    }
    total
}

// A line that is drawn, with its holder. Each holder is asked how many it has, and those up to the line's once more:
// that costs less than a list of the counts, which would first be set to zeros. From the first time on the machine
// keeps lines in rising order, so that a line is found without a list of them.
fn drawn_line<H: Holder, K: History>(
    system: &mut System<K>,
    b: u32,
) -> Result<Option<(u32, LineNo)>, AllocError>
    ensures machine { system.new ≡ system.old }
    ensures found { IsLine H.eviction (choice_at
        (line_events H.eviction (H.lines system.old) (H.holders system.old)) b) result }
{
    let total = line_count::<H, K>(system);
    if total == 0 {
        return Ok(None);
    }
    if let Err(error) = system.keep_order() {
        return Err(error);
    }
    let mut at = drawn_index(b, total) as usize;
    for holder in 0..H::holders(system) {
        let count = H::count(system, holder);
        if at < count {
            return match H::line(system, holder, at) {
                Ok(line) => Ok(Some((holder, line))),
                Err(error) => Err(error),
            };
        }
        at -= count;
    }
    Ok(None)
}

// The eviction of a line.
fn evict_drawn_line<P: Program, W: Watcher, H: Holder, K: History>(
    system: &mut System<K>,
    programs: &mut [P],
    log: &mut Log<W>,
    b: u32,
) -> Result<(), End>
    ensures { Did P.acts W.watches (chosen P.acts (choice_at
        (line_events H.eviction (H.lines system.old) (H.holders system.old)) b))
        (at system.old programs.old log.old) result (at system.new programs.new log.new) }
{
    let Ok(drawn) = drawn_line::<H, K>(system, b) else {
        return Err(End::NoMemory);
    };
    let Some((holder, line)) = drawn else {
        return Ok(());
    };
    make_event(system, programs, log, &H::eviction(holder, line))
}

// The cores that do something next: core c is one exactly if bit c is set.
#[inline(always)]
fn ready_cores<P: Program, W: Watcher, K: History>(
    system: &System<K>,
    _programs: &[P],
    log: &Log<W>,
) -> u64
    requires { IsAsked P.acts _programs.now log.now.unfinished }
    ensures each { (core : ℕ) → core < system.now.config.cores → bit_at result core ≡ length
        (core_step core (open_op system.now core) (next_in P.acts _programs.now core)) }
    ensures count { count_ones result ≡ length (core_steps P.acts system.now _programs.now
        system.now.config.cores) }
{
    let _cores = system.cores();
    system.trying_cores() | system.idle_cores() & log.unfinished_cores()
}

// The core that does something after so many others that do: the lowest one, once these are left out.
#[inline(always)]
fn ready_core_at<P: Program, K: History>(
    _system: &System<K>,
    _programs: &[P],
    ready: u64,
    place: u32,
) -> u32
    requires inside { place < length (core_steps P.acts _system.now _programs.now
        _system.now.config.cores) }
    requires each { (core : ℕ) → core < _system.now.config.cores → bit_at ready core ≡ length
        (core_step core (open_op _system.now core) (next_in P.acts _programs.now core)) }
    ensures { (next : _) × (core_step result (open_op _system.now result)
        (next_in P.acts _programs.now result) ≡ next ∷ []) × (slice_get
        (core_steps P.acts _system.now _programs.now _system.now.config.cores) place ≡ Some next) }
{
    let mut left = ready;
    for _skipped in 0..place {
        left = with_bit(left, left.trailing_zeros(), false);
    }
    left.trailing_zeros()
}

// A core does what it does next, which is something.
#[inline(always)]
fn step_core<P: Program, W: Watcher, K: History>(
    system: &mut System<K>,
    programs: &mut [P],
    log: &mut Log<W>,
    core: u32,
) -> Result<(), End>
    requires { 0 < length (core_step core (open_op system.old core)
        (next_in P.acts programs.old core)) }
    ensures { (next : _) → core_step core (open_op system.old core)
        (next_in P.acts programs.old core) ≡ next ∷ [] → Did P.acts W.watches (chosen P.acts next)
        (at system.old programs.old log.old) result (at system.new programs.new log.new) }
{
    if system.open_op(core).is_some() {
        attempt_or_make_place(system, programs, log, core)?;
        return Ok(());
    }
    match next_step_of_core(programs, core) {
        Some(next) => do_program_step(system, programs, log, core, &next),
        None => unreachable!(),
    }
}

// A step of a core, or the delivery of a message.
fn step_core_or_deliver<P: Program, W: Watcher, K: History>(
    system: &mut System<K>,
    programs: &mut [P],
    log: &mut Log<W>,
    b: u32,
) -> Result<(), End>
    requires { IsAsked P.acts programs.old log.old.unfinished }
    ensures { Did P.acts W.watches (chosen P.acts (choice_at (steps P.acts system.old programs.old) b))
        (at system.old programs.old log.old) result (at system.new programs.new log.new) }
{
    let ready = ready_cores(system, programs, log);
    let count = ready.count_ones();
    let total = u128::from(count) + u128::from(system.messages());
    if total == 0 {
        return Ok(());
    }
    let at = drawn_index(b, total);
    if at < count {
        let core = ready_core_at(system, programs, ready, at);
        return step_core(system, programs, log, core);
    }
    match system.seek_message(at - count) {
        Some(number) => deliver_or_make_room::<P, W, K>(system, log, false, number),
        None => unreachable!(),
    }
}

// What two words draw: the first the list, and the second its entry.
#[inline(always)]
fn make_drawn_event<P: Program, W: Watcher, K: History>(
    system: &mut System<K>,
    programs: &mut [P],
    log: &mut Log<W>,
    a: u32,
    b: u32,
) -> Result<(), End>
    requires { IsAsked P.acts programs.old log.old.unfinished }
    ensures { Did P.acts W.watches (drawn P.acts a b) (at system.old programs.old log.old) result
        (at system.new programs.new log.new) }
{
    match a % 16 {
        0 => advance_drawn_core(system, programs, log, b),
        1 => evict_drawn_line::<P, W, Copies, K>(system, programs, log, b),
        2 => evict_drawn_line::<P, W, Entries, K>(system, programs, log, b),
        _ => step_core_or_deliver(system, programs, log, b),
    }
}

impl<P: Program> Schedule<P> for Seeds {
    ghost use Rattle.schedules.specs.SeedSchedule.{seeded};

    ghost rule = { seeded P.acts };

    fn turn<W: Watcher, K: History>(
        &mut self,
        system: &mut System<K>,
        programs: &mut [P],
        log: &mut Log<W>,
    ) -> Result<(), End> {
        let a = self.generator.next_word();
        let b = self.generator.next_word();
        make_drawn_event(system, programs, log, a, b)
    }

    fn stalls(&self) -> bool {
        false
    }
}
