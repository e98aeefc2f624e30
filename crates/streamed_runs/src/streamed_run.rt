//! A run of a trace that is read as the run goes.
ghost use Rattle.std.specs.Prelude.{◌≡◌, ◌≢◌, ◌⊎◌, ◌++◌, ◌≤◌, ◌<◌, [], ℕ, List, length, nat_lt, true, Option, Some, Ok};
ghost use Rattle.std.specs.Prelude.{IfErr, IfOk, IfSome, OnOk, false};
ghost use Rattle.byte_streams.specs.Device.{AtEnd};
ghost use Rattle.std.specs.FinMap.{empty};
ghost use Rattle.machine_table.specs.Opening.{at_start};
ghost use Rattle.machine_table.specs.SetUp.{is_good};
ghost use Rattle.programs.specs.declared.steps.Step.{Step};
ghost use Rattle.trace_reader.specs.Filling.{HasTaken, Stops, unnumbered};
ghost use Rattle.trace_reader.specs.Steps.{cores_of, lane};
ghost use Rattle.trace_reader.specs.Streams.{coming, steps_told, where_known, OnlyFault, Yields};
ghost use Rattle.streamed_runs.specs.StreamStates.{HasEnded, IsAllRead, IsGoing, IsOver, IsSameRun};
ghost use Rattle.streamed_runs.specs.StreamStates.{issued_below, opens_below, values_in};

use crate::piece::{
    end_of_streamed_run, is_stream_done, make_piece, turns_for_piece, turns_left_after_piece,
};
use crate::summary::Summary;
use interleaving_core::{Config, System, ToldHistory};
use machine_table::Counts;
use physiological_order::{Memory, Op, Record, WordAddr};
use programs::End;
use schedules::laws::{
    lists_are_filled_between_turns, nothing_is_done_at_first, pieces_go_by_turns, runs_go_on,
};
use schedules::{Pace, Policy};
use std::alloc::{AllocError, Global};
use std::marker::Model;
use std::mem;
use trace_reader::{AheadError, ReadAhead, Source, StepQueue};
use trace_texts::Kinds;

// A piece has about so many turns, which is enough for what it costs to begin one: nothing is read before it if each
// core has so many steps.
const TURNS: usize = 256;

// How many steps are read before a piece, at least, if the text has so many: 64 for each of 64 cores.
const STEPS: usize = 4_096;

/// A run of a trace that is read as the run goes, piece by piece. It keeps the machine, the steps that were read ahead
/// and the records of the last piece. Of all records it keeps no more than their numbers, and the greatest time of a
/// write to each word.
#[derive(Drop)]
pub struct StreamedRun {
    alloc: Global,
    system: System<ToldHistory>,
    ahead: ReadAhead,
    pace: Pace,
    limit: u32,
    left: u32,
    end: End,
    at_end: bool,
    done: Vec<Record>,
    summary: Summary,
}

impl Model for StreamedRun {
    ghost use Rattle.std.specs.Prelude.{◌≡◌, ◌<◌, true, length};
    ghost use Rattle.std.specs.List.{AllByRecursion};
    ghost use Rattle.std.specs.Coded.{codes, coded_ℕ, coded_list};
    ghost use Rattle.std.specs.FinMap as map;
    ghost use Rattle.std.specs.Ordering.{nat_cmp};
    ghost use Rattle.machine_table.specs.SetUp.{is_good};
    ghost use Rattle.streamed_runs.specs.StreamStates.{StreamState};

    ghost Value = { StreamState };

    ghost coded = { Prim.hlevel (
      codes,
      map.code {R = nat_cmp} coded_ℕ coded_ℕ,
      map.code {R = nat_cmp} coded_ℕ
          (coded_list coded_ℕ),
    ) };

    ghost view = { λ a. record {
      machine = a.system;
      ahead = a.ahead;
      pace = a.pace;
      limit = a.limit;
      left = a.left;
      end = a.end;
      at_end = a.at_end;
      done = a.done.items;
      kinds = a.summary.kinds;
      stale = a.summary.stale;
      latest = a.summary.latest;
    } };

    // The machine is well set up, each core has a queue, and the records are of cores that there are.
    ghost invariant = { λ a. (is_good a.system.config ≡ true) × (length a.ahead.queues ≡ a.system.config.cores)
        × AllByRecursion (λ r. r.core < a.system.config.cores) a.system.records };
}

// How many cores have an open operation.
fn count_open_operations(system: &System<ToldHistory>) -> u32
    ensures { result ≡ opens_below system.now system.now.config.cores }
{
    let mut count = 0;
    for core in 0..system.cores() {
        if system.open_op(core).is_some() {
            count += 1;
        }
    }
    count
}

// Reads ahead of a piece, unless the text is at its end: whether the text has more. If so, each core has a step.
fn read_ahead_of_piece<S: Source>(
    ahead: &mut ReadAhead,
    source: &mut S,
    at_end: bool,
) -> Result<bool, AheadError>
    ensures filled { (taken : List (ℕ × (ℕ × Step)))
        × Yields (coming ahead.old.stream (S.remaining source.old))
        (coming ahead.new.stream (S.remaining source.new)) taken
        × HasTaken true ahead.old ahead.new taken × (at_end ≡ true → taken ≡ []) }
    ensures all { result ≡ Ok true → (core : ℕ) → core < length ahead.new.queues →
        lane ahead.new.queues core ≢ [] }
    ensures over { IfOk result (λ has_more. at_end ≡ true → has_more ≡ false) }
    ensures end { result ≡ Ok false →
        (at_end ≡ true → IsAllRead (S.remaining source.old) (S.remaining source.old) ahead.old.stream) →
        IsAllRead (S.remaining source.old) (S.remaining source.new) ahead.new.stream }
    ensures none_failed { OnOk result (S.failures source.new ≡ S.failures source.old) }
    ensures stops { IfErr result (Stops (length ahead.old.queues) (S.failures source.old)
        (S.failures source.new) (where_known (S.remaining source.old)
        (coming ahead.new.stream (S.remaining source.new)))) }
{
    if at_end {
        return Ok(false);
    }
    let most = if ahead.shortest() < TURNS { STEPS } else { 0 };
    ahead.fill(source, most)
}

// A machine with this set-up over zeros. For a run by a seed it keeps its lines in rising order from the start, since
// each piece of such a run would put them in order anew (`run_on`).
fn open_stream_machine(
    alloc: Global,
    config: Config,
    policy: Policy,
) -> Result<System<ToldHistory>, AllocError>
    requires { is_good config ≡ true }
    ensures { IfOk result (λ system. system ≡ at_start config empty) }
{
    let Ok(mut system) = System::without_history(alloc, config, Memory::new(alloc)) else {
        return Err(AllocError);
    };
    if let Policy::Seed(_) = policy {
        system.keep_order()?;
    }
    Ok(system)
}

impl StreamedRun {
    /// A run that has made no turn, of a machine with this set-up over zeros. It may make `limit` turns by the policy.
    /// Whether the words that steps name are to be known is `names`.
    pub fn new(
        alloc: Global,
        config: Config,
        policy: Policy,
        limit: u32,
        names: bool,
    ) -> Result<StreamedRun, AllocError>
        requires good { is_good config ≡ true }
        ensures going { IfOk result (IsGoing []) }
        ensures given { IfOk result (λ run. (run.machine.config ≡ config) × (run.pace.policy ≡ policy)
            × (run.limit ≡ limit) × (run.ahead.names ≡ names)) }
        ensures none { IfOk result (λ run. (run.machine.records ≡ []) × (run.done ≡ [])
            × (run.at_end ≡ false)) }
        ensures told { IfOk result (λ run. (bytes : List ℕ) →
            coming run.ahead.stream (Some bytes) ≡ Some (steps_told bytes)) }
    {
        nothing_is_done_at_first();
        let system = open_stream_machine(alloc, config, policy)?;
        let ahead = ReadAhead::new(alloc, config.cores, names)?;
        Ok(StreamedRun {
            alloc,
            system,
            ahead,
            pace: Pace::new(policy),
            limit,
            left: limit,
            end: End::AllDone,
            at_end: false,
            done: Vec::new(alloc),
            summary: Summary::new(alloc),
        })
    }

    /// Reads ahead, and makes as many turns as there are steps for, at most those that are left. The result is whether
    /// the run goes on; if not, nothing but the rest of the text is left (`read_rest_of_text`), and another call does
    /// nothing. The source is to be the one of all earlier calls.
    ///
    /// A fault of the text is an error as soon as it is read, and so is a step of a core that the machine hasn't. The
    /// run can't go on after an error.
    pub fn run_next_piece<S: Source>(&mut self, source: &mut S) -> Result<bool, AheadError>
        ensures went { OnOk result ((taken : List (ℕ × (ℕ × Step))) → IsGoing taken self.old →
            (more : List (ℕ × (ℕ × Step)))
            × Yields (coming self.old.ahead.stream (S.remaining source.old))
            (coming self.new.ahead.stream (S.remaining source.new)) more
            × IsGoing (taken ++ more) self.new) }
        ensures added { OnOk result (self.new.machine.records ≡
            self.old.machine.records ++ self.new.done) }
        ensures same { IsSameRun self.old self.new }
        ensures goes_on { IfOk result (λ goes_on. goes_on ≡ nat_lt 0 self.new.left) }
        ensures end { OnOk result (self.new.at_end ≡ true → (self.old.at_end ≡ true →
            IsAllRead (S.remaining source.old) (S.remaining source.old) self.old.ahead.stream) →
            IsAllRead (S.remaining source.old) (S.remaining source.new) self.new.ahead.stream) }
        ensures further { result ≡ Ok true → self.new.left < self.old.left }
        ensures none_failed { OnOk result (S.failures source.new ≡ S.failures source.old) }
        ensures stops { IfErr result (λ e. (taken : List (ℕ × (ℕ × Step)))
            × Yields (coming self.old.ahead.stream (S.remaining source.old))
            (coming self.new.ahead.stream (S.remaining source.new)) taken
            × (cores_of (unnumbered taken) ≤ self.old.machine.config.cores)
            × (Stops self.old.machine.config.cores (S.failures source.old) (S.failures source.new)
            (where_known (S.remaining source.old)
            (coming self.new.ahead.stream (S.remaining source.new))) e
            ⊎ ((e ≡ AheadError.NoMemory) × (S.failures source.new ≡ S.failures source.old)))) }
    {
        lists_are_filled_between_turns();
        runs_go_on::<StepQueue>();
        pieces_go_by_turns::<StepQueue>();
        self.done.clear();
        if self.left == 0 {
            return Ok(false);
        }
        let has_more = read_ahead_of_piece(&mut self.ahead, source, self.at_end)?;
        self.at_end = !has_more;
        if is_stream_done(has_more, self.end, self.ahead.are_empty()) {
            self.left = 0;
            return Ok(false);
        }
        let turns = turns_for_piece(self.left, self.ahead.shortest(), has_more);
        let records = mem::replace(&mut self.done, Vec::new(self.alloc));
        let queues = self.ahead.queues();
        let (end, done) = make_piece(
            self.alloc,
            &mut self.system,
            queues,
            records,
            &mut self.pace,
            turns,
        );
        self.done = done;
        self.end = end;
        self.left = turns_left_after_piece(self.left, turns, end, !self.at_end);
        let Ok(()) = self.summary.count_records(&self.done) else {
            return Err(AheadError::NoMemory);
        };
        Ok(self.left > 0)
    }

    /// Reads the rest of the text, once the run is over. The source is to be the one of all earlier calls.
    pub fn read_rest_of_text<S: Source>(&mut self, source: &mut S) -> Result<(), AheadError>
        ensures ended { OnOk result ((taken : List (ℕ × (ℕ × Step))) → IsGoing taken self.old →
            IsOver self.old → (more : List (ℕ × (ℕ × Step)))
            × Yields (coming self.old.ahead.stream (S.remaining source.old))
            (coming self.new.ahead.stream (S.remaining source.new)) more
            × HasEnded (taken ++ more) self.new) }
        ensures end { OnOk result ((self.old.at_end ≡ true →
            IsAllRead (S.remaining source.old) (S.remaining source.old) self.old.ahead.stream) →
            IsAllRead (S.remaining source.old) (S.remaining source.new) self.new.ahead.stream) }
        ensures stays { (self.new.machine ≡ self.old.machine) × (self.new.done ≡ self.old.done) }
        ensures same { IsSameRun self.old self.new }
        ensures none_failed { OnOk result (S.failures source.new ≡ S.failures source.old) }
        ensures stops { IfErr result (λ e. (taken : List (ℕ × (ℕ × Step)))
            × Yields (coming self.old.ahead.stream (S.remaining source.old))
            (coming self.new.ahead.stream (S.remaining source.new)) taken
            × (cores_of (unnumbered taken) ≤ self.old.machine.config.cores)
            × Stops self.old.machine.config.cores (S.failures source.old) (S.failures source.new)
            (where_known (S.remaining source.old)
            (coming self.new.ahead.stream (S.remaining source.new))) e) }
    {
        if self.at_end {
            return Ok(());
        }
        let has_more = self.ahead.skip(source)?;
        self.at_end = true;
        self.end = end_of_streamed_run(self.end, has_more);
        Ok(())
    }

    /// The records of the operations that the last call of `run_next_piece` completed, in order.
    pub fn done(&self) -> &[Record]
        ensures { result.now ≡ self.now.done }
    {
        self.done.as_slice()
    }

    /// How the run ended, once it is over.
    pub fn end(&self) -> End
        ensures { result ≡ self.now.end }
    {
        self.end
    }

    /// The greatest core of a step that was read, plus 1; 0 before the first one.
    pub fn cores_met(&self) -> u32
        ensures { result ≡ self.now.ahead.met }
    {
        self.ahead.met()
    }

    /// How many operations completed, and of which kinds.
    pub fn kinds(&self) -> &Kinds
        ensures { result.now ≡ self.now.kinds }
    {
        &self.summary.kinds
    }

    /// How many of the records are of loads for which a write of the same word has a smaller number and a greater time.
    pub fn stale_hits(&self) -> u64
        ensures { result ≡ self.now.stale }
    {
        self.summary.stale as u64
    }

    /// How many renewals, upgrades, flushes and write-backs were sent.
    pub fn counts(&self) -> Counts
        ensures { result ≡ self.now.machine.mail.counts }
    {
        self.system.counts()
    }

    /// How many operations the cores were issued: those that completed, and those that are open.
    pub fn issued(&self) -> u128
        ensures { result ≡ issued_below self.now.machine self.now.machine.config.cores }
    {
        self.system.records_are_legal();
        self.system.completed() as u128 + u128::from(count_open_operations(&self.system))
    }

    /// The words that the steps name that were read, by rising address, with their values, where they are; none if
    /// words weren't asked for.
    pub fn values(&self) -> Result<Vec<(WordAddr, u64)>, AllocError>
        ensures { IfOk result (λ values.
            values.items ≡ values_in self.now.machine self.now.ahead.words) }
    {
        let words = self.ahead.words().words()?;
        let mut values = Vec::with_capacity(self.alloc, words.len())?;
        for word in &words {
            values.push((word.0, self.system.coherent(word.0)))?;
        }
        Ok(values)
    }
}
