//! Which answers are progress, which events rounds make, that seeds differ, that a run has no choice, and how one goes
//! on while its lists of steps are filled. A function does nothing: its contract is the law.
ghost use Rattle.std.specs.Prelude.{◌≡◌, ◌≢◌, ◌↔◌, ◌+◌, ◌<◌, ◌≤◌, ◌^◌, Bool, false, true, ℕ, None};
ghost use Rattle.std.specs.Prelude.{List, [], ◌∷◌, ◌++◌, length, replicate};
ghost use Rattle.physiological_order.specs.declared.operation.Record.{Record};
ghost use Rattle.std.specs.Ordering.{nat_cmp};
ghost use Rattle.std.specs.FinMap.{FinMap};
ghost use Rattle.machine_table.specs.declared.config.Config.{Config};
ghost use Rattle.machine_table.specs.Machine.{Machine, open_op};
ghost use Rattle.machine_table.specs.Opening.{at_start};
ghost use Rattle.machine_table.specs.Runs.{after_all};
ghost use Rattle.machine_table.specs.SetUp.{is_good};
ghost use Rattle.machine_table.specs.declared.event.Event.{Event};
ghost use Rattle.machine_table.specs.declared.event.Answer.TheVariants as answer;
ghost use Rattle.machine_table.specs.declared.event.Refusal.{Refusal};
ghost use Rattle.machine_table.specs.Transition.{transition};
ghost use Rattle.machine_theorem.specs.Replies.{AdvancesBetween};
ghost use Rattle.machine_theorem.specs.Rounds.{IsInRound};
ghost use Rattle.machine_theorem.specs.Service.{AreServed};
ghost use Rattle.programs.specs.declared.ends.End.{End};
ghost use Rattle.programs.specs.declared.steps.Step.{Step};
ghost use Rattle.schedules.specs.declared.policy.Policy.{Policy};
ghost use Rattle.schedules.specs.declared.policy.Policy.TheVariants as policy;
ghost use Rattle.schedules.specs.Batches.{policy_of_run};
ghost use Rattle.schedules.specs.Policies.{EndedBy, EndsBy};
ghost use Rattle.schedules.specs.LongerLists.{GoesOnBy, IsAhead, end_before, joined, step_acts};
ghost use Rattle.schedules.specs.Paces.{GoesOnFrom, GoesOnIn, Paced, gone, paced};
ghost use Rattle.schedules.specs.Parts.{Does, Standing, after_actions, is_progress};
ghost use Rattle.schedules.specs.Runs.{Ended, initial_position, opened, plan_of};
ghost use Rattle.schedules.specs.Stalls.{IsAmong, StallsSince, StallsFromOpening};
ghost use Rattle.schedules.specs.RoundSchedule.{Round, no_round, round_of, rounds, AreRounds, ArePartOfRounds};

use machine_theorem::laws::every_history_is_legal;
use programs::End;
use programs::program::Program;

/// A round makes progress exactly if one of its answers is none of Waiting, Held and the refusals.
pub fn progress_is_all_but_waiting()
    ensures issued { is_progress answer.Issued ≡ true }
    ensures completed { (done : Record) → is_progress (answer.Completed done) ≡ true }
    ensures requested { is_progress answer.Requested ≡ true }
    ensures idle { is_progress answer.Idle ≡ true }
    ensures delivered { is_progress answer.Delivered ≡ true }
    ensures dropped { is_progress answer.Dropped ≡ true }
    ensures started { is_progress answer.Started ≡ true }
    ensures evicted { is_progress answer.Evicted ≡ true }
    ensures recalled { is_progress answer.Recalled ≡ true }
    ensures advanced { is_progress answer.Advanced ≡ true }
    ensures waiting { is_progress answer.Waiting ≡ false }
    ensures held { is_progress answer.Held ≡ false }
    ensures refused { (why : Refusal) → is_progress (answer.Refused why) ≡ false }
{}

/// A run by rounds makes the events of whole rounds, one after the other, unless memory is refused; exhausted times cut
/// the last one short. If memory is refused, it makes those of whole rounds and the first ones of one more. A round's
/// events are the cores' turns in rising order. In each there is an Issue or Advance exactly if the core has no open
/// operation and its program a next step, and then an Attempt exactly if it has one. After NoRoom, and only there,
/// EvictCache of the copy that makes a place follows, if there is one, and a second Attempt. Then there is one Deliver
/// of each message in flight after the cores, in their order. After Held, and only there, EvictBank of the line that
/// makes room follows, if there is one. In fair rounds, and only there, if that is answered Evicted, one more Deliver
/// of the message follows. A core advances only between operations.
pub fn rounds_make_their_events<P: Program>()
    ensures whole { (fair keeps : Bool) (start m : Machine) (opening programs : List P) (limit : ℕ)
        (events : List Event) (end : End) →
        Ended keeps (plan_of P.acts (rounds P.acts) limit)
        (initial_position P.acts start opening (no_round fair start.config.cores)) events m programs
        end → end ≢ End.NoMemory → (last : Standing P) × (last.machine ≡ m)
        × (last.programs ≡ programs) × AreRounds P.acts (no_round fair start.config.cores)
        (opened start opening) events last }
    ensures part { (fair keeps : Bool) (start m : Machine) (opening programs : List P) (limit : ℕ)
        (events : List Event) (end : End) →
        Ended keeps (plan_of P.acts (rounds P.acts) limit)
        (initial_position P.acts start opening (no_round fair start.config.cores)) events m programs
        end → ArePartOfRounds P.acts (no_round fair start.config.cores)
        (opened start opening) events }
    ensures between { (fair keeps : Bool) (start m : Machine) (opening programs : List P) (limit : ℕ)
        (events : List Event) (end : End) →
        Ended keeps (plan_of P.acts (rounds P.acts) limit)
        (initial_position P.acts start opening (no_round fair start.config.cores)) events m programs
        end → AdvancesBetween start events }
{}

/// A round without progress tried all that `rounds_move_on` says that a round makes. Where it begins, take each event
/// of a round of that law: an attempt, a delivery, or an eviction that makes room. The round makes that event, and its
/// answer there is Waiting, Held or a refusal. The round leaves the machine and the programs as they were.
pub fn rounds_without_progress_tried_all<P: Program>()
    ensures { (round : Round) (s : Standing P) → length s.machine.cores ≡ round.cores →
        let made = round_of P.acts round s in
        let after = after_actions P.acts s made in
        after.has_progressed ≡ false → after.is_out ≡ false →
        (after ≡ s) × ((event : Event) → IsInRound s.machine event →
        IsAmong (Does event) made × (is_progress (transition s.machine event).0 ≡ false)) }
{}

/// A run by rounds, fair or not, stalls only where it can't send or issue. Its machine is one that any list of events
/// made of one that opened with a good set-up, and it hasn't stopped. If the run ends as stalled, as many messages are
/// in flight as may be, or their numbers are used up. Or no operation is open, and a program has one more than its core
/// may be issued. So while one more message has room and a number, a run by rounds stalls only with no operation open.
pub fn rounds_stall_on_a_full_network<P: Program>()
    ensures { (config : Config) (memory : FinMap nat_cmp ℕ) (earlier : List Event) → is_good config ≡ true →
        let start = after_all (at_start config memory) earlier in
        start.is_stopped ≡ false → (fair keeps : Bool) (m : Machine) (opening programs : List P)
        (limit : ℕ) (events : List Event) → Ended keeps (plan_of P.acts (rounds P.acts) limit)
        (initial_position P.acts start opening (no_round fair start.config.cores)) events m programs
        End.Stalled → StallsSince P.acts m programs }
{}

/// A run by rounds, fair or not, from a machine as it opens with a good set-up stalls only where no more messages may
/// be in flight than there are cores. If it ends as stalled, the set-up's `messages` is at most its `cores`, or the
/// numbers of messages are used up. Or no operation is open, and a program has one more than its core may be issued.
pub fn rounds_stall_on_few_messages<P: Program>()
    ensures { (config : Config) (memory : FinMap nat_cmp ℕ) → is_good config ≡ true →
        (fair keeps : Bool) (m : Machine) (opening programs : List P) (limit : ℕ) (events : List Event) →
        Ended keeps (plan_of P.acts (rounds P.acts) limit)
        (initial_position P.acts (at_start config memory) opening (no_round fair config.cores)) events m programs
        End.Stalled → StallsFromOpening P.acts config m programs }
{}

/// At any end, a run by a policy served its cores. The machine opened with a good set-up, and any events were made of
/// it before the run. Each core without an open operation then was issued what its program gave, in order. The program
/// received what each completed operation did, in order, and an operation that is still open is its next.
pub fn runs_serve_programs<P: Program>()
    ensures { (config : Config) (memory : FinMap nat_cmp ℕ) (earlier : List Event) → is_good config ≡ true →
        let start = after_all (at_start config memory) earlier in
        (keeps : Bool) (policy : Policy) (limit : ℕ) (m : Machine) (opening programs : List P)
        (events : List Event) (end : End) →
        EndsBy keeps P.acts policy limit start opening events m programs end →
        AreServed P.acts start m opening programs }
{
    every_history_is_legal();
}

/// Up to 2^64 runs of a batch by seeds have seeds that differ: run i has the first seed plus i, modulo 2^64.
pub fn seeds_of_runs_differ()
    ensures plain { (seed i : ℕ) → seed + i < 2 ^ 64 →
        policy_of_run (policy.Seed seed) i ≡ policy.Seed (seed + i) }
    ensures differ { (seed i j : ℕ) → i < 2 ^ 64 → j < 2 ^ 64 →
        policy_of_run (policy.Seed seed) i ≡ policy_of_run (policy.Seed seed) j → i ≡ j }
{}

/// If two runs of one policy and limit, from one machine and the same programs, don't end with a failed allocation,
/// their events are the same, and so are the machine, the programs and the end. So one seed gives one list.
pub fn one_seed_gives_one_list<P: Program>()
    ensures { (policy : Policy) (limit : ℕ) (start : Machine) (opening : List P)
        (events more : List Event) (m n : Machine) (programs others : List P) (end last : End) →
        EndedBy P.acts policy limit start opening events m programs end →
        EndedBy P.acts policy limit start opening more n others last →
        end ≢ End.NoMemory → last ≢ End.NoMemory →
        (events ≡ more) × (m ≡ n) × (programs ≡ others) × (end ≡ last) }
{}

/// The same is so of a run whose events are kept or shown to a watcher, and of another that does neither, or either.
pub fn watching_changes_no_event<P: Program>()
    ensures { (keeps also : Bool) (policy : Policy) (limit : ℕ) (start : Machine) (opening : List P)
        (events more : List Event) (m n : Machine) (programs others : List P) (end last : End) →
        EndsBy keeps P.acts policy limit start opening events m programs end →
        EndsBy also P.acts policy limit start opening more n others last →
        end ≢ End.NoMemory → last ≢ End.NoMemory →
        (events ≡ more) × (m ≡ n) × (programs ≡ others) × (end ≡ last) }
{}

/// Steps that stand behind the lists of a run change nothing before the run reaches them, by any policy. A turn takes
/// at most one step of a core. So if each list with something behind it has a step for each turn that may be made, the
/// longer lists make the same events. These lead to the same machine, and leave of the lists what they left, with the
/// same behind it. The end is the same, but that all isn't done yet where something stands behind (`end_before`).
pub fn steps_behind_change_no_event()
    ensures { (keeps : Bool) (policy : Policy) (made limit : ℕ) (m after : Machine)
        (lists behind left : List (List Step)) (events : List Event) (end : End) →
        length lists ≡ m.config.cores → length behind ≡ m.config.cores → IsAhead limit lists behind →
        GoesOnBy keeps step_acts policy made limit m lists events after left end →
        GoesOnBy keeps step_acts policy made limit m (joined lists behind) events after (joined left behind)
        (end_before behind end) }
{}

/// A run that used its turns and a run that goes on from there are one run of all these turns (`joins`). It makes the
/// events of the first one and then those of the second, and ends as that does. Unless memory is refused, a run of all
/// these turns is such a pair (`parts`). A run that ended otherwise is one of any more turns as well (`further`). A run
/// that goes on after no turn is one by the policy (`begins`).
pub fn runs_go_on<P: Program>()
    ensures begins { (keeps : Bool) (policy : Policy) (limit : ℕ) (m after : Machine) (programs left : List P)
        (events : List Event) (end : End) → GoesOnBy keeps P.acts policy 0 limit m programs events after left end ↔
        EndsBy keeps P.acts policy limit m programs events after left end }
    ensures joins { (keeps : Bool) (policy : Policy) (made turns limit : ℕ) (m between after : Machine)
        (programs met left : List P) (events more : List Event) (end : End) →
        GoesOnBy keeps P.acts policy made turns m programs events between met End.TurnsUsed →
        GoesOnBy keeps P.acts policy (made + turns) limit between met more after left end →
        GoesOnBy keeps P.acts policy made (turns + limit) m programs (events ++ more) after left end }
    ensures parts { (keeps : Bool) (policy : Policy) (made turns limit : ℕ) (m between after : Machine)
        (programs met left : List P) (events all : List Event) (end : End) →
        GoesOnBy keeps P.acts policy made turns m programs events between met End.TurnsUsed →
        GoesOnBy keeps P.acts policy made (turns + limit) m programs all after left end → end ≢ End.NoMemory →
        (more : List Event) × (all ≡ events ++ more)
        × GoesOnBy keeps P.acts policy (made + turns) limit between met more after left end }
    ensures further { (keeps : Bool) (policy : Policy) (made limit more : ℕ) (m after : Machine)
        (programs left : List P) (events : List Event) (end : End) →
        GoesOnBy keeps P.acts policy made limit m programs events after left end →
        end ≢ End.TurnsUsed → limit ≤ more →
        GoesOnBy keeps P.acts policy made more m programs events after left end }
{}

/// Where a run in pieces starts. A machine opens without an open operation (`idle`). Where that is so, all is done of
/// empty lists before a first turn; if steps stand behind them, no more is known than that no turn is left (`begins`).
/// With what stands behind them, empty lists are just that (`whole`).
pub fn nothing_is_done_at_first()
    ensures idle { (config : Config) (memory : FinMap nat_cmp ℕ) (core : ℕ) →
        open_op (at_start config memory) core ≡ None }
    ensures begins { (keeps : Bool) (policy : Policy) (m : Machine) (behind : List (List Step)) →
        ((core : ℕ) → open_op m core ≡ None) → length behind ≡ m.config.cores →
        let lists = joined (replicate m.config.cores []) behind in
        EndsBy keeps step_acts policy 0 m lists [] m lists (end_before behind End.AllDone) }
    ensures whole { (behind : List (List Step)) →
        joined (replicate (length behind) []) behind ≡ behind }
{}

/// A piece of a run (`run_on`) goes on from a pace, and the pace by the turns that the piece began. These are at most
/// its limit, and just that if it used its turns. It is a run of these turns as well as one of its limit (`turns`).
/// After `made` turns and then these a pace is what it is after their sum (`sum`). Take lists that are ahead of a
/// piece, with more behind them. Unless the run ends with that piece, it began as many turns as it might (`used`).
pub fn pieces_go_by_turns<P: Program>()
    ensures turns { (keeps : Bool) (pace : Paced) (turns limit : ℕ) (m after : Machine)
        (programs left : List P) (events : List Event) (end : End) →
        GoesOnIn keeps P.acts pace turns limit m programs events after left end → (turns ≤ limit)
        × (end ≡ End.TurnsUsed → turns ≡ limit)
        × GoesOnFrom keeps P.acts pace turns m programs events after left end
        × GoesOnFrom keeps P.acts pace limit m programs events after left end }
    ensures sum { (policy : Policy) (made turns : ℕ) →
        gone turns (paced policy made) ≡ paced policy (made + turns) }
    ensures used { (keeps : Bool) (pace : Paced) (turns limit : ℕ) (m after : Machine)
        (lists behind left : List (List Step)) (events : List Event) (end : End) →
        length lists ≡ m.config.cores → length behind ≡ m.config.cores → IsAhead limit lists behind →
        GoesOnIn keeps step_acts pace turns limit m lists events after left end →
        end_before behind end ≡ End.TurnsUsed → turns ≡ limit }
{}

/// So the lists of a run may be filled between turns. What is left to do is in the lists and behind them. It stays the
/// same if steps move from behind the lists into them (`filled`). Take a run of the whole lists that used its turns. If
/// it goes on with the lists alone, for no more turns than they are ahead, both are one run of the whole (`goes_on`).
pub fn lists_are_filled_between_turns()
    ensures filled { (lists moved behind : List (List Step)) →
        joined (joined lists moved) behind ≡ joined lists (joined moved behind) }
    ensures goes_on { (keeps : Bool) (policy : Policy) (turns limit : ℕ) (m between after : Machine)
        (whole lists behind left : List (List Step)) (events more : List Event) (end : End) →
        length lists ≡ between.config.cores → length behind ≡ between.config.cores → IsAhead limit lists behind →
        EndsBy keeps step_acts policy turns m whole events between (joined lists behind) End.TurnsUsed →
        GoesOnBy keeps step_acts policy turns limit between lists more after left end →
        EndsBy keeps step_acts policy (turns + limit) m whole (events ++ more) after (joined left behind)
        (end_before behind end) }
{}

/// What stands behind lists, by example; and lists that are one step too short change a run. Take one round on one core
/// without an open operation. With an empty list it makes no event, and all is done (`short`). With a step behind that
/// list it makes at least one event, unless memory is refused (`longer`).
pub fn short_lists_change_runs()
    ensures joins { (a b c : Step) →
        joined ((a ∷ []) ∷ (b ∷ []) ∷ []) ((c ∷ []) ∷ [] ∷ []) ≡ (a ∷ c ∷ []) ∷ (b ∷ []) ∷ [] }
    ensures ahead { (a b : Step) → IsAhead 1 ((a ∷ []) ∷ [] ∷ []) ((b ∷ []) ∷ [] ∷ []) }
    ensures too_short { (a b : Step) → IsAhead 2 ((a ∷ []) ∷ [] ∷ []) ((b ∷ []) ∷ [] ∷ []) → ⊥ }
    ensures not_done { (a : Step) → end_before ([] ∷ (a ∷ []) ∷ []) End.AllDone ≡ End.TurnsUsed }
    ensures done { end_before ([] ∷ [] ∷ []) End.AllDone ≡ End.AllDone }
    ensures stalled { (behind : List (List Step)) → end_before behind End.Stalled ≡ End.Stalled }
    ensures short { (keeps : Bool) (m : Machine) → m.config.cores ≡ 1 → open_op m 0 ≡ None →
        EndsBy keeps step_acts policy.Rounds 1 m ([] ∷ []) [] m ([] ∷ []) End.AllDone }
    ensures longer { (keeps : Bool) (m after : Machine) (a : Step) (left : List (List Step))
        (events : List Event) (end : End) → m.config.cores ≡ 1 → open_op m 0 ≡ None →
        EndsBy keeps step_acts policy.Rounds 1 m (joined ([] ∷ []) ((a ∷ []) ∷ [])) events after left end →
        end ≢ End.NoMemory → 0 < length events }
{}
