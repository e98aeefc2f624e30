//! Laws for callers: of new seats, of turns and the end that they decide, and of a machine that was closed. The
//! functions do nothing: their contracts are the laws.
ghost use Rattle.std.specs.Prelude.{◌≡◌, ◌≢◌, ◌⊎◌, ◌↔◌, ◌+◌, ◌<◌, ◌≤◌, ℕ, Bool, true, false, List, []};
ghost use Rattle.std.specs.Prelude.{length, slice_index_or, Result, Ok, Err};
ghost use Rattle.machine_theorem.specs.Consistency.{IsConsistent};
ghost use Rattle.machine_table.specs.declared.event.Refusal.{Refusal};
ghost use Rattle.machine_table.specs.declared.event.Refusal.TheVariants.{NoMemory, NoRoom};
ghost use Rattle.inbox.specs.declared.answer.Served.TheVariants as served;
ghost use Rattle.mailboxes.specs.declared.machine.Machine.{Machine};
ghost use Rattle.mailboxes.specs.declared.core_seat.CoreSeat.{CoreSeat};
ghost use Rattle.mailboxes.specs.declared.bank_seat.BankSeat.{BankSeat};
ghost use Rattle.mailboxes.specs.declared.turning.Turn.{Turn};
ghost use Rattle.programs.specs.declared.ends.End.{End};
ghost use Rattle.programs.specs.declared.ends.End.TheVariants as end;
ghost use Rattle.closed_machine.specs.declared.run.Run.{Run};
ghost use Rattle.closed_machine.specs.RunParts.{Parts, state_of_run};
ghost use Rattle.mailboxes.specs.BankTurns.{BankTurns};
ghost use Rattle.mailboxes.specs.CoreTurns.{CoreTurns};
ghost use Rattle.mailboxes.specs.Seats.{AllNewBanks, AllNewCores};
ghost use Rattle.thread_driver.specs.declared.told.Told.{Told};
ghost use Rattle.thread_driver.specs.Calls.{RoomMade, VictimLeft, victim_of_seat};
ghost use Rattle.thread_driver.specs.Given.{IsBankTurn, IsCoreTurn, TurnsGiven};
ghost use Rattle.thread_driver.specs.Reports.{IsDecided, IsReport, Moved, SomeLacked, SomeStopped, Stopped, Went};
ghost use Rattle.thread_driver.specs.Reports.{moved_in};
ghost use Rattle.thread_driver.specs.Shifts.{AreBanksInOrder, AreCoresInOrder, AreOver, NoneOpen, Ran};
ghost use Rattle.thread_driver.specs.Teams.{InARow, SeatsPassed, is_followed, rested, row_end};
ghost use Rattle.thread_driver.specs.ThreadRuns.{machine_of};
ghost use Rattle.thread_driver.specs.Turns.{AfterRefusal, BankHad, BankHadFairTurn, BankHadTurn, CoreHadTurn};

use machine_theorem::laws::machines_with_the_invariant_are_consistent;
use machine_theorem::move_laws::reached_states_have_the_invariant;
use programs::program::Program;

/// The seats of a machine that has just opened are in order, and no core has an open operation: so they can be driven.
pub fn new_seats_can_be_driven()
    ensures cores { (m : Machine) (ps : List CoreSeat) → length ps ≡ m.set_up.config.cores →
        AllNewCores m 0 ps → AreCoresInOrder m ps × NoneOpen ps }
    ensures banks { (m : Machine) (ps : List BankSeat) → length ps ≡ m.set_up.config.banks →
        AllNewBanks m m.set_up.config.cores ps → AreBanksInOrder m ps }
{}

/// A seat that is stopped stays stopped, in any turns.
pub fn stopped_seats_stay_stopped<P: Program>()
    ensures cores { (m : Machine) (p q : CoreSeat) (before after : P) (n : ℕ) (told : Told) →
        TurnsGiven (IsCoreTurn P.acts m) (p, before) n told (q, after) → p.is_stopped ≡ true →
        q.is_stopped ≡ true }
    ensures banks { (fair : Bool) (m : Machine) (p q : BankSeat) (n : ℕ) (told : Told) →
        TurnsGiven (IsBankTurn fair m) p n told q → p.is_stopped ≡ true → q.is_stopped ≡ true }
{}

/// A turn reports what its calls answered: no memory exactly if one of them was refused it, and a stop exactly if the
/// seat stopped in the turn. It reports progress exactly if a step of the program was done, or messages were put or
/// served. The program goes on exactly if its step was done, so an eviction alone is no progress.
pub fn turns_report_what_calls_answered<P: Program>()
    ensures cores { (m : Machine) (p q : CoreSeat) (before after : P) (told : Told)
        (turn : CoreHadTurn P.acts m p before told q after) → IsReport told
        ((turn.moved ≡ Err NoMemory) ⊎ (turn.done ≡ Err NoMemory))
        (Stopped p.is_stopped q.is_stopped) (Moved turn.moved ⊎ (turn.done ≡ Ok true)) }
    ensures steps { (m : Machine) (p q : CoreSeat) (before after : P) (told : Told)
        (turn : CoreHadTurn P.acts m p before told q after) → Went P.acts turn.done before after }
    ensures banks { (fair : Bool) (m : Machine) (p q : BankSeat) (told : Told)
        (turn : BankHad fair m p told q) → let moved = moved_in fair m p told q turn in
        IsReport told (moved ≡ Err NoMemory) (Stopped p.is_stopped q.is_stopped) (Moved moved) }
    ensures moved { (turn : Turn) → Moved (Ok turn) ↔ ((0 < turn.put)
        ⊎ ((turn.served ≢ served.Held) × (turn.served ≢ served.Nothing))) }
{}

/// Which evictions the calls of a turn make, and when. An attempt that is refused for another reason than NoRoom is
/// followed by no eviction, and the step comes to that refusal. One refused by NoRoom is followed by the eviction of
/// the victim of the open operation's line, if there is one, and else by nothing. Then the seat has its own turn. A
/// bank's turn first evicts the line that makes room, if there is one, and then the seat has its own turn. In a fair
/// turn that comes first. Only if it made no progress, the line that makes room then is evicted, if there is one.
pub fn turns_make_these_calls<P: Program>()
    ensures refused { (r : Refusal) (p q : CoreSeat) (done : Result Bool Refusal) → r ≢ NoRoom →
        AfterRefusal r p done q → (done ≡ Err r) × (q ≡ p) }
    ensures no_room { (p q : CoreSeat) (done : Result Bool Refusal) → AfterRefusal NoRoom p done q →
        (done ≡ Ok false) × VictimLeft (victim_of_seat p p.part.core.open_op) p q }
    ensures turned { (m : Machine) (p q : CoreSeat) (before after : P) (told : Told)
        (turn : CoreHadTurn P.acts m p before told q after) →
        CoreTurns m turn.between turn.moved q }
    ensures room { (m : Machine) (p q : BankSeat) (told : Told) (turn : BankHadTurn m p told q) →
        RoomMade p turn.between × BankTurns m turn.between turn.moved q }
    ensures fair { (m : Machine) (p q : BankSeat) (told : Told) (turn : BankHadFairTurn m p told q) →
        BankTurns m p turn.moved turn.between ×
        (Moved turn.moved → q ≡ turn.between) ×
        ((Moved turn.moved → ⊥) → RoomMade turn.between q) }
{}

/// After a core's turn that was refused memory, or in which its seat stopped, the worker's banks have no turn.
pub fn no_bank_has_a_turn_after_one_that_ends_all<P: Program>()
    ensures { (m : Machine) (fair : Bool) (cores cores' : List CoreSeat)
        (banks banks' : List BankSeat) (programs programs' : List P) (told : Told)
        (pass : SeatsPassed P.acts m fair cores banks programs told cores' banks' programs') →
        (pass.core_told.no_memory ≡ true) ⊎ (pass.core_told.is_exhausted ≡ true) →
        banks' ≡ banks }
{}

/// How long a seat goes on before the next one has its turns: it has another turn exactly after one that made progress
/// and ended nothing, at most sixteen in a row, and no more than the limit in all. It has at least one, unless it had
/// as many as there may be.
pub fn seats_have_turns_in_a_row<P: Program>()
    ensures followed { (told : Told) → (is_followed told ≡ true) ↔
        ((told.has_progressed ≡ true) × (told.no_memory ≡ false) × (told.is_exhausted ≡ false)) }
    ensures sixteen { (limit n : ℕ) → n + 16 ≤ limit → row_end limit n ≡ n + 16 }
    ensures limit { (limit n : ℕ) → limit ≤ n + 16 → row_end limit n ≡ limit }
    ensures cores { (m : Machine) (most n k : ℕ) (told : Told) (p q : CoreSeat) (before after : P) →
        InARow (IsCoreTurn P.acts m) most n (p, before) k told (q, after) →
        n < most → (n < k) × (k ≤ most) }
    ensures banks { (fair : Bool) (m : Machine) (most n k : ℕ) (told : Told) (p q : BankSeat) →
        InARow (IsBankTurn fair m) most n p k told q → n < most → (n < k) × (k ≤ most) }
{}

/// When a worker sleeps: after the 128th pass in a row in which no turn of its seats made progress, and after each
/// fourth that follows.
pub fn waiting_workers_sleep()
    ensures progress { (idle : ℕ) → rested idle true ≡ (0, false) }
    ensures waits { (idle : ℕ) → idle < 127 → rested idle false ≡ (idle + 1, false) }
    ensures due { rested 127 false ≡ (124, true) }
{}

/// Turns end AllDone exactly if no core has an open operation and no program a next step. Else they end NoMemory
/// exactly if a call of some turn was refused memory, else Exhausted exactly if some seat stopped in a turn, else
/// TurnsUsed.
pub fn turns_decide_the_end<P: Program>()
    ensures over { (m : Machine) (fair : Bool) (limit : ℕ) (cores cores' : List CoreSeat)
        (banks banks' : List BankSeat) (programs programs' : List P) (e : End)
        (ran : Ran P.acts m fair limit cores banks programs cores' banks' programs' e) →
        (e ≡ end.AllDone) ↔ AreOver P.acts cores' programs' }
    ensures decided { (m : Machine) (fair : Bool) (limit : ℕ) (cores cores' : List CoreSeat)
        (banks banks' : List BankSeat) (programs programs' : List P) (e : End)
        (ran : Ran P.acts m fair limit cores banks programs cores' banks' programs' e) →
        e ≢ end.AllDone →
        IsDecided (SomeLacked P.acts m ran.given) (SomeStopped P.acts m ran.given) e }
{}

/// The machine that a closed one shows is consistent, as are those that events lead to: its records are a legal
/// history of the opening memory and of what its cores were issued, a line has at most one owner, and a word's coherent
/// value is the one that the records leave. Words that lines don't have are 0, and no recall is lost.
pub fn closed_machines_are_consistent()
    ensures { (run : Run) (parts : Parts run) → IsConsistent (machine_of run parts) }
{
    reached_states_have_the_invariant();
    machines_with_the_invariant_are_consistent();
}

/// The machine that a closed one shows lists for each core what its seat accepted, and nothing for a core that isn't
/// there.
pub fn closed_machines_list_what_was_issued()
    ensures there { (run : Run) (parts : Parts run) (core : ℕ) → core < run.set_up.config.cores →
        slice_index_or (machine_of run parts).issued core [] ≡
        (state_of_run run parts).issued core }
    ensures none { (run : Run) (parts : Parts run) (core : ℕ) → run.set_up.config.cores ≤ core →
        slice_index_or (machine_of run parts).issued core [] ≡ [] }
{}
