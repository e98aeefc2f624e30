//! Laws of legal histories of performed threads: each states what is proved, and has no code.
ghost use Rattle.std.specs.Prelude.{◌≡◌, ◌≢◌, ◌<◌, ℕ, List, [], ◌∷◌, length, map, None, Some, slice_get};
ghost use Rattle.physiological_order.specs.declared.operation.Op.{Op};
ghost use Rattle.physiological_order.specs.declared.operation.Record.{Record};
ghost use Rattle.physiological_order.specs.Order.{Legal, Arrangement, flat_after, flat_received, replay_end};
ghost use Rattle.litmus_parser.specs.declared.syntax.Cell.{Cell};
ghost use Rattle.litmus_reader.specs.Litmus.{Litmus};
ghost use Rattle.litmus_reader.specs.Grammar.{IsTest};
ghost use Rattle.litmus_reader.specs.WellFormed.{IsWellFormed};
ghost use Rattle.litmus_reader.specs.ThreadSteps.{Thread, done_with, next_operation, settled_thread};
ghost use Rattle.litmus_reader.specs.Truth.{end_value};
ghost use Rattle.sequential_machine.specs.SequentialMachine.{SequentialState, cells_of, memory_opened};
ghost use Rattle.sequential_machine.specs.SequentialMachine.{registers_opened};
ghost use Rattle.sequential_machine.specs.SequentialMachine.{IsOutcome, Step};
ghost use Rattle.sequential_machine.specs.Threads.{Goes, ThreadIsAt};
ghost use Rattle.sequential_machine.specs.Performed.{ArePerformed};
ghost use Rattle.sequential_machine.specs.Openings.{OpensAsSet};
ghost use Rattle.sequential_machine.specs.Turns.{IsEnd};
ghost use Rattle.sequential_machine.specs.Example.{store_buffering};

/// A test opens as its text says. A register of a thread holds the number to which the initial
/// block sets it, and so does a location's word; all other registers and words are 0.
pub fn tests_open_as_set()
    ensures { (text : List ℕ) (test : Litmus) → IsTest text test → OpensAsSet test }
{}

/// A step does one instruction of one thread, and all of it: the first that the thread has left. So no other thread has
/// a turn within a swap.
pub fn steps_do_one_instruction()
    ensures { (s u : SequentialState) → Step s u → (t : ℕ) × (cell : Cell) ×
        (s.left t ≡ cell ∷ u.left t) × ((v : ℕ) → v ≢ t → u.left v ≡ s.left v) }
{}

/// A thread of a litmus test, taken as a program, is a thread of the machine. From its initial state, steps of its own
/// come to the program's state. The operation that the program gives next is that of the instruction which it does
/// next; that step and further ones of its own come to the program's state once it has what memory gave. If the
/// program gives none, no instruction is left.
pub fn programs_are_threads()
    ensures opened { (test : Litmus) (s : SequentialState) (t : ℕ)
        → s.registers t ≡ registers_opened test t → s.left t ≡ cells_of t test.cells →
        Goes s t s.memory (settled_thread t (registers_opened test t) test.cells) }
    ensures performed { (s : SequentialState) (t : ℕ) (program : Thread) (op : Op)
        → ThreadIsAt s t program → next_operation program ≡ Some op →
        Goes s t (flat_after s.memory op) (done_with program (flat_received s.memory op)) }
    ensures finished { (s : SequentialState) (t : ℕ) (program : Thread)
        → ThreadIsAt s t program → next_operation program ≡ None → s.left t ≡ [] }
{}

/// The ends of turns are the outcomes of the machine: it matters not at what instructions without memory a thread
/// waits.
pub fn ends_of_turns_are_outcomes()
    ensures sound { (test : Litmus) (values : List ℕ) →
        IsWellFormed test → IsEnd test values → IsOutcome test values }
    ensures complete { (test : Litmus) (values : List ℕ) →
        IsWellFormed test → IsOutcome test values → IsEnd test values }
{}

/// A legal history of a test in which each thread was performed to its end is a run of the
/// sequential machine: the values that the test's names have after it, with the memory after the
/// records in the order of their times, are an outcome of it.
pub fn performed_histories_are_sequential()
    ensures { (test : Litmus) (issued : ℕ → List Op) (records arranged : List Record)
        (threads : List Thread) (memory : List ℕ) →
        IsWellFormed test → Legal (memory_opened test) issued records →
        Arrangement records arranged → ArePerformed test issued records threads →
        ((l : ℕ) → l < length test.locations → slice_get memory l ≡
        Some (replay_end (memory_opened test) (map (λ r. r.op) arranged) l)) →
        IsOutcome test (map (end_value threads memory) test.seen) }
{}

/// The machine does run, its threads in any order: of two threads that each store 1 and then load
/// the other's location, both may receive the 1, or one of them the 0 that was there, but never
/// both.
pub fn store_buffering_runs()
    ensures both { IsOutcome store_buffering (1 ∷ 1 ∷ []) }
    ensures one { IsOutcome store_buffering (0 ∷ 1 ∷ []) }
    ensures neither { IsOutcome store_buffering (0 ∷ 0 ∷ []) → ⊥ }
{}
