//! Laws of histories: their proofs are their contracts, and their bodies are empty.
ghost use Rattle.std.specs.Prelude.{◌≡◌, ◌<◌, ◌≤◌, ◌+◌, ℕ, List, [], ◌∷◌, ◌++◌, map, true};
ghost use Rattle.std.specs.List.{AllByRecursion as Each};
ghost use Rattle.physiological_order.specs.declared.operation.Op.{Op};
ghost use Rattle.physiological_order.specs.declared.operation.Op.TheVariants.{Load};
ghost use Rattle.physiological_order.specs.declared.operation.Record.{Record};
ghost use Rattle.physiological_order.specs.declared.verdict.Verdict.{Verdict};
ghost use Rattle.physiological_order.specs.Order.{Memory, Arrangement, Legal, address, flat_after, replay_end};
ghost use Rattle.physiological_order.specs.Counting.{after_steps};
ghost use Rattle.physiological_order.specs.Completion.{Kept, Fits, placed, arranged, memory_at, Ascends};
ghost use Rattle.physiological_order.specs.Example.{two_records, two_issued};
ghost use Rattle.physiological_order.specs.Faults.{IsVerdict};
ghost use Rattle.physiological_order.specs.StaleHits.{is_stale_load};

/// Steps are counted one by one, up to the greatest number of 128 bits.
pub fn steps_are_counted_up_to_the_last()
    ensures { (made more : ℕ) → made + more < 340282366920938463463374607431768211456 →
        after_steps made more ≡ made + more }
{}

/// Records have one arrangement.
pub fn one_arrangement()
    ensures { (records first second : List Record) → Arrangement records first →
        Arrangement records second → first ≡ second }
{}

/// Records have one verdict, for an opening memory and issued lists.
pub fn one_verdict()
    ensures { (opening : Memory) (issued : ℕ → List Op) (records : List Record) (first second :
        Verdict) →
        IsVerdict opening issued records first → IsVerdict opening issued records second → first ≡
        second }
{}

/// No records are kept; a record that fits keeps them, and so does one more operation issued; kept records are legal.
pub fn kept_records_are_legal()
    ensures none { (opening : Memory) (issued : ℕ → List Op) → Kept opening issued [] }
    ensures completed { (opening : Memory) (issued : ℕ → List Op) (records : List Record) (next :
        Record) →
        Kept opening issued records → Fits opening issued records next → Kept opening issued
        (records ++ next ∷ []) }
    ensures issued { (opening : Memory) (old new : ℕ → List Op) (records : List Record) →
        ((core : ℕ) → (more : List Op) × (new core ≡ old core ++ more)) → Kept opening old records →
        Kept opening new records }
    ensures legal { (opening : Memory) (issued : ℕ → List Op) (records : List Record) →
        Kept opening issued records → Legal opening issued records }
{}

/// The memory up to a time, with one more record placed: it is as before at earlier times, and at every time for a
/// word that the record doesn't change; from its time on it has the record's value, if no later record uses the word;
/// and past all times it is what the replay leaves.
pub fn memory_up_to_a_time()
    ensures before { (opening : Memory) (next : Record) (records : List Record) (time : ℕ) →
        time < next.ts → memory_at opening (placed next records) time ≡ memory_at opening records
        time }
    ensures keeps { (opening : Memory) (next : Record) (records : List Record) (time word : ℕ) →
        ((m : Memory) → flat_after m next.op word ≡ m word) →
        memory_at opening (placed next records) time word ≡ memory_at opening records time word }
    ensures writes { (opening : Memory) (next : Record) (records : List Record) (time word value :
        ℕ) → Ascends records →
        Each (λ r. address r.op ≡ word → r.ts ≤ next.ts) records → ((m : Memory) → flat_after m
        next.op word ≡ value) →
        next.ts ≤ time → memory_at opening (placed next records) time word ≡ value }
    ensures end { (opening : Memory) (records : List Record) (time : ℕ) →
        Each (λ r. r.ts ≤ time) records → memory_at opening records time ≡ replay_end opening (map
        (λ r. r.op) records) }
{}

/// Only loads are stale hits, for any other records.
pub fn stale_hits_are_loads()
    ensures { (op : Op) (records : List Record) (r : Record) →
        is_stale_load op records r ≡ true → (a : ℕ) × (op ≡ Load a) }
{}

/// A store of 1 and a load after it that receives 1 are legal; with 0 received they are not.
pub fn example()
    ensures one { Legal (λ word. 0) two_issued (two_records 1) }
    ensures zero { Legal (λ word. 0) two_issued (two_records 0) → ⊥ }
{}
