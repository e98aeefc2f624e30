//! What holds of every machine that the protocol reaches, by any transitions in any order.
ghost use Rattle.std.specs.Prelude.{false, ◌≡◌, ◌<◌, ◌≤◌, ℕ, List, Some, None, map, true};
ghost use Rattle.std.specs.List.{AllByRecursion};
ghost use Rattle.physiological_order.specs.declared.operation.Record.{Record};
ghost use Rattle.physiological_order.specs.declared.operation.Op.{Op};
ghost use Rattle.physiological_order.specs.Order.{Legal, Arrangement, replay_end, address, of_core};
ghost use Rattle.protocol.specs.Issued.{IsIssued};
ghost use Rattle.protocol.specs.Machine.{Config, Machine, Reachable, owners, coherent, CannotUse, line_of, HasCase};
ghost use Rattle.protocol.specs.Recalls.{OwnerAnswers};

/// The records are legal; a core was issued what it completed, in this order, and then its open operation; at most
/// one cache owns a line, and grants and returns in flight count; a word's coherent value is what the replay of the
/// records' arrangement leaves; an operation whose request is out is not served by the copy that its core has; every
/// message in flight has a case in the table of the part that it goes to. All this holds even if cores drop recalls
/// that they should answer. If they don't, no recall is lost: while an entry is Recalling, the owner's return is on the
/// way, or a recall that finds the owner, now or after its grant.
pub fn every_reached_machine_is_consistent()
    ensures legal { (config : Config) (m : Machine) → 0 < config.line_words → Reachable config m →
        Legal config.opening m.issued m.records }
    ensures issued { (config : Config) (m : Machine) → 0 < config.line_words → Reachable config m →
        (core : ℕ) →
        IsIssued (m.issued core) (of_core core m.records) (m.cores core).open_op }
    ensures owners { (config : Config) (m : Machine) → 0 < config.line_words → Reachable config m →
        (cores line : ℕ) →
        owners cores (m.lines line) ≤ 1 }
    ensures coherent { (config : Config) (m : Machine) → 0 < config.line_words → Reachable config m
        →
        (cores : ℕ) → ((core line : ℕ) → cores ≤ core → (m.lines line).copies core ≡ None) →
        (arranged : List Record) → Arrangement m.records arranged →
        (word : ℕ) → coherent config cores m word ≡ replay_end config.opening (map (λ r. r.op)
        arranged) word }
    ensures blocked { (config : Config) (m : Machine) → Reachable config m → (core : ℕ) (op : Op) →
        (m.cores core).open_op ≡ Some op → (m.cores core).out ≡ true →
        CannotUse op (m.cores core).pts ((m.lines (line_of config (address op))).copies core) }
    ensures cases { (config : Config) (m : Machine) → 0 < config.line_words → Reachable config m →
        (line : ℕ) → AllByRecursion (HasCase config m line) (m.lines line).messages }
    ensures recalls { (config : Config) (m : Machine) → 0 < config.line_words →
        config.loses_recalls ≡ false → Reachable config m →
        (line : ℕ) → OwnerAnswers (m.lines line) (m.lines line).entry }
{}
