//! What a list of operations does as a program. The function does nothing: its contract is the law.
ghost use Rattle.std.specs.Prelude.{◌≡◌, List, None, map};
ghost use Rattle.physiological_order.specs.declared.operation.Op.{Op};
ghost use Rattle.physiological_order.specs.declared.operation.Record.{Record};
ghost use Rattle.programs.specs.Acts.{behind_first, first_op};
ghost use Rattle.programs.specs.Performs.{Performs};

/// A list of operations that has ended gave all of them, in order.
pub fn lists_give_all_operations()
    ensures { (ops rest : List Op) (records : List Record) →
        Performs (record { next = first_op; done = behind_first }) records ops rest →
        first_op rest ≡ None → map (λ r. r.op) records ≡ ops }
{}
