//! What holds of every list of events with its answers. The functions do nothing: their contracts are the laws.
ghost use Rattle.std.specs.Prelude.{◌≡◌, ℕ, List, [], true, slice_index_or};
ghost use Rattle.std.specs.Ordering.{nat_cmp};
ghost use Rattle.std.specs.FinMap.{FinMap};
ghost use Rattle.machine_table.specs.declared.config.Config.{Config};
ghost use Rattle.machine_table.specs.declared.event.Event.{Event};
ghost use Rattle.machine_table.specs.declared.event.Answer.{Answer};
ghost use Rattle.machine_table.specs.Machine.{Machine};
ghost use Rattle.machine_table.specs.Opening.{at_start};
ghost use Rattle.machine_table.specs.SetUp.{is_good};
ghost use Rattle.interleaving_core.specs.IssuedOps.{issued_in};
ghost use Rattle.interleaving_core.specs.Midway.{IsMidway};
ghost use Rattle.interleaving_core.specs.SentMessages.{AreCounted, AreNext, all_sent};
ghost use Rattle.interleaving_core.specs.StepAnswers.{Ran};

/// After each beginning of a list of events, for any events before it since the machine opened: the records are legal,
/// a line has at most one owner, every word has the coherent value that the records leave, the cores were issued the
/// operations that were answered Issued, and the counts rose by the messages sent.
pub fn runs_are_legal_throughout()
    ensures { (config : Config) (memory : FinMap nat_cmp ℕ) (m after : Machine)
        (before events : List Event) (said answers : List Answer) → is_good config ≡ true →
        Ran (at_start config memory) before said m → Ran m events answers after → (k : ℕ) →
        IsMidway m events answers after k }
{}

/// A list of events issues a core of an opened machine the operations of the Issue events of that core that were
/// answered Issued, in order.
pub fn cores_are_issued_what_is_answered_so()
    ensures { (config : Config) (memory : FinMap nat_cmp ℕ) (after : Machine)
        (events : List Event) (answers : List Answer) → is_good config ≡ true →
        Ran (at_start config memory) events answers after → (core : ℕ) →
        slice_index_or after.issued core [] ≡ issued_in core events answers }
{}

/// The messages that a list of events sent have the next numbers, one after the other, and the counts rose by how
/// many of each counted kind they are.
pub fn counts_are_of_the_messages_sent()
    ensures numbers { (m after : Machine) (events : List Event) (answers : List Answer)
        (ran : Ran m events answers after) →
        AreNext m.mail.next (all_sent m events answers after ran) after.mail.next }
    ensures counts { (m after : Machine) (events : List Event) (answers : List Answer)
        (ran : Ran m events answers after) →
        AreCounted m.mail.counts (all_sent m events answers after ran) after.mail.counts }
{}
