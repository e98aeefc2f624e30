//! What every event and every list of events keeps.
ghost use Rattle.std.specs.Prelude.{◌≡◌, ◌≢◌, ℕ, ◌+◌, ◌-◌, ◌^◌, ◌<◌, ◌≤◌, Bool, true, false, List, length, Some};
ghost use Rattle.std.specs.Prelude.{slice_get, ◌⊎◌};
ghost use Rattle.physiological_order.specs.declared.operation.Op.{Op};
ghost use Rattle.std.specs.Ordering.{nat_cmp};
ghost use Rattle.std.specs.FinMap.{FinMap};
ghost use Rattle.physiological_order.specs.Order.{flat};
ghost use Rattle.network.specs.Mail.{Mail};
ghost use Rattle.machine_table.specs.declared.config.Config.{Config};
ghost use Rattle.machine_table.specs.SetUp.{SetUpAs, is_good};
ghost use Rattle.machine_table.specs.Opening.{at_start};
ghost use Rattle.machine_table.specs.declared.event.Event.{Event};
ghost use Rattle.network.specs.declared.message.Message.{Message};
ghost use Rattle.network.specs.declared.message.Node.TheVariants.{Core};
ghost use Rattle.network.specs.NumberedMessages.{at_number};
ghost use Rattle.machine_table.specs.declared.event.Event.TheVariants.{Deliver};
ghost use Rattle.machine_table.specs.declared.event.Answer.TheVariants.{Delivered, Refused};
ghost use Rattle.machine_table.specs.declared.event.Refusal.TheVariants.{NoSuch};
ghost use Rattle.machine_table.specs.Machine.{Machine, operation_of};
ghost use Rattle.machine_table.specs.Transition.{transition};
ghost use Rattle.machine_table.specs.Runs.{after_all};
ghost use Rattle.machine_theorem.specs.Bags.{SameBag, bag_of};
ghost use Rattle.machine_theorem.specs.PrivateWrites.{private_cores, private_writes, private_records};
ghost use Rattle.machine_theorem.specs.StaleHit.{two_cores, stale_hit, stale_records};
ghost use Rattle.machine_theorem.specs.Consistency.{IsConsistent};
ghost use Rattle.machine_theorem.specs.HeldRecalls.{RecallsFindOwners};
ghost use Rattle.machine_theorem.specs.Kept.{Invariant};
ghost use Rattle.machine_theorem.specs.Replies.{AdvancesBetween, IsAnswered, IsReply};
ghost use Rattle.machine_theorem.specs.Rounds.{MovesOn};
ghost use Rattle.machine_theorem.specs.Unstuck.{IsServed};

/// A machine has the invariant if its parts have their shape and it is, seen line by line, one that the protocol
/// reaches, with 0 for each word that lines don't have. What any event makes of such a machine has it as well, and no
/// event changes how it was set up.
pub fn events_keep_the_invariant()
    ensures invariant { (m : Machine) (event : Event) → Invariant m →
        Invariant (transition m event).1 }
    ensures set_up { (m : Machine) (event : Event) → SetUpAs m (transition m event).1 }
{}

/// A machine with a good set-up has the invariant as it opens, with any opening memory.
pub fn openings_have_the_invariant()
    ensures { (config : Config) (opening : FinMap nat_cmp ℕ) → is_good config ≡ true →
        Invariant (at_start config opening) }
{}

/// The invariant doesn't depend on the order and the numbers of the messages in flight, on how many there may be, on
/// the counts, and on the stop.
pub fn renumberings_keep_the_invariant()
    ensures { (m : Machine) (capacity : ℕ) (mail : Mail) (is_stopped : Bool) → Invariant m →
        SameBag (bag_of m.mail.messages) (bag_of mail.messages) →
        Invariant (record m {
          config = record (m.config) { messages = capacity };
          mail = mail;
          is_stopped = is_stopped;
        }) }
{}

/// Every machine with the invariant is consistent: its records are legal, a line has at most one owner, a word's
/// coherent value is the one that the records leave, each word that lines don't have is 0, and no recall is lost.
pub fn machines_with_the_invariant_are_consistent()
    ensures { (m : Machine) → Invariant m → IsConsistent m }
{}

/// After any list of events, refused ones included, of a machine that opened with a good set-up: the records are a
/// legal history of the opening memory and the lists that the cores were issued; a line has at most one owner, and
/// grants and returns in flight count; and a word's coherent value is the one that the records leave, one after the
/// other in the order of their times, on the opening memory. Where lines have one word, the other seven are 0, in every
/// copy, entry, message and DRAM. While a bank recalls a line, its owner's return is on the way, or a recall that finds
/// the owner, now or after its grant. And the part that a message in flight goes to has a case for it, with a place for
/// the line that it brings: its delivery is never answered NoSuch.
pub fn every_history_is_legal()
    ensures consistent { (config : Config) (opening : FinMap nat_cmp ℕ) (events : List Event) →
        is_good config ≡ true → IsConsistent (after_all (at_start config opening) events) }
    ensures opening { (config : Config) (opening : FinMap nat_cmp ℕ) (events : List Event) →
        (after_all (at_start config opening) events).opening ≡ opening }
    ensures found { (config : Config) (opening : FinMap nat_cmp ℕ) (events : List Event) → is_good
        config ≡ true →
        let m = after_all (at_start config opening) events in
        (number : ℕ) (message : Message) → at_number number m.mail.messages ≡ Some message →
        (transition m (Deliver number)).0 ≢ Refused NoSuch }
{}

/// Nothing is stuck where there is room for two more messages, and numbers for 35. After any list of events, refused
/// ones included, of a machine that opened with a good set-up and hasn't stopped: for each core's open operation there
/// are at most 35 events that complete it, or that stop the machine, since a time doesn't fit. None of them is an Issue
/// or an Advance. Operations of other cores may be completed on the way; of this core that one alone is.
pub fn nothing_is_stuck()
    ensures { (config : Config) (opening : FinMap nat_cmp ℕ) (events : List Event) → is_good config ≡ true →
        let m = after_all (at_start config opening) events in
        m.is_stopped ≡ false → length m.mail.messages + 2 ≤ config.messages →
        m.mail.next + 35 ≤ 2 ^ 64 - 1 → (core : ℕ) (op : Op) →
        operation_of (slice_get m.cores core) ≡ Some op → IsServed 35 core op m }
{}

/// A round changes the machine where an operation is open, and there is room for one more message, and a number. After
/// any list of events, refused ones included, of a machine that opened with a good set-up and hasn't stopped: if a core
/// has an operation open, one of the events that a round makes of the machine as it is changes it. Its answer is none
/// of Waiting, Idle, Held and the refusals, or times are exhausted.
pub fn rounds_move_on()
    ensures { (config : Config) (opening : FinMap nat_cmp ℕ) (events : List Event) → is_good config ≡ true →
        let m = after_all (at_start config opening) events in
        m.is_stopped ≡ false → length m.mail.messages < config.messages →
        m.mail.next < 2 ^ 64 - 1 → (core : ℕ) (op : Op) →
        operation_of (slice_get m.cores core) ≡ Some op → MovesOn m }
{}

/// A round changes the machine, room or not, unless there is at most one message in flight for each core. After any
/// list of events, refused ones included, of a machine that opened with a good set-up and hasn't stopped, and has a
/// number for a message: if each recall that a core holds for its open operation finds the core as the line's owner,
/// now or after its grant, one of the events that a round makes of the machine as it is changes it, or no more messages
/// are in flight than there are cores.
pub fn rounds_move_many_messages()
    ensures { (config : Config) (opening : FinMap nat_cmp ℕ) (events : List Event) → is_good config ≡ true →
        let m = after_all (at_start config opening) events in
        m.is_stopped ≡ false → m.mail.next < 2 ^ 64 - 1 → RecallsFindOwners m →
        MovesOn m ⊎ (length m.mail.messages ≤ config.cores) }
{}

/// A reply completes its core's operation. Take any list of events, refused ones included, of a machine that opened
/// with a good set-up and hasn't stopped, where cores advanced only between operations. If a reply to a core is in
/// flight, the core has an operation open, and a delivery of the reply is answered Delivered. Any events may come after
/// it, as other deliveries, recalls and evictions, but attempts and advances of the core. The core's next attempt then
/// completes that operation, or the machine is stopped: a time of the attempt, or of an event since the delivery,
/// doesn't fit.
pub fn replies_complete()
    ensures { (config : Config) (opening : FinMap nat_cmp ℕ) (events : List Event) → is_good config ≡ true →
        AdvancesBetween (at_start config opening) events →
        let m = after_all (at_start config opening) events in
        m.is_stopped ≡ false → (number core : ℕ) (reply : Message) →
        at_number number m.mail.messages ≡ Some reply → reply.to ≡ Core core → IsReply reply.body →
        (op : Op) × (operation_of (slice_get m.cores core) ≡ Some op)
        × ((transition m (Deliver number)).0 ≡ Delivered) × IsAnswered core op (transition m (Deliver number)).1 }
{}

/// A run by the table, with any opening memory: a core reads a word, another writes it, and the first reads the
/// opening value once more, at a time before the write.
pub fn stale_hits_happen()
    ensures good { is_good two_cores ≡ true }
    ensures records { (opening : FinMap nat_cmp ℕ) →
        (after_all (at_start two_cores opening) stale_hit).records ≡ stale_records (flat opening 0) }
{}

/// A run by the table under private writes, with any opening memory: a core writes a word twice at one time, and then
/// reads what it wrote last.
pub fn private_writes_happen()
    ensures good { is_good private_cores ≡ true }
    ensures records { (opening : FinMap nat_cmp ℕ) →
        (after_all (at_start private_cores opening) private_writes).records ≡ private_records 2 }
{}
