//! What is known of the part and of the messages of a seat, and what changes of them are.
ghost use Rattle.std.specs.Prelude.{◌≡◌, ℕ, ◌+◌, ◌<◌, true, length};
ghost use Rattle.protocol.specs.Issued.{IsIssued, listed};
ghost use Rattle.machine_table.specs.SetUp.{is_good};
ghost use Rattle.machine_theorem.specs.Bags.{SameBag};
ghost use Rattle.machine_theorem.specs.Shape.{IsCore, IsBank};
ghost use Rattle.seat_rule.specs.declared.views.SetUp.{SetUp};
ghost use Rattle.seat_rule.specs.declared.views.Hold.{Hold};
ghost use Rattle.seat_rule.specs.Rule.{Changes, bag_of_hold, opening_hold};
ghost use Rattle.seat_rule.specs.Plays.{SamePart, Standing};
ghost use Rattle.seat_rule.specs.SeatMoves.{SeatMove};
ghost use Rattle.seat_rule.specs.Found.{MessagesFindParts};

use crate::laws::laws_of_states;

/// What a seat does by itself, each by the table of its own part, is a change of the state.
pub fn moves_of_seats_are_changes()
    ensures { (z : SetUp) (n id : ℕ) (a b : Hold) → id < n → SeatMove z id a b →
        Changes z n id a b }
{}

/// What a seat holds as it opens is a part of a reached state. So is what it holds later, as long as it has the same
/// part, operations, records and counts, and the same messages wherever they are.
pub fn seats_stand()
    ensures opened { (z : SetUp) (n id : ℕ) → Standing z n id (opening_hold z id) }
    ensures kept { (z : SetUp) (n id : ℕ) (a b : Hold) → SamePart a b →
        SameBag (bag_of_hold a) (bag_of_hold b) → Standing z n id a → Standing z n id b }
{
    laws_of_states();
}

/// What a seat holds is a part of a reached state: its core, or its bank, knows its number and how the machine was set
/// up.
pub fn parts_of_seats_have_their_shape()
    ensures core { (z : SetUp) (n id : ℕ) (a : Hold) → is_good z.config ≡ true →
        Standing z n id a → id < z.config.cores → IsCore z.config id a.issued a.core }
    ensures bank { (z : SetUp) (n id : ℕ) (a : Hold) → is_good z.config ≡ true →
        Standing z n id a → (b : ℕ) → b < z.config.banks → id ≡ z.config.cores + b →
        IsBank z.config b a.bank }
{
    laws_of_states();
}

/// A core's seat was issued the operations of its records, in their order, and then the one that is open, and its core
/// counts as many.
pub fn records_of_seats_are_counted()
    ensures issued { (z : SetUp) (n id : ℕ) (a : Hold) → is_good z.config ≡ true →
        Standing z n id a → id < z.config.cores →
        IsIssued a.issued a.records a.core.open_op }
    ensures count { (z : SetUp) (n id : ℕ) (a : Hold) → is_good z.config ≡ true →
        Standing z n id a → id < z.config.cores →
        a.core.issued ≡ length a.records + length (listed a.core.open_op) }
{
    laws_of_states();
}

/// Each message of a seat, wherever it is, goes between nodes of its kind, and if it goes to the seat's own part, this
/// has a case for it.
pub fn messages_of_seats_find_their_parts()
    ensures { MessagesFindParts }
{
    laws_of_states();
}
