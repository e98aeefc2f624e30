//! Laws of seats at the edges of what they have places for. The functions do nothing: their contracts are the laws.
#![tactic(auto)]

ghost use Rattle.seat_edges.specs.BankPlaceLaws.{CleanLinesWantNone, DirtyLinesWantHeld, DirtyLinesWantNoOutbox};
ghost use Rattle.seat_edges.specs.BankPlaceLaws.{DramAnswersWantNoOutbox, GrantsWantNoHeld, GrantsWantPlace};
ghost use Rattle.seat_edges.specs.BankPlaceLaws.{LoadsWantNoOutbox, LoadsWantTwoHeld, OwnedLinesWantNoHeld};
ghost use Rattle.seat_edges.specs.BankPlaceLaws.{OwnedLinesWantPlace, RecallsGoOut, RecallsWantPlace};
ghost use Rattle.seat_edges.specs.PlaceLaws.{OpenLinesWantNone, OwnedCopiesGoOut, OwnedCopiesWantPlace};
ghost use Rattle.seat_edges.specs.PlaceLaws.{ReadCopiesWantNone, ReadersWantNone, RepliesWantNone, ReturnsGoOut};
ghost use Rattle.seat_edges.specs.PlaceLaws.{ReturnsWantPlace, StrangersWantNone};
ghost use Rattle.seat_edges.specs.StopLaws.{LateReadersStop, LateRecallsStop, LateReturnsStop};
ghost use Rattle.seat_edges.specs.TurnLaws.{BankTurnsPut, CoreTurnsPut, EmptyBankHandsTake, EmptyCoreHandsTake};
ghost use Rattle.seat_edges.specs.TurnLaws.{FullBankHandsTakeNothing, FullBanksTakeNothing};
ghost use Rattle.seat_edges.specs.TurnLaws.{FullCoreHandsTakeNothing, FullCoresTakeNothing, TakesBegin, TakesMoveOn};
ghost use Rattle.seat_edges.specs.WaitLaws.{BanksServeBehind, CoresServeBehind, FullBanksHoldNoMore};
ghost use Rattle.seat_edges.specs.WaitLaws.{FullCoresHoldNoMore};

use mailboxes::laws::all_incoming_slots_are_looked_at;

/// A core that owns a line and is asked for it needs a place in the outbox. With 256 messages to be put, the answer is
/// NetworkFull and nothing changes, also if the core is to keep a copy to read; with fewer, the line goes out.
pub fn returns_want_a_place()
    ensures full { ReturnsWantPlace }
    ensures sent { ReturnsGoOut }
{}

/// All other messages to a core need no place, with any number of messages to be put: a reply is taken in, a message
/// that asks for a line that the core doesn't own is dropped, and one that asks for the line of the open operation
/// waits.
pub fn other_messages_to_cores_want_none()
    ensures replies { RepliesWantNone }
    ensures readers { ReadersWantNone }
    ensures strangers { StrangersWantNone }
    ensures open_lines { OpenLinesWantNone }
{}

/// A bank's message to its DRAM, and DRAM's answer, need a place in the held list and none in the outbox.
pub fn messages_to_dram_want_held_places()
    ensures loads { LoadsWantNoOutbox }
    ensures two { LoadsWantTwoHeld }
    ensures answers { DramAnswersWantNoOutbox }
{}

/// A bank's message to a core needs a place in the outbox and none in the held list.
pub fn messages_to_cores_want_places()
    ensures grants { GrantsWantPlace }
    ensures held { GrantsWantNoHeld }
    ensures recalls { RecallsWantPlace }
    ensures sent { RecallsGoOut }
{}

/// A copy that a core evicts needs a place in the outbox exactly if the core owns it.
pub fn owned_copies_want_places()
    ensures read { ReadCopiesWantNone }
    ensures owned { OwnedCopiesWantPlace }
    ensures sent { OwnedCopiesGoOut }
{}

/// A line that a bank evicts needs a place in the held list if it is dirty, one in the outbox if a core owns it, and
/// otherwise none.
pub fn evicted_lines_want_places()
    ensures clean { CleanLinesWantNone }
    ensures dirty { DirtyLinesWantHeld }
    ensures stored { DirtyLinesWantNoOutbox }
    ensures owned { OwnedLinesWantPlace }
    ensures recalled { OwnedLinesWantNoHeld }
{}

/// A lease whose end doesn't fit 64 bits stops the seat that would grant it, or ask for it: the answer is Exhausted,
/// and messages and part stay as they were.
pub fn late_leases_stop_the_seat()
    ensures readers { LateReadersStop }
    ensures recalls { LateRecallsStop }
    ensures returns { LateReturnsStop }
{}

/// The first look of a take is at the slot after the one that the last message was taken from, going round.
pub fn takes_move_on()
    ensures next { TakesMoveOn }
    ensures begins { TakesBegin }
{}

/// A turn with a full hand takes nothing. A seat that isn't stopped, whose hand is empty and whose held messages all
/// wait, takes a message in its turn, or has found every incoming slot empty.
pub fn turns_take_into_empty_hands()
    ensures full_cores { FullCoreHandsTakeNothing }
    ensures full_banks { FullBankHandsTakeNothing }
    ensures cores { EmptyCoreHandsTake }
    ensures banks { EmptyBankHandsTake }
{
    all_incoming_slots_are_looked_at();
}

/// A turn puts until, for each message that is left, all four slots to where it goes were found full, with any message
/// in the hand and any answer of the turn. It answers how many it put.
pub fn turns_put_first()
    ensures cores { CoreTurnsPut }
    ensures banks { BankTurnsPut }
{}

/// A message that finds no place in a full outbox stays where it is, and the seat serves the one after it.
pub fn later_messages_are_served()
    ensures cores { CoresServeBehind }
    ensures banks { BanksServeBehind }
{}

/// A message in the hand that has to wait needs a place in the held list. If 256 messages are held and all of these
/// wait, too, the answer is NetworkFull, and nothing changes.
pub fn full_held_lists_hold_no_more()
    ensures cores { FullCoresHoldNoMore }
    ensures banks { FullBanksHoldNoMore }
{}

/// If the only held message finds no place in a full outbox, and none of the outbox is put, a turn answers NetworkFull
/// and takes nothing.
pub fn full_turns_take_nothing()
    ensures cores { FullCoresTakeNothing }
    ensures banks { FullBanksTakeNothing }
{
    returns_want_a_place();
    messages_to_cores_want_places();
}
