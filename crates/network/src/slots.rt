//! Slots of numbers in the order of sending, each with the cell where its message lies, if it is still there.
ghost use Rattle.std.specs.Prelude.{◌≡◌, ◌+◌, ◌*◌, ◌<◌, ◌≤◌, ◌^◌, [], ℕ, None, Some, IfSome, IfNone, IfOk, OnErr, OnOk};
ghost use Rattle.std.specs.Prelude.{get_or, length, map, slice_get, vec_capacity};
ghost use Rattle.std.specs.Prelude.{vec_len};
ghost use Rattle.network.specs.NumberedMessages.{IsRising, at_number, number_at, still_there, without_number};

use crate::numbers::MsgNo;
use std::alloc::{AllocError, Global};

/// The number of a message, and the cell where it lies until it is taken.
pub(crate) type Slot = (u64, Option<u32>);

/// No slots yet, and memory for all that may be kept if at most `capacity` messages may be in flight, and for one
/// more.
pub(crate) fn slots_with_room(alloc: Global, capacity: u32) -> Result<Vec<Slot>, AllocError>
    requires { capacity ≤ 65536 }
    ensures items { IfOk result (λ slots. slots.items ≡ []) }
    ensures room { IfOk result (λ slots. vec_capacity slots ≡ 2 * capacity + 2) }
{
    Vec::with_capacity(alloc, 2 * capacity as usize + 2)
}

/// The first index whose slot's number is not below `number`, found by halving.
fn first_slot_from_number(slots: &[Slot], number: u64) -> usize
    requires { IsRising 0 slots.now (2 ^ 64) }
    ensures within { result ≤ length slots.now }
    ensures before { (k : ℕ) → k < result → number_at slots.now k < number }
    ensures after { (k : ℕ) → result ≤ k → k < length slots.now → number ≤ number_at slots.now k }
{
    let mut low = 0;
    let mut high = slots.len();
    while low < high {
        let middle = low + (high - low) / 2;
        if slots[middle].0 < number {
            low = middle + 1;
        } else {
            high = middle;
        }
    }
    low
}

/// The index of the slot with the number, found by halving; `None` if there is none.
fn slot_by_binary_search(slots: &[Slot], number: u64) -> Option<usize>
    requires { IsRising 0 slots.now (2 ^ 64) }
    ensures found { IfSome result (λ at. slice_get slots.now at ≡ Some
        (number, at_number number (still_there slots.now))) }
    ensures absent { IfNone result (at_number number (still_there slots.now) ≡ None) }
{
    let at = first_slot_from_number(slots, number);
    if at >= slots.len() {
        return None;
    }
    if slots[at].0 != number {
        return None;
    }
    Some(at)
}

/// The same, but the call looks at eight slots first, from one on. It is a call of its own, so that a look-up that
/// finds its slot at once stays short.
#[inline(never)]
fn searched_slot_of(slots: &[Slot], from: usize, number: u64) -> Option<usize>
    requires { IsRising 0 slots.now (2 ^ 64) }
    ensures found { IfSome result (λ at. slice_get slots.now at ≡ Some
        (number, at_number number (still_there slots.now))) }
    ensures absent { IfNone result (at_number number (still_there slots.now) ≡ None) }
{
    for near in from..slots.len().min(from.saturating_add(8)) {
        if slots[near].0 == number {
            return Some(near);
        }
    }
    slot_by_binary_search(slots, number)
}

/// The index of the slot with the number; `None` if there is none. Numbers near the last one have a slot each, so the
/// call first tries the slot that is as far before the last one as the number is below that one's. The slots of older
/// numbers may be gone, and then the number's slot comes after that one, mostly by a few.
#[inline(always)]
pub(crate) fn slot_with_number(slots: &[Slot], number: u64) -> Option<usize>
    requires { IsRising 0 slots.now (2 ^ 64) }
    ensures found { IfSome result (λ at. slice_get slots.now at ≡ Some
        (number, at_number number (still_there slots.now))) }
    ensures absent { IfNone result (at_number number (still_there slots.now) ≡ None) }
{
    let count = slots.len();
    if count == 0 {
        return None;
    }
    let last = slots[count - 1].0;
    if number > last {
        return None;
    }
    let back = last - number;
    if back >= count as u64 {
        return searched_slot_of(slots, 0, number);
    }
    let at = count - 1 - back as usize;
    if slots[at].0 == number {
        return Some(at);
    }
    searched_slot_of(slots, at, number)
}

/// The index, if the slot there has the number.
#[inline(always)]
fn index_if_slot_has_number(slots: &[Slot], at: usize, number: u64) -> Option<usize>
    requires { IsRising 0 slots.now (2 ^ 64) }
    ensures { IfSome result (λ at. slice_get slots.now at ≡ Some
        (number, at_number number (still_there slots.now))) }
{
    if at >= slots.len() {
        return None;
    }
    if slots[at].0 != number {
        return None;
    }
    Some(at)
}

/// The index of the slot with the number; `None` if there is none. The call first tries the slot at `near`, then the
/// one before it. The answer is the same for any `near`.
#[inline(always)]
pub(crate) fn slot_near(slots: &[Slot], number: u64, near: usize) -> Option<usize>
    requires { IsRising 0 slots.now (2 ^ 64) }
    ensures found { IfSome result (λ at. slice_get slots.now at ≡ Some
        (number, at_number number (still_there slots.now))) }
    ensures absent { IfNone result (at_number number (still_there slots.now) ≡ None) }
{
    if let Some(at) = index_if_slot_has_number(slots, near, number) {
        return Some(at);
    }
    if let Some(at) = index_if_slot_has_number(slots, near.wrapping_sub(1), number) {
        return Some(at);
    }
    slot_with_number(slots, number)
}

/// The index behind the slot with the number; `near` if there is none. The slot at `near` is tried first.
#[inline(always)]
pub(crate) fn index_behind_slot(slots: &[Slot], number: u64, near: usize) -> usize
    requires { IsRising 0 slots.now (2 ^ 64) }
{
    match slot_near(slots, number, near) {
        Some(at) => at.wrapping_add(1),
        None => near,
    }
}

/// The cell of the number; `None` if there is none. The slot at `near` is tried first.
#[inline(always)]
pub(crate) fn cell_of_message(slots: &[Slot], number: u64, near: usize) -> Option<u32>
    requires { IsRising 0 slots.now (2 ^ 64) }
    ensures { result ≡ at_number number (still_there slots.now) }
{
    let at = slot_near(slots, number, near)?;
    slots[at].1
}

/// Takes the cell out of the slot at an index, which stays empty.
#[inline(always)]
fn take_cell_out_of_slot(slots: &mut Vec<Slot>, at: usize, number: u64) -> Option<u32>
    requires rising { IsRising 0 slots.old.items (2 ^ 64) }
    requires here { slice_get slots.old.items at ≡ Some
        (number, at_number number (still_there slots.old.items)) }
    ensures value { result ≡ at_number number (still_there slots.old.items) }
    ensures after { still_there slots.new.items ≡ without_number number
        (still_there slots.old.items) }
    ensures rising { (high : ℕ) → IsRising 0 slots.old.items high →
        IsRising 0 slots.new.items high }
    ensures len { vec_len slots.new ≡ vec_len slots.old }
    ensures long { length slots.new.items ≡ length slots.old.items }
    ensures capacity { vec_capacity slots.new ≡ vec_capacity slots.old }
{
    let cell = slots[at].1;
    slots[at] = (number, None);
    cell
}

/// Drops all empty slots.
fn drop_all_empty_slots(slots: &mut Vec<Slot>)
    ensures long { length slots.new.items ≡ length (still_there slots.old.items) }
    ensures same { still_there slots.new.items ≡ still_there slots.old.items }
    ensures rising { (high : ℕ) → IsRising 0 slots.old.items high →
        IsRising 0 slots.new.items high }
    ensures capacity { vec_capacity slots.new ≡ vec_capacity slots.old }
    ensures len { vec_len slots.new ≤ vec_len slots.old }
{
    slots.retain(|slot| slot.1.is_some());
}

/// How many slots have a cell, of those before an index.
fn count_full_slots_before(slots: &[Slot], end: usize) -> usize {
    let mut count = 0;
    for at in 0..end.min(slots.len()) {
        if slots[at].1.is_some() {
            count += 1;
        }
    }
    count
}

/// Drops the empty slots if they outnumber the others by two or more. `count` slots have a cell. The first one from
/// `near` on is at `near` afterwards, too.
#[inline(always)]
pub(crate) fn drop_surplus_empty_slots(slots: &mut Vec<Slot>, count: usize, near: &mut usize)
    requires { count ≡ length (still_there slots.old.items) }
    ensures few { length slots.new.items ≤ 2 * count + 1 }
    ensures same { still_there slots.new.items ≡ still_there slots.old.items }
    ensures rising { (high : ℕ) → IsRising 0 slots.old.items high →
        IsRising 0 slots.new.items high }
    ensures capacity { vec_capacity slots.new ≡ vec_capacity slots.old }
    ensures len { vec_len slots.new ≤ vec_len slots.old }
{
    if slots.len() / 2 > count {
        *near = count_full_slots_before(slots, *near);
        drop_all_empty_slots(slots);
    }
}

/// Drops an empty slot.
fn drop_slot(slots: &mut Vec<Slot>, at: usize)
    requires inside { at < length slots.old.items }
    requires none { (slot : _) → (get_or slots.old.items at slot).1 ≡ None }
    ensures long { length slots.new.items + 1 ≡ length slots.old.items }
    ensures same { still_there slots.new.items ≡ still_there slots.old.items }
    ensures rising { (high : ℕ) → IsRising 0 slots.old.items high →
        IsRising 0 slots.new.items high }
    ensures capacity { vec_capacity slots.new ≡ vec_capacity slots.old }
    ensures len { vec_len slots.new ≤ vec_len slots.old }
{
    let _slot = slots.remove(at);
}

/// Drops all empty slots. `count` slots have a cell. If one slot is empty and it is at `gap`, only those behind it are
/// moved.
pub(crate) fn drop_slot_gaps(slots: &mut Vec<Slot>, count: usize, gap: usize)
    requires { count ≡ length (still_there slots.old.items) }
    ensures long { length slots.new.items ≡ count }
    ensures same { still_there slots.new.items ≡ still_there slots.old.items }
    ensures rising { (high : ℕ) → IsRising 0 slots.old.items high →
        IsRising 0 slots.new.items high }
    ensures capacity { vec_capacity slots.new ≡ vec_capacity slots.old }
    ensures len { vec_len slots.new ≤ vec_len slots.old }
{
    if slots.len() == count {
        return;
    }
    if gap < slots.len() && slots.len() - 1 == count && slots[gap].1.is_none() {
        drop_slot(slots, gap);
        return;
    }
    drop_all_empty_slots(slots);
}

/// Takes the cell of the number, if it is there. Its slot stays empty. The slot at `near` is tried first, and `near`
/// then goes on to the slot behind the one that was found.
#[inline(always)]
pub(crate) fn take_cell(slots: &mut Vec<Slot>, number: u64, near: &mut usize) -> Option<u32>
    requires { IsRising 0 slots.old.items (2 ^ 64) }
    ensures value { result ≡ at_number number (still_there slots.old.items) }
    ensures after { still_there slots.new.items ≡ without_number number
        (still_there slots.old.items) }
    ensures rising { (high : ℕ) → IsRising 0 slots.old.items high →
        IsRising 0 slots.new.items high }
    ensures len { vec_len slots.new ≡ vec_len slots.old }
    ensures long { length slots.new.items ≡ length slots.old.items }
    ensures capacity { vec_capacity slots.new ≡ vec_capacity slots.old }
{
    let at = slot_near(slots, number, *near)?;
    *near = at.wrapping_add(1);
    take_cell_out_of_slot(slots, at, number)
}

/// Fills a list, which it empties first, with the numbers of the slots that have a cell, in their order. `count` slots
/// have one. It allocates only if the list's memory is too small for them; if that fails, the list is empty.
pub(crate) fn list_numbers(
    slots: &[Slot],
    count: usize,
    into: &mut Vec<MsgNo>,
) -> Result<(), AllocError>
    requires { count ≡ length (still_there slots.now) }
    ensures listed { OnOk result (into.new.items ≡ map (λ x. x.0) (still_there slots.now)) }
    ensures refused { OnErr result (into.new.items ≡ []) }
    ensures wanted { OnErr result (vec_capacity into.old < count) }
    ensures kept { vec_capacity into.old ≤ vec_capacity into.new }
{
    into.clear();
    into.reserve(count)?;
    for slot in slots {
        if slot.1.is_some() {
            into.push_reserved(MsgNo(slot.0));
        }
    }
    Ok(())
}

/// The number at an index of the slots that have a cell; `None` past the last. `count` slots have one.
pub(crate) fn nth_message_number(slots: &[Slot], count: usize, at: u32) -> Option<MsgNo>
    requires { count ≡ length (still_there slots.now) }
    ensures { result ≡ slice_get (map (λ x. x.0) (still_there slots.now)) at }
{
    if slots.len() == count {
        return Some(MsgNo(slots.get(at as usize)?.0));
    }
    let mut left = at;
    for slot in slots {
        let here = u32::from(slot.1.is_some());
        if left < here {
            return Some(MsgNo(slot.0));
        }
        left -= here;
    }
    None
}
