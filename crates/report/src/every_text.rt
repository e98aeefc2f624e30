//! The text that lists every end of a litmus test, part by part.
ghost use Rattle.std.specs.Prelude.{◌≡◌, ◌<◌, ◌≤◌, ◌^◌, ◌++◌, ◌∷◌, length, IfOk, OnOk};
ghost use Rattle.litmus_reader.specs.TestViews.{test_of};
ghost use Rattle.sequential_ends.specs.Every.{values_in};
ghost use Rattle.report.specs.EveryText.{condition_text, end_text, ends_text, every_text, has_order, head_text};
ghost use Rattle.report.specs.EveryText.{held_of, is_held, mark, observation_line, observation_text, often};
ghost use Rattle.report.specs.EveryText.{order_behind, order_text, times, turn_text};

use itoa::Buffer;
use litmus_reader::Test;
use report_lines::{
    Layout, put_by_layout, put_item_separator, put_labelled_number, put_labelled_word,
    put_list_closing, put_list_opening, put_report_closing, put_report_opening,
};
use report_text::{put_named_values, quantifier_text};
use sequential_ends::Ends;
use std::alloc::{AllocError, Global};

/// The test's name and threads, how many states were met, and how many ends there are.
fn put_ends_heading(
    out: &mut Vec<u8>,
    layout: Layout,
    test: &Test,
    every: &Ends,
) -> Result<(), AllocError>
    ensures { OnOk result (out.new.items ≡
        out.old.items ++ head_text layout (test_of test.now) every.now) }
{
    put_labelled_word(out, layout, b"test", test.name())?;
    put_labelled_number(out, layout, b"threads", test.threads() as u128)?;
    put_labelled_number(out, layout, b"states", u128::from(every.states()))?;
    put_list_opening(out, layout, b"ends", every.len())
}

/// What stands before the values of an end.
#[tactic(auto, unfolding(crate::specs::EveryText::mark))]
fn held_mark(layout: Layout, held: bool) -> &'static [u8]
    ensures { result.now ≡ mark layout held }
{
    match (layout, held) {
        (Layout::Lines, true) => b"*",
        (Layout::Lines, false) => b" ",
        (Layout::Json, true) => b"{\"holds\":true,\"values\":{",
        (Layout::Json, false) => b"{\"holds\":false,\"values\":{",
    }
}

/// How often a thread's number is among these.
fn count_turns_of_thread(thread: u8, done: &[u8]) -> usize
    ensures times { result ≡ times thread done.now }
    ensures few { result ≤ length done.now }
{
    let mut count = 0;
    let mut left = done;
    while let Some((other, rest)) = left.split_first() {
        if *other == thread {
            count += 1;
        }
        left = rest;
    }
    count
}

/// A thread, and which of its turns this is.
#[tactic(auto, unfolding(crate::specs::EveryText::turn_text))]
fn put_turn(out: &mut Vec<u8>, layout: Layout, thread: u8, number: usize) -> Result<(), AllocError>
    ensures { OnOk result (out.new.items ≡ out.old.items ++ turn_text layout thread number) }
{
    let mut digits = Buffer::new();
    put_by_layout(out, layout, b" P", b"\"P")?;
    out.extend_from_slice(digits.format(thread).as_bytes())?;
    out.push(b':')?;
    out.extend_from_slice(digits.format(number).as_bytes())?;
    put_by_layout(out, layout, b"", b"\"")
}

/// An order.
fn put_order_of_turns(out: &mut Vec<u8>, layout: Layout, order: &[u8]) -> Result<(), AllocError>
    ensures { OnOk result (out.new.items ≡ out.old.items ++ order_text layout order.now) }
{
    put_by_layout(out, layout, b"  ", b",\"order\":[")?;
    for at in 0..order.len() {
        put_item_separator(out, layout, at == 0)?;
        put_turn(
            out,
            layout,
            order[at],
            count_turns_of_thread(order[at], &order[..at]) + 1,
        )?;
    }
    put_list_closing(out, layout)
}

/// Whether an order stands behind an end.
fn is_order_shown(layout: Layout, orders: bool, order: &[u8]) -> bool
    ensures { result ≡ has_order layout orders order.now }
{
    match layout {
        Layout::Lines => order.len() > 0,
        Layout::Json => orders,
    }
}

/// An order behind an end, if there is to be one.
#[tactic(auto, unfolding(crate::specs::EveryText::order_behind))]
fn put_order_if_shown(
    out: &mut Vec<u8>,
    layout: Layout,
    orders: bool,
    order: &[u8],
) -> Result<(), AllocError>
    ensures { OnOk result (out.new.items ≡
        out.old.items ++ order_behind layout orders order.now) }
{
    if is_order_shown(layout, orders, order) {
        return put_order_of_turns(out, layout, order);
    }
    Ok(())
}

/// An end. The answer is whether the condition's expression holds in it.
#[tactic(auto, unfolding(crate::specs::EveryText::end_text))]
fn put_listed_end(
    out: &mut Vec<u8>,
    layout: Layout,
    orders: bool,
    test: &Test,
    values: &[u64],
    order: &[u8],
) -> Result<bool, AllocError>
    ensures text { OnOk result (out.new.items ≡
        out.old.items ++ end_text layout orders (test_of test.now) (values.now, order.now)) }
    ensures held { IfOk result (λ held. held ≡ is_held (test_of test.now) values.now) }
{
    let held = test.values_hold(values);
    out.extend_from_slice(held_mark(layout, held))?;
    put_named_values(out, layout, test, values)?;
    put_by_layout(out, layout, b"", b"}")?;
    put_order_if_shown(out, layout, orders, order)?;
    put_by_layout(out, layout, b"\n", b"}")?;
    Ok(held)
}

/// Each end. The answer is in how many of them the condition's expression holds.
fn put_listed_ends(
    out: &mut Vec<u8>,
    layout: Layout,
    orders: bool,
    test: &Test,
    every: &Ends,
) -> Result<usize, AllocError>
    requires { length every.now.ends < 2 ^ 64 }
    ensures ends { OnOk result (out.new.items ≡
        out.old.items ++ ends_text layout orders (test_of test.now) every.now.ends) }
    ensures held { IfOk result (λ held. held ≡ held_of (test_of test.now) (values_in every.now)) }
    ensures few { IfOk result (λ held. held ≤ length every.now.ends) }
{
    let mut held = 0;
    let mut number = 0;
    while let Some((values, order)) = every.get(number) {
        put_item_separator(out, layout, number == 0)?;
        let is_held = put_listed_end(out, layout, orders, test, values, order)?;
        held += usize::from(is_held);
        number += 1;
    }
    Ok(held)
}

/// How often the condition's expression holds, in herd7's words.
fn observation_word(held: usize, ends: usize) -> &'static [u8]
    ensures { result.now ≡ often held ends }
{
    if held == 0 {
        b"Never"
    } else if held == ends {
        b"Always"
    } else {
        b"Sometimes"
    }
}

/// The condition, and in how many ends its expression holds.
fn put_condition_and_held(
    out: &mut Vec<u8>,
    layout: Layout,
    test: &Test,
    held: usize,
) -> Result<(), AllocError>
    ensures { OnOk result (out.new.items ≡
        out.old.items ++ condition_text layout (test_of test.now) held) }
{
    put_labelled_word(out, layout, b"condition", quantifier_text(test.condition()))?;
    put_labelled_number(out, layout, b"held", held as u128)
}

/// A space and a word.
fn put_spaced_word(out: &mut Vec<u8>, word: &[u8]) -> Result<(), AllocError>
    ensures { OnOk result (out.new.items ≡ out.old.items ++ (32 ∷ word.now)) }
{
    out.push(b' ')?;
    out.extend_from_slice(word)
}

/// The test's name, how often the expression holds, and in how many ends it does and doesn't.
fn put_observation_line(
    out: &mut Vec<u8>,
    test: &Test,
    held: usize,
    ends: usize,
) -> Result<(), AllocError>
    requires { held ≤ ends }
    ensures { OnOk result (out.new.items ≡
        out.old.items ++ observation_line (test_of test.now) held ends) }
{
    let mut digits = Buffer::new();
    out.extend_from_slice(b"observation")?;
    put_spaced_word(out, test.name())?;
    put_spaced_word(out, observation_word(held, ends))?;
    put_spaced_word(out, digits.format(held).as_bytes())?;
    put_labelled_number(out, Layout::Lines, b"", (ends - held) as u128)?;
    Ok(())
}

/// The same line, or the member that says how often the expression holds.
#[tactic(auto, unfolding(crate::specs::EveryText::observation_text))]
fn put_observation(
    out: &mut Vec<u8>,
    layout: Layout,
    test: &Test,
    held: usize,
    ends: usize,
) -> Result<(), AllocError>
    requires { held ≤ ends }
    ensures { OnOk result (out.new.items ≡
        out.old.items ++ observation_text layout (test_of test.now) held ends) }
{
    match layout {
        Layout::Lines => put_observation_line(out, test, held, ends),
        Layout::Json => put_labelled_word(
            out,
            layout,
            b"observation",
            observation_word(held, ends),
        ),
    }
}

/// The text that lists every end of a test, in lines that end with a line feed or as one JSON object: how many states
/// were met and how many ends there are; each end, and whether the condition's expression holds in it, in a line by a
/// star; and in how many ends it does. An object has an order with each end if orders were asked for.
#[tactic(auto, unfolding(crate::specs::EveryText::every_text))]
pub(crate) fn ends_list_text(
    alloc: Global,
    layout: Layout,
    test: &Test,
    every: &Ends,
    orders: bool,
) -> Result<Vec<u8>, AllocError>
    ensures { IfOk result (λ text. text.items ≡ every_text layout (test_of test.now) every.now orders) }
{
    let ends = every.len();
    let mut out = Vec::new(alloc);
    put_report_opening(&mut out, layout, b"ends")?;
    put_ends_heading(&mut out, layout, test, every)?;
    let held = put_listed_ends(&mut out, layout, orders, test, every)?;
    put_list_closing(&mut out, layout)?;
    put_condition_and_held(&mut out, layout, test, held)?;
    put_observation(&mut out, layout, test, held, ends)?;
    put_report_closing(&mut out, layout)?;
    Ok(out)
}
