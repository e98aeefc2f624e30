//! A verdict on records in words: each is put after the text so far.

ghost use Rattle.std.specs.Prelude.{◌≡◌, ◌++◌, OnOk, IfOk};
ghost use Rattle.report_lines.specs.declared.layout.Layout.TheVariants.{Lines, Json};
ghost use Rattle.trace_texts.specs.Records.{spaced_value};
ghost use Rattle.trace_texts.specs.Verdicts.{check_text, lack_text, lack_words, lacking_text, number_member};
ghost use Rattle.trace_texts.specs.Verdicts.{order_text, verdict_line, verdict_members, verdict_name};
ghost use Rattle.trace_texts.specs.Verdicts.{verdict_text, wrong_number};

use itoa::Buffer;
use physiological_order::Verdict;
use report_lines::{
    Layout, put_by_layout, put_labelled_number, put_labelled_word, put_report_closing,
    put_report_opening,
};
use std::alloc::{AllocError, Global};

/// The report on a verdict on records: `legal`, or what is wrong and the number that it is wrong with (docs/TEXTS.md).
#[tactic(auto, unfolding(crate::specs::Verdicts::check_text))]
pub fn check_text(alloc: Global, layout: Layout, verdict: Verdict) -> Result<Vec<u8>, AllocError>
    ensures { IfOk result (λ text. text.items ≡ check_text layout verdict) }
{
    let mut out = Vec::new(alloc);
    put_report_opening(&mut out, layout, b"check")?;
    put_verdict(&mut out, layout, b"verdict", verdict)?;
    put_report_closing(&mut out, layout)?;
    Ok(out)
}

/// The report on legal records that lack those of a core from this place on (docs/TEXTS.md).
#[tactic(auto, unfolding(crate::specs::Verdicts::lack_text))]
pub fn lack_text(
    alloc: Global,
    layout: Layout,
    place: u64,
    core: u64,
) -> Result<Vec<u8>, AllocError>
    ensures { IfOk result (λ text. text.items ≡ lack_text layout place core) }
{
    let mut out = Vec::new(alloc);
    put_report_opening(&mut out, layout, b"check")?;
    put_lacking_record(&mut out, layout, place, core)?;
    put_report_closing(&mut out, layout)?;
    Ok(out)
}

// That a core lacks a record.
#[tactic(auto, unfolding(crate::specs::Verdicts::lacking_text))]
fn put_lacking_record(
    out: &mut Vec<u8>,
    layout: Layout,
    place: u64,
    core: u64,
) -> Result<(), AllocError>
    ensures { OnOk result (out.new.items ≡ out.old.items ++ lacking_text layout place core) }
{
    match layout {
        Layout::Lines => put_lack_line(out, place, core),
        Layout::Json => put_lack_members(out, place, core),
    }
}

#[tactic(auto, unfolding(crate::specs::Verdicts::lack_words))]
fn lack_words() -> &'static [u8]
    ensures { result.now ≡ lack_words }
{
    b"no record of operation "
}

#[tactic(auto, unfolding(crate::specs::Verdicts::lacking_text))]
fn put_lack_line(out: &mut Vec<u8>, place: u64, core: u64) -> Result<(), AllocError>
    ensures { OnOk result (out.new.items ≡ out.old.items ++ lacking_text Lines place core) }
{
    let mut digits = Buffer::new();
    out.extend_from_slice(lack_words())?;
    out.extend_from_slice(digits.format(place).as_bytes())?;
    put_labelled_number(out, Layout::Lines, b" of core", u128::from(core))
}

#[tactic(auto, unfolding(crate::specs::Verdicts::lacking_text))]
fn put_lack_members(out: &mut Vec<u8>, place: u64, core: u64) -> Result<(), AllocError>
    ensures { OnOk result (out.new.items ≡ out.old.items ++ lacking_text Json place core) }
{
    put_labelled_word(out, Layout::Json, b"verdict", b"no record")?;
    put_labelled_number(out, Layout::Json, b"place", u128::from(place))?;
    put_labelled_number(out, Layout::Json, b"core", u128::from(core))
}

// A verdict: its line, or its members, the first of them with this label.
#[tactic(auto, unfolding(crate::specs::Verdicts::verdict_text))]
fn put_verdict(
    out: &mut Vec<u8>,
    layout: Layout,
    label: &[u8],
    verdict: Verdict,
) -> Result<(), AllocError>
    ensures { OnOk result (out.new.items ≡ out.old.items ++ verdict_text layout label.now verdict) }
{
    match layout {
        Layout::Lines => put_verdict_line(out, verdict),
        Layout::Json => put_verdict_members(out, label, verdict),
    }
}

// A verdict's name: `legal`, or what is wrong.
#[tactic(auto, unfolding(crate::specs::Verdicts::verdict_name))]
fn verdict_name(verdict: Verdict) -> &'static [u8]
    ensures { result.now ≡ verdict_name verdict }
{
    match verdict {
        Verdict::Legal => b"legal",
        Verdict::BadNumber(_) => b"bad number",
        Verdict::OutOfProgramOrder(_) => b"out of program order",
        Verdict::WrongValue(_) => b"wrong value",
    }
}

// The number that it is wrong with.
fn wrong_number(verdict: Verdict) -> Option<u64>
    ensures { result ≡ wrong_number verdict }
{
    match verdict {
        Verdict::Legal => None,
        Verdict::BadNumber(number) => Some(number),
        Verdict::OutOfProgramOrder(number) => Some(number),
        Verdict::WrongValue(number) => Some(number),
    }
}

fn put_verdict_line(out: &mut Vec<u8>, verdict: Verdict) -> Result<(), AllocError>
    ensures { OnOk result (out.new.items ≡ out.old.items ++ verdict_line verdict) }
{
    out.extend_from_slice(verdict_name(verdict))?;
    put_spaced_number(out, wrong_number(verdict))?;
    out.push(b'\n')?;
    Ok(())
}

// A number behind a space, if there is one.
fn put_spaced_number(out: &mut Vec<u8>, number: Option<u64>) -> Result<(), AllocError>
    ensures { OnOk result (out.new.items ≡ out.old.items ++ spaced_value number) }
{
    let mut digits = Buffer::new();
    let Some(number) = number else {
        return Ok(());
    };
    out.push(b' ')?;
    out.extend_from_slice(digits.format(number).as_bytes())
}

fn put_verdict_members(out: &mut Vec<u8>, label: &[u8], verdict: Verdict) -> Result<(), AllocError>
    ensures { OnOk result (out.new.items ≡ out.old.items ++ verdict_members label.now verdict) }
{
    put_labelled_word(out, Layout::Json, label, verdict_name(verdict))?;
    put_number_member(out, wrong_number(verdict))
}

// The member of a number, if there is one.
fn put_number_member(out: &mut Vec<u8>, number: Option<u64>) -> Result<(), AllocError>
    ensures { OnOk result (out.new.items ≡ out.old.items ++ number_member number) }
{
    match number {
        Some(number) => put_labelled_number(out, Layout::Json, b"number", u128::from(number)),
        None => Ok(()),
    }
}

/// A verdict in the report on a run.
pub(crate) fn put_order_verdict(
    out: &mut Vec<u8>,
    layout: Layout,
    verdict: Verdict,
) -> Result<(), AllocError>
    ensures { OnOk result (out.new.items ≡ out.old.items ++ order_text layout verdict) }
{
    put_by_layout(out, layout, b"order ", b"")?;
    put_verdict(out, layout, b"order", verdict)
}
