//! Which cores do what, a bit for each core, kept while events change the cores.
ghost use Rattle.std.specs.Prelude.{◌≡◌, ◌≢◌, ◌<◌, ◌≤◌, ℕ, List, Some, false, if◌then◌else◌, slice_get, slice_set};
ghost use Rattle.std.specs.Int.{bit_at};
ghost use Rattle.core_pts.specs.CoreTable.{CoreState};
ghost use Rattle.machine_table.specs.declared.config.Config.{Config};
ghost use Rattle.machine_table.specs.Opening.{open_core, row};
ghost use Rattle.interleaving_core.specs.CoreMasks.{AreMasks};
ghost use Rattle.interleaving_core.specs.PartChanges.{StandsAfter};

use core_pts::Core;
use machine_table::Answer;

/// The cores without an open operation, and those with one whose request isn't out. Core c's bit is bit c.
#[derive(Clone, Copy)]
pub(crate) struct CoreMasks {
    pub(crate) idle: u64,
    pub(crate) trying: u64,
}

/// So many cores without open operations.
pub(crate) fn idle_core_masks(cores: u32) -> CoreMasks
    requires some { 1 ≤ cores }
    requires most { cores ≤ 64 }
    ensures { (config : Config) → AreMasks result (row (open_core config) 0 cores) }
{
    CoreMasks {
        idle: u64::MAX >> (64 - cores),
        trying: 0,
    }
}

/// Notes how the core of a number now stands.
#[inline(always)]
pub(crate) fn update_core_masks(masks: &mut CoreMasks, number: u32, core: &Core)
    requires { number < 64 }
    ensures { (cores : List CoreState) (old : CoreState) → slice_get cores number ≡ Some old →
        AreMasks masks.old cores → AreMasks masks.new (slice_set cores number core.now) }
{
    let (is_open, is_out) = core.open_status();
    masks.idle = with_bit(masks.idle, number, !is_open);
    masks.trying = with_bit(masks.trying, number, is_open & !is_out);
}

/// Notes what an attempt of the core of a number was answered. Only a completion and a request change the sets.
#[inline(always)]
pub(crate) fn update_masks_after_attempt(masks: &mut CoreMasks, number: u32, answer: &Answer)
    requires { number < 64 }
    ensures { (cores : List CoreState) (old core : CoreState) → slice_get cores number ≡ Some old →
        StandsAfter answer.now old core → AreMasks masks.old cores →
        AreMasks masks.new (slice_set cores number core) }
{
    match answer {
        Answer::Completed(_) => {
            masks.idle = with_bit(masks.idle, number, true);
            masks.trying = with_bit(masks.trying, number, false);
        }
        Answer::Requested => masks.trying = with_bit(masks.trying, number, false),
        _ => {}
    }
}

/// Notes how the core of a number stands after a delivery, which leaves the open operation as it is.
#[inline(always)]
pub(crate) fn update_masks_after_delivery(masks: &mut CoreMasks, number: u32, core: &Core)
    requires { number < 64 }
    ensures { (cores : List CoreState) (old : CoreState) → slice_get cores number ≡ Some old →
        core.now.open_op ≡ old.open_op → AreMasks masks.old cores →
        AreMasks masks.new (slice_set cores number core.now) }
{
    let (is_open, is_out) = core.open_status();
    masks.trying = with_bit(masks.trying, number, is_open & !is_out);
}

/// A number with one bit set or cleared.
#[inline(always)]
pub fn with_bit(mask: u64, at: u32, is_set: bool) -> u64
    requires { at < 64 }
    ensures here { bit_at result at ≡ (if is_set then 1 else 0) }
    ensures less { is_set ≡ false → result ≤ mask }
    ensures elsewhere { (i : ℕ) → i ≢ at → bit_at result i ≡ bit_at mask i }
{
    if is_set {
        return mask | 1 << at;
    }
    mask & !(1 << at)
}
