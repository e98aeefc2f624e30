//! Whether the parts of a machine keep their lines in rising order. No contract sees it.
ghost use Rattle.std.specs.Prelude.{◌≡◌};

use crate::histories::History;
use crate::machine_state::MachineState;
use core_pts::Core;
use llc_bank::Bank;
use std::alloc::AllocError;

// All cores keep the lines of their copies in order.
fn keep_line_order_in_cores(cores: &mut [Core]) -> Result<(), AllocError>
    ensures { cores.new ≡ cores.old }
{
    for at in 0..cores.len() {
        cores[at].keep_order()?;
    }
    Ok(())
}

// No core keeps them so.
fn forget_line_order_in_cores(cores: &mut [Core])
    ensures { cores.new ≡ cores.old }
{
    for at in 0..cores.len() {
        cores[at].forget_order();
    }
}

// No core keeps them so, and their memory stays.
fn pause_line_order_in_cores(cores: &mut [Core])
    ensures { cores.new ≡ cores.old }
{
    for at in 0..cores.len() {
        cores[at].pause_order();
    }
}

// All banks keep the lines that nothing is under way for in order.
fn keep_line_order_in_banks(banks: &mut [Bank]) -> Result<(), AllocError>
    ensures { banks.new ≡ banks.old }
{
    for at in 0..banks.len() {
        banks[at].keep_order()?;
    }
    Ok(())
}

// No bank keeps them so.
fn forget_line_order_in_banks(banks: &mut [Bank])
    ensures { banks.new ≡ banks.old }
{
    for at in 0..banks.len() {
        banks[at].forget_order();
    }
}

// No bank keeps them so, and their memory stays.
fn pause_line_order_in_banks(banks: &mut [Bank])
    ensures { banks.new ≡ banks.old }
{
    for at in 0..banks.len() {
        banks[at].pause_order();
    }
}

impl<H: History> MachineState<H> {
    // All parts keep their lines in rising order. Where the memory is refused, those that were asked before do.
    pub(crate) fn keep_order(&mut self) -> Result<(), AllocError>
        ensures { self.new ≡ self.old }
    {
        keep_line_order_in_cores(&mut self.cores)?;
        keep_line_order_in_banks(&mut self.banks)
    }

    // No part keeps them so, and the memory for that stays.
    pub(crate) fn pause_order(&mut self)
        ensures { self.new ≡ self.old }
    {
        pause_line_order_in_cores(&mut self.cores);
        pause_line_order_in_banks(&mut self.banks);
    }

    // No part keeps them so.
    pub(crate) fn forget_order(&mut self)
        ensures { self.new ≡ self.old }
    {
        forget_line_order_in_cores(&mut self.cores);
        forget_line_order_in_banks(&mut self.banks);
    }
}
