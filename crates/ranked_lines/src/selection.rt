//! Numbers that are chosen from a list by their size.
ghost use Rattle.std.specs.Prelude.{◌≡◌, ◌<◌, Some, length, slice_get};
ghost use Rattle.ranked_lines.specs.Rising.{all_but, sorted};

/// Takes one number out of a list, wherever it is, and keeps the order of the others.
pub fn leave_number_out(numbers: &mut Vec<u64>, but: &Option<u64>)
    ensures { numbers.new.items ≡ all_but but.now numbers.old.items }
{
    let Some(but) = but else {
        return;
    };
    numbers.retain(|number| *but != *number);
}

/// The number that comes after so many others once the list is in rising order.
pub fn nth_smallest_number(numbers: &mut [u64], at: usize) -> u64
    requires { at < length numbers.old }
    ensures { slice_get (sorted numbers.old) at ≡ Some result }
{
    let (_less, found, _more) = numbers.select_nth_unstable(at);
    *found
}
