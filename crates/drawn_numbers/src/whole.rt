//! Whether all drawers are given.
ghost use Rattle.std.specs.Prelude.{◌≡◌, true};
ghost use Rattle.drawn_numbers.specs.Drawers.{AllDrawersOf, HasDrawer, HasDrawers};

use crate::drawer::Drawer;
use crate::numbers::Numbers;

impl Numbers {
    /// Whether every drawer of these numbers is among these drawers of them.
    pub fn is_whole(&self, drawers: &[Drawer]) -> bool
        requires drawers { AllDrawersOf self.now drawers.now }
        ensures whole { result ≡ true → HasDrawers drawers.now self.now.drawers }
        ensures missing { HasDrawers drawers.now self.now.drawers → result ≡ true }
    {
        for number in 0..self.drawers {
            if !has_drawer(drawers, number) {
                return false;
            }
        }
        true
    }
}

// Whether the drawer of this number is there.
fn has_drawer(drawers: &[Drawer], number: u32) -> bool
    ensures there { result ≡ true → HasDrawer drawers.now number }
    ensures missing { HasDrawer drawers.now number → result ≡ true }
{
    for i in 0..drawers.len() {
        if drawers[i].number == number {
            return true;
        }
    }
    false
}
