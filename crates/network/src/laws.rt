//! Where the numbers of messages end. The function does nothing: its contract is the law.
ghost use Rattle.std.specs.Prelude.{◌≡◌, ◌<◌, false, length, true, ℕ};
ghost use Rattle.network.specs.Mail.{Mail, has_capacity, has_number};

/// The last number that a message gets is 18,446,744,073,709,551,614. Up to that a message can be sent wherever fewer
/// are in flight than may be.
pub fn numbers_end_here()
    ensures last { (mail : Mail) → has_number (record mail { next = 18446744073709551614 }) ≡ true }
    ensures none_after { (mail : Mail) → has_number (record mail { next = 18446744073709551615 }) ≡
        false }
    ensures sends { (capacity : ℕ) (mail : Mail) → length mail.messages < capacity →
        mail.next < 18446744073709551615 → has_capacity capacity mail ≡ true }
{}
