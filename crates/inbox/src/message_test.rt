//! Which of the held messages is looked for.
ghost use Rattle.std.specs.Prelude.{◌≡◌, Bool};

/// A test of held messages.
pub trait MessageTest<T> {
    ghost passes: { Self → T → Bool };

    /// Whether the message passes.
    fn passes(&self, message: &T) -> bool
        ensures { result ≡ passes self.now message.now };
}
