// What a policy of admission is.
ghost use Rattle.std.specs.Prelude.{◌≡◌, ℕ, Bool};

/// A policy that decides which objects pushed out of memory enter the log.
pub trait PreFlash {
    /// Whether a word admits an object: a function of the word and of the policy's setting.
    ghost admits: { Self → ℕ → Bool };

    /// Whether the object that comes with this word is admitted.
    fn admit(&self, word: u32) -> bool
        ensures { result ≡ admits self.now word };
}
