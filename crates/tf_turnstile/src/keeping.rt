ghost use Rattle.std.specs.Prelude.{◌≡◌, ℕ, ◌+◌, Bool, List, length};

/// A value that a turnstile passes between threads: a history of entries that only grows, with what never changes.
pub trait Kept {
    /// What the value may never change.
    type Origin;

    /// What it records.
    type Entry;

    /// What this value may never change.
    ghost origin: { Self → Self.Origin };

    /// How many entries there were before its own.
    ghost first: { Self → ℕ };

    /// Its entries, each with the number that it carries.
    ghost entries: { Self → List (ℕ × Self.Entry) };

    /// Nothing more is to be recorded.
    ghost is_stopped: { Self → Bool };

    /// How many entries there are, those before its own among them.
    fn count(&self) -> u64
        ensures { result ≡ first self.now + length (entries self.now) };

    /// Whether nothing more is to be recorded.
    fn stopped(&self) -> bool
        ensures { result ≡ is_stopped self.now };
}
