//! Values that stand for a list of entries.
ghost use Rattle.std.specs.Prelude.{◌≡◌, ℕ, List, length};

/// A value with an origin, which stands for a list of entries, each beside the seat that made it.
pub trait Storied {
    type Origin;

    type Entry;

    /// What the value began as. No call of the lock changes it.
    ghost origin: { Self → Self.Origin };

    /// The entries in order, each beside the number of the seat that made it.
    ghost story: { Self → List (ℕ × Self.Entry) };

    /// How many entries the list has. It takes no memory.
    fn length(&self) -> u64
        ensures { result ≡ length (story self.now) };
}
