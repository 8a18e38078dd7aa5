//! What a lock keeps.
ghost use Rattle.std.specs.Prelude.{ℕ, List};

/// A value that stands for a list of entries, and has a home: plain data that stays as it was when the lock was made.
pub trait Booked: Drop {
    /// What the list is made of. It may be a type of which no value is ever made.
    type Entry;

    /// The type of a home.
    ghost Home: { Type 0 };

    /// The home of a value.
    ghost home: { Self → Home };

    /// The entries that the value stands for, the oldest first.
    ghost entries: { Self → List Self.Entry };

    /// A seat of this number may make the entry.
    ghost may_make: { ℕ → Self.Entry → Type 0 };
}
