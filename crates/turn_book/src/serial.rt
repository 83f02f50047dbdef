//! States that stand for a list of entries.
ghost use Rattle.std.specs.Prelude.{ℕ, ◌<◌, ◌^◌, List, length};

/// A state that stands for a list of entries, of which a lock under this trait keeps the history.
pub trait Serial {
    /// What one turn adds. It is let go after it was committed.
    type Entry: Drop;

    /// What no turn changes.
    type Base;

    // The list that a state stands for.
    ghost list: { Self → List Self.Entry };

    // The base of a state.
    ghost base: { Self → Self.Base };

    // The number of the seat that an entry names.
    ghost names: { Self.Entry → ℕ };

    // A state stands for fewer than 2 ^ 63 entries.
    ghost short: { (state : Self) → length (list state) < 2 ^ 63 };
}
