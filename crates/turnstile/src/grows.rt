ghost use Rattle.std.specs.Prelude.{ℕ, List, Option};

/// A state with a history, to which exchanges add items.
pub trait Grows {
    /// What the history is a list of. No value of it need be made.
    type Item;

    /// The number of the seat that an item names, or none.
    ghost names: { Self.Item → Option ℕ };

    /// All items so far, oldest first.
    ghost history: { Self → List Self.Item };
}
