/// What goes through a lane: its name, its items, and which item is which of a name.
pub trait Lane {
    ghost use Rattle.std.specs.Prelude.{ℕ};

    type Name: Copy + Send + Sync;

    type Item: Send + Drop;

    /// The item is an item `n` of the name.
    ghost is_item: { Self.Name → ℕ → Self.Item → Type 0 };
}
