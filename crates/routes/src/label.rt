ghost use Rattle.std.specs.Prelude.{◌≡◌, ◌↔◌, IsTrue};
ghost use Rattle.routes.specs.Table.{IsNoWorse};
ghost use Rattle.routes.specs.Search.{entry_of};

/// What is known of the least walk from a node: its weight, its number of arcs and its first arc.
#[derive(Clone, Copy, Debug, PartialEq, Eq, PartialOrd, Ord)]
pub(crate) struct Label {
    pub(crate) weight: u64,
    pub(crate) hops: u32,
    pub(crate) next: u32,
}

/// Whether a label is at least as good as another.
pub(crate) fn is_no_worse(label: Label, other: Label) -> bool
    ensures { IsTrue result ↔ IsNoWorse label other }
{
    label <= other
}

/// The entry of a node in the queue.
pub(crate) fn entry(label: Label, node: u32) -> (u64, u32, u32)
    ensures { result ≡ entry_of label node }
{
    (label.weight, label.hops, node)
}
