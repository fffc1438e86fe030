/// How much of a topology is kept. Numbers of frontiers are from 1 to 4,096.
#[derive(Clone, Copy, Debug, PartialEq, Eq)]
pub enum Mode {
    /// Every link.
    Hop,
    /// Walk-in: the links with an end in so many frontiers, counted from the edge.
    Walk(u32),
    /// End to end: no link.
    End,
    /// Walk-out: the links of walk-in with the first number, and those with an end in so many innermost frontiers as the second
    /// number says.
    WalkOut(u32, u32),
}
