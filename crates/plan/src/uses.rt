/// The first use of a route: the two nodes, and the pipes from one to the other.
#[derive(Debug, Drop)]
pub(crate) struct Use {
    pub source: u32,
    pub destination: u32,
    pub route: Vec<u32>,
}
