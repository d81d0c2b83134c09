//! Counts of the work of a call in a tree. After a lookup in a rope of one chunk, `nodes` is 1 and
//! `compares` is 0.
ghost use Rattle.std.specs.Prelude.{◌≡◌};

/// The work of a counted call: nodes entered, totals compared, nodes made.
#[derive(Clone, Copy, Debug, Default, PartialEq, Eq)]
pub struct Steps {
    /// The number of nodes entered.
    pub nodes: u64,
    /// The number of running totals that an index was compared with.
    pub compares: u64,
    /// The number of leaves and inner nodes made, including copies.
    pub made: u64,
}

impl Steps {
    /// Returns counts that are all 0.
    pub fn new() -> Steps
        ensures { result ≡ record { nodes = 0; compares = 0; made = 0 } }
    {
        Steps::default()
    }
}
