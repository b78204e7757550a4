use graph_text::Graph;
use pc_common::Listed;
use pc_ground::Front;
use refutation::Refutation;

/// Numbers of axioms, from 0 in file order.
pub type AxiomNumbers = Listed<usize>;

/// Fronts of some axioms, each with a graph that shows the outcome on them.
pub type Shown = Listed<(Front, Graph)>;

/// Which axioms forbid the outcome.
pub enum Core {
    /// None do: this graph shows the outcome on the whole front.
    None(Graph),
    /// A minimal set.
    Minimal {
        /// The axioms of the set.
        kept: AxiomNumbers,
        /// The front of these axioms, and a refutation of its ground tree.
        refuted: (Front, Refutation),
        /// For each of these axioms, in order, the front of the others, and a graph that shows the outcome on it.
        without: Shown,
    },
}

// By hand: docs/DECISIONS.md, "Drops are written by hand".
impl Drop for Core {
    fn drop(self) {
        match self {
            Core::None(_) => {}
            Core::Minimal {
                kept: _,
                refuted: _,
                without: _,
            } => {}
        }
    }
}
