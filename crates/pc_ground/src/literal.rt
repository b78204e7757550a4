ghost use Rattle.std.specs.Prelude.{◌≡◌};
ghost use Rattle.pc_ground.specs.Tree.{contrary as contrary_of};

/// What is asserted or denied of nodes: that one is there, or that the first happens before the second.
#[derive(Clone, Copy, PartialEq, Eq)]
pub enum Literal<N> {
    Node(N),
    /// The first node happens before the second.
    Edge(N, N),
    NoNode(N),
    NoEdge(N, N),
}

impl<N> Literal<N> {
    /// The literal that is true exactly where this one is not. Takes no memory.
    pub fn contrary(self) -> Literal<N>
        ensures { result ≡ contrary_of self }
    {
        match self {
            Literal::Node(a) => Literal::NoNode(a),
            Literal::Edge(a, b) => Literal::NoEdge(a, b),
            Literal::NoNode(a) => Literal::Node(a),
            Literal::NoEdge(a, b) => Literal::Edge(a, b),
        }
    }
}
