ghost use Rattle.std.specs.Prelude.{◌≡◌, IsTrue, IfOk, OnOk};
ghost use Rattle.pc_syntax.specs.Written.{written};
ghost use Rattle.uspec_parser.specs.Terminals.{is_placed};
ghost use Rattle.uspec_parser.specs.Operands.{Operands, formula_of as formula_spec};
ghost use Rattle.uspec_parser.specs.Descent.{next, behind, after_tokens, place, word, sort_by, Atom, Operand, Row};

use super::cursor::Cursor;
use super::operands::{Link, connective_of, formula_of};
use super::terminal::Terminal;
use pc_common::{Listed, Memory, Place, Shared};
use pc_syntax::{Formula, Name, Sort};
use std::alloc::Global;

/// What a quantifier says before its body.
#[derive(Drop)]
struct Head {
    at: Place,
    sort: Sort,
    name: Name,
}

fn sort_of(terminal: Terminal) -> Sort
    ensures { result ≡ sort_by terminal }
{
    match terminal {
        Terminal::Core => Sort::Core,
        _ => Sort::Microop,
    }
}

impl Cursor<'_> {
    fn one_edge(&mut self, alloc: Global) -> Result<Formula, Memory>
        ensures { IfOk result (λ f. Atom Terminal.OneEdge self.old (written f) self.new) }
    {
        self.skip();
        let edge = self.edge(alloc)?;
        let mut edges = Listed::new(alloc);
        edges.push(edge)?;
        Ok(Formula::Edges(Shared::from_listed(edges)?))
    }

    fn one_node(&mut self, alloc: Global) -> Result<Formula, Memory>
        ensures { IfOk result (λ f. Atom Terminal.OneNode self.old (written f) self.new) }
    {
        self.skip();
        let node = self.node(alloc)?;
        let mut nodes = Listed::new(alloc);
        nodes.push(node)?;
        Ok(Formula::Nodes(Shared::from_listed(nodes)?))
    }

    fn edge_list(&mut self, alloc: Global) -> Result<Formula, Memory>
        ensures { IfOk result (λ f. Atom Terminal.EdgeList self.old (written f) self.new) }
    {
        self.skip();
        self.skip();
        let edges = self.elements(alloc)?;
        Ok(Formula::Edges(edges))
    }

    fn node_list(&mut self, alloc: Global) -> Result<Formula, Memory>
        ensures { IfOk result (λ f. Atom Terminal.NodeList self.old (written f) self.new) }
    {
        self.skip();
        self.skip();
        let nodes = self.elements(alloc)?;
        Ok(Formula::Nodes(nodes))
    }

    fn expansion(&mut self, alloc: Global) -> Result<Formula, Memory>
        requires { IsTrue (is_placed (next self.old)) }
        ensures { IfOk result (λ f. Atom Terminal.ExpandMacro self.old (written f) self.new) }
    {
        let at = self.place();
        self.skip();
        let name = self.word(alloc)?;
        self.skip();
        let args = self.arguments(alloc)?;
        Ok(Formula::Expand { at, name, args })
    }

    fn predicate(&mut self, alloc: Global) -> Result<Formula, Memory>
        ensures { IfOk result (λ f. Atom Terminal.Name self.old (written f) self.new) }
    {
        let pred = self.word(alloc)?;
        self.skip();
        let args = self.arguments(alloc)?;
        Ok(Formula::Static { pred, args })
    }

    fn atom(&mut self, alloc: Global) -> Result<Formula, Memory>
        ensures { IfOk result (λ f. Atom (next self.old) self.old (written f) self.new) }
    {
        match self.next() {
            Terminal::OneEdge => self.one_edge(alloc),
            Terminal::OneNode => self.one_node(alloc),
            Terminal::EdgeList => self.edge_list(alloc),
            Terminal::NodeList => self.node_list(alloc),
            Terminal::ExpandMacro => self.expansion(alloc),
            _ => self.predicate(alloc),
        }
    }

    /// Reads a quantifier up to its comma.
    fn head(&mut self, alloc: Global) -> Result<Head, Memory>
        requires { IsTrue (is_placed (next self.old)) }
        ensures head { IfOk result (λ h. h ≡ record {
          at = place self.old;
          sort = sort_by (next (behind self.old));
          name = (word (after_tokens 2 self.old)).name;
        }) }
        ensures rest { OnOk result (self.new ≡ after_tokens 4 self.old) }
    {
        let at = self.place();
        self.skip();
        let sort = sort_of(self.next());
        self.skip();
        let word = self.word(alloc)?;
        self.skip();
        self.skip();
        Ok(Head {
            at,
            sort,
            name: word.name,
        })
    }

    /// Reads an operand. A quantifier is one with all that its body reaches to.
    #[cycle(formula)]
    fn operand(&mut self, alloc: Global) -> Result<Formula, Memory>
        ensures { IfOk result (λ f. Operand self.old (written f) self.new) }
    {
        match self.next() {
            Terminal::Not => {
                self.skip();
                let inner = self.operand(alloc)?;
                Formula::negation(alloc, inner)
            }
            Terminal::Open => {
                self.skip();
                let inner = self.formula(alloc)?;
                self.skip();
                Ok(inner)
            }
            Terminal::Forall => {
                let (head, body) = self.quantified(alloc)?;
                Formula::forall(alloc, head.at, head.sort, head.name, body)
            }
            Terminal::Exists => {
                let (head, body) = self.quantified(alloc)?;
                Formula::exists(alloc, head.at, head.sort, head.name, body)
            }
            _ => self.atom(alloc),
        }
    }

    /// Reads a quantifier up to its comma, and its body.
    #[cycle(formula)]
    fn quantified(&mut self, alloc: Global) -> Result<(Head, Formula), Memory>
        requires { IsTrue (is_placed (next self.old)) }
        ensures head { IfOk result (λ q. q.0 ≡ record {
          at = place self.old;
          sort = sort_by (next (behind self.old));
          name = (word (after_tokens 2 self.old)).name;
        }) }
        ensures body { IfOk result (λ q. (l : Operands) × Row (after_tokens 4 self.old) l self.new
            × (written q.1 ≡ formula_spec l)) }
    {
        let head = self.head(alloc)?;
        Ok((head, self.formula(alloc)?))
    }

    /// Reads a list of operands and groups it. Calls nest as deep as openers do, and no deeper.
    #[cycle(formula)]
    pub(crate) fn formula(&mut self, alloc: Global) -> Result<Formula, Memory>
        ensures { IfOk result (λ f. (l : Operands) × Row self.old l self.new × (written f ≡ formula_spec l)) }
    {
        let mut operands = Vec::new(alloc);
        let mut last = self.operand(alloc)?;
        while let Some(connective) = connective_of(self.next()) {
            self.skip();
            operands.push(Link {
                operand: last,
                connective,
            })?;
            last = self.operand(alloc)?;
        }
        formula_of(alloc, operands, last)
    }
}
