ghost use Rattle.std.specs.Prelude.{◌≡◌, All, IfOk, map};
ghost use Rattle.pc_syntax.specs.Written.{written, written_item, bind_};
ghost use Rattle.pc_syntax.specs.Expansion.{parameter_names, IsExpanded};
ghost use Rattle.macro_expand.specs.Connectives.{joined_by, bound_by};
ghost use Rattle.macro_expand.specs.Tables.{plain_macros, expansion_by, expansion_by_all, AreAxiomsExpanded, OfAxiom};

use super::connective::Connective;
use super::macros::Macros;
use super::parameter_names::names_of_macros;
use super::quantifier::Quantifier;
use pc_common::{Memory, Place};
use pc_syntax::{Args, Expanded, Formula, Item, Name, Names, Sort};
use std::alloc::Global;

/// What expands formulas: the macros of a file, and the names of each macro's parameters.
#[derive(Clone, Copy)]
struct Expander<'a> {
    alloc: Global,
    macros: &'a Macros<'a>,
    names: &'a [Names],
}

impl<'a> Expander<'a> {
    /// A copy of a formula that may name the first `earlier` macros, with each expansion a binding of
    /// its macro's parameters over the macro's body. The body is never written into: it stays as it is
    /// below its binding, so that no name in it is captured. The copy shares all names and lists.
    ///
    /// It nests at most two calls for each connective, quantifier and expansion above an atom.
    #[cycle(walk)]
    fn expansion(&self, earlier: usize, formula: &Formula) -> Result<Formula, Memory>
        requires { self.now.names.now ≡ map parameter_names (plain_macros self.now.macros.now) }
        ensures { IfOk result (λ f. written f ≡ expansion_by self.now.macros.now earlier (written formula.now)) }
    {
        match formula {
            Formula::Not(body) => { Formula::negation(self.alloc, self.expansion(earlier, body)?) }
            Formula::And(left, right) => self.joined(earlier, Connective::And, left, right),
            Formula::Or(left, right) => self.joined(earlier, Connective::Or, left, right),
            Formula::Implies(left, right) => {
                self.joined(earlier, Connective::Implies, left, right)
            }
            Formula::Forall {
                at,
                sort,
                name,
                body,
            } => { self.quantified(earlier, Quantifier::Forall, *at, *sort, name, body) }
            Formula::Exists {
                at,
                sort,
                name,
                body,
            } => { self.quantified(earlier, Quantifier::Exists, *at, *sort, name, body) }
            Formula::Bind {
                at,
                names,
                args,
                body,
            } => { self.binding(earlier, *at, names, args, body) }
            Formula::Static { pred, args } => Formula::shared_static(pred, args),
            Formula::Nodes(nodes) => nodes.share().map(Formula::Nodes),
            Formula::Edges(edges) => edges.share().map(Formula::Edges),
            Formula::Expand { at, name, args } => {
                match self.macros.callee(name.name.as_slice(), earlier) {
                    Some(callee) => {
                        let names = &self.names[callee.number];
                        self.binding(callee.number, *at, names, args, callee.body)
                    }
                    None => Formula::shared_expand(*at, name, args),
                }
            }
        }
    }

    /// The same of two formulas, joined.
    #[cycle(walk)]
    fn joined(
        &self,
        earlier: usize,
        connective: Connective,
        left: &Formula,
        right: &Formula,
    ) -> Result<Formula, Memory>
        requires { self.now.names.now ≡ map parameter_names (plain_macros self.now.macros.now) }
        ensures { IfOk result (λ f. written f ≡ joined_by connective
            (expansion_by self.now.macros.now earlier (written left.now))
            (expansion_by self.now.macros.now earlier (written right.now))) }
    {
        let left = self.expansion(earlier, left)?;
        let right = self.expansion(earlier, right)?;
        connective.join(self.alloc, left, right)
    }

    /// The same of a formula in which a quantifier binds a name, which the copy shares.
    #[cycle(walk)]
    fn quantified(
        &self,
        earlier: usize,
        quantifier: Quantifier,
        at: Place,
        sort: Sort,
        name: &Name,
        body: &Formula,
    ) -> Result<Formula, Memory>
        requires { self.now.names.now ≡ map parameter_names (plain_macros self.now.macros.now) }
        ensures { IfOk result (λ f. written f ≡ bound_by quantifier at sort name.now
            (expansion_by self.now.macros.now earlier (written body.now))) }
    {
        let name = name.share()?;
        let body = self.expansion(earlier, body)?;
        quantifier.bind(self.alloc, at, sort, name, body)
    }

    /// A binding over the copy of a formula, which shares its names and arguments.
    #[cycle(walk)]
    fn binding(
        &self,
        earlier: usize,
        at: Place,
        names: &Names,
        args: &Args,
        body: &Formula,
    ) -> Result<Formula, Memory>
        requires { self.now.names.now ≡ map parameter_names (plain_macros self.now.macros.now) }
        ensures { IfOk result (λ f. written f
            ≡ bind_ at names.now args.now (expansion_by self.now.macros.now earlier (written body.now))) }
    {
        let names = names.share()?;
        let args = args.share()?;
        let body = self.expansion(earlier, body)?;
        Formula::bind(self.alloc, at, names, args, body)
    }

    /// An axiom's body, which may name any macro, with its macros expanded.
    fn expand_body(&self, body: &Formula) -> Result<Expanded, Memory>
        requires names { self.now.names.now ≡ map parameter_names (plain_macros self.now.macros.now) }
        requires expanded { IsExpanded (expansion_by_all self.now.macros.now (written body.now)) }
        ensures { IfOk result (λ e. written e.body ≡ expansion_by_all self.now.macros.now (written body.now)) }
    {
        let body = self.expansion(self.macros.len(), body)?;
        Ok(Expanded { body })
    }

    /// The axioms among the items, in order, with their macros expanded.
    fn axioms(&self, items: &[Item]) -> Result<Vec<Expanded>, Memory>
        requires names { self.now.names.now ≡ map parameter_names (plain_macros self.now.macros.now) }
        requires expanded { All (OfAxiom (λ w. IsExpanded (expansion_by_all self.now.macros.now w)))
            (map written_item items.now) }
        ensures { IfOk result (λ axioms. AreAxiomsExpanded self.now.macros.now items.now axioms.items) }
    {
        let mut axioms = Vec::new(self.alloc);
        for item in items {
            if let Item::Axiom { body, .. } = item {
                axioms.push(self.expand_body(body)?)?;
            }
        }
        Ok(axioms)
    }
}

/// The axioms among the items, in order, with their macros expanded.
pub(crate) fn expand_axioms(
    alloc: Global,
    macros: &Macros<'_>,
    items: &[Item],
) -> Result<Vec<Expanded>, Memory>
    requires { All (OfAxiom (λ w. IsExpanded (expansion_by_all macros.now w))) (map written_item items.now) }
    ensures { IfOk result (λ axioms. AreAxiomsExpanded macros.now items.now axioms.items) }
{
    let names = names_of_macros(alloc, macros)?;
    let expander = Expander {
        alloc,
        macros,
        names: &names,
    };
    expander.axioms(items)
}
