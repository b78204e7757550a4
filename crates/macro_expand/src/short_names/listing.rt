ghost use Rattle.std.specs.Prelude.{◌≡◌, ◌++◌, ◌∷◌, [], ℕ, List, map, flat_map, IfOk, OnOk};
ghost use Rattle.pc_syntax.specs.Written.{written, written_item, written_model};
ghost use Rattle.macro_expand.specs.ModelNames.{arg_names, node_names, edge_names, formula_names};
ghost use Rattle.macro_expand.specs.ModelNames.{item_names, names_of_model};

use super::listed_names::ListedNames;
use pc_common::Memory;
use pc_syntax::{Arg, EdgeTerm, Formula, Item, ModelFile, Name, NodeTerm, StageItem, Word};
use std::alloc::Global;

/// The names of a model. Takes time in proportion to how many there are.
pub(crate) fn listed_names<'a>(
    alloc: Global,
    model: &'a ModelFile,
) -> Result<ListedNames<'a>, Memory>
    ensures { IfOk result (λ names. names ≡ names_of_model (written_model model.now)) }
{
    let mut names = ListedNames::new(alloc);
    list_stages(&mut names, model.stages.as_slice())?;
    list_items(&mut names, model.items.as_slice())?;
    Ok(names)
}

fn list_stages<'a>(names: &mut ListedNames<'a>, stages: &'a [StageItem]) -> Result<(), Memory>
    ensures { OnOk result (names.new ≡ names.old ++ map (λ s. s.name.name) stages.now) }
{
    for stage in stages {
        names.list(&stage.name.name)?;
    }
    Ok(())
}

fn list_items<'a>(names: &mut ListedNames<'a>, items: &'a [Item]) -> Result<(), Memory>
    ensures { OnOk result (names.new ≡ names.old ++ flat_map item_names (map written_item items.now)) }
{
    for item in items {
        list_item(names, item)?;
    }
    Ok(())
}

fn list_item<'a>(names: &mut ListedNames<'a>, item: &'a Item) -> Result<(), Memory>
    ensures { OnOk result (names.new ≡ names.old ++ item_names (written_item item.now)) }
{
    match item {
        Item::Axiom { at: _, body } => list_formula(names, body),
        Item::Macro {
            name,
            parameters,
            body,
        } => {
            names.list(&name.name)?;
            list_words(names, parameters.as_slice())?;
            list_formula(names, body)
        }
    }
}

/// It nests one call for each connective and quantifier above an atom.
fn list_formula<'a>(names: &mut ListedNames<'a>, formula: &'a Formula) -> Result<(), Memory>
    ensures { OnOk result (names.new ≡ names.old ++ formula_names (written formula.now)) }
{
    match formula {
        Formula::Not(body) => list_formula(names, body),
        Formula::And(left, right) | Formula::Or(left, right) | Formula::Implies(left, right) => {
            list_formula(names, left)?;
            list_formula(names, right)
        }
        Formula::Forall { name, body, .. } | Formula::Exists { name, body, .. } => {
            names.list(name)?;
            list_formula(names, body)
        }
        Formula::Static { pred: _, args } => list_all(names, args.as_slice()),
        Formula::Nodes(nodes) => list_all(names, nodes.as_slice()),
        Formula::Edges(edges) => list_all(names, edges.as_slice()),
        Formula::Expand { at: _, name, args } => {
            names.list(&name.name)?;
            list_all(names, args.as_slice())
        }
        Formula::Bind {
            at: _,
            names: bound,
            args,
            body,
        } => {
            list_names(names, bound.as_slice())?;
            list_all(names, args.as_slice())?;
            list_formula(names, body)
        }
    }
}

/// What names stand in.
trait HasNames {
    /// These, in their order.
    ghost names_in: { Self → List (List ℕ) };

    fn list_in<'a>(&'a self, names: &mut ListedNames<'a>) -> Result<(), Memory>
        ensures { OnOk result (names.new ≡ names.old ++ names_in self.now) };
}

impl HasNames for Arg {
    ghost names_in = { arg_names };

    fn list_in<'a>(&'a self, names: &mut ListedNames<'a>) -> Result<(), Memory> {
        match self {
            Arg::Word(word) => names.list(&word.name),
            Arg::Number(_, _) => Ok(()),
        }
    }
}

impl HasNames for NodeTerm {
    ghost names_in = { node_names };

    fn list_in<'a>(&'a self, names: &mut ListedNames<'a>) -> Result<(), Memory> {
        names.list(&self.op.name)?;
        if let Some(core) = &self.core {
            core.list_in(names)?;
        }
        names.list(&self.stage.name)
    }
}

impl HasNames for EdgeTerm {
    ghost names_in = { edge_names };

    fn list_in<'a>(&'a self, names: &mut ListedNames<'a>) -> Result<(), Memory> {
        self.from.list_in(names)?;
        self.to.list_in(names)
    }
}

fn list_all<'a, T: HasNames>(names: &mut ListedNames<'a>, list: &'a [T]) -> Result<(), Memory>
    ensures { OnOk result (names.new ≡ names.old ++ flat_map T.names_in list.now) }
{
    for item in list {
        item.list_in(names)?;
    }
    Ok(())
}

fn list_words<'a>(names: &mut ListedNames<'a>, words: &'a [Word]) -> Result<(), Memory>
    ensures { OnOk result (names.new ≡ names.old ++ map (λ w. w.name) words.now) }
{
    for word in words {
        names.list(&word.name)?;
    }
    Ok(())
}

fn list_names<'a>(names: &mut ListedNames<'a>, bound: &'a [Name]) -> Result<(), Memory>
    ensures { OnOk result (names.new ≡ names.old ++ bound.now) }
{
    for name in bound {
        names.list(name)?;
    }
    Ok(())
}
