ghost use Rattle.std.specs.Prelude.{◌≡◌, IfOk, map};
ghost use Rattle.pc_syntax.specs.Written.{written, expand_, bind_};
ghost use Rattle.pc_syntax.specs.Renaming.{renamed, renamed_word, renamed_arg};
ghost use Rattle.macro_expand.specs.{Numbers.{short_name}, Connectives.{joined_by, bound_by}};

use super::names::ShortNames;
use super::predicates::short_static;
use super::terms::{Named, short_shared};
use crate::connective::Connective;
use crate::quantifier::Quantifier;
use pc_common::{Memory, Place};
use pc_syntax::{Args, Formula, Name, Names, Sort, Word};
use std::alloc::Global;

/// A copy of a formula with short names. It nests at most two calls for each connective and quantifier above an atom.
#[cycle(walk)]
pub(crate) fn short_formula(
    alloc: Global,
    names: &ShortNames<'_>,
    formula: &Formula,
) -> Result<Formula, Memory>
    ensures { IfOk result (λ f. written f ≡ renamed (short_name names.now) (written formula.now)) }
{
    match formula {
        Formula::Not(body) => Formula::negation(alloc, short_formula(alloc, names, body)?),
        Formula::And(left, right) => short_joined(alloc, names, Connective::And, left, right),
        Formula::Or(left, right) => short_joined(alloc, names, Connective::Or, left, right),
        Formula::Implies(left, right) => {
            short_joined(alloc, names, Connective::Implies, left, right)
        }
        Formula::Forall {
            at,
            sort,
            name,
            body,
        } => short_quantified(alloc, names, Quantifier::Forall, *at, *sort, name, body),
        Formula::Exists {
            at,
            sort,
            name,
            body,
        } => short_quantified(alloc, names, Quantifier::Exists, *at, *sort, name, body),
        Formula::Static { pred, args } => short_static(alloc, names, pred, args),
        Formula::Nodes(nodes) => Ok(Formula::Nodes(short_shared(alloc, names, nodes)?)),
        Formula::Edges(edges) => Ok(Formula::Edges(short_shared(alloc, names, edges)?)),
        Formula::Expand { at, name, args } => short_expand(alloc, names, *at, name, args),
        Formula::Bind {
            at,
            names: bound,
            args,
            body,
        } => short_binding(alloc, names, *at, bound, args, body),
    }
}

/// The same of two formulas, joined.
#[cycle(walk)]
fn short_joined(
    alloc: Global,
    names: &ShortNames<'_>,
    connective: Connective,
    left: &Formula,
    right: &Formula,
) -> Result<Formula, Memory>
    ensures { let ρ = short_name names.now in
        IfOk result (λ f. written f ≡ joined_by connective (renamed ρ (written left.now)) (renamed ρ (written right.now))) }
{
    let left = short_formula(alloc, names, left)?;
    let right = short_formula(alloc, names, right)?;
    connective.join(alloc, left, right)
}

/// The same of a formula in which a quantifier binds a name, which becomes short as well.
#[cycle(walk)]
fn short_quantified(
    alloc: Global,
    names: &ShortNames<'_>,
    quantifier: Quantifier,
    at: Place,
    sort: Sort,
    name: &Name,
    body: &Formula,
) -> Result<Formula, Memory>
    ensures { let ρ = short_name names.now in
        IfOk result (λ f. written f ≡ bound_by quantifier at sort (ρ name.now) (renamed ρ (written body.now))) }
{
    let name = names.shorten(alloc, name)?;
    let body = short_formula(alloc, names, body)?;
    quantifier.bind(alloc, at, sort, name, body)
}

/// The same of a binding: of its names, its arguments and its body.
#[cycle(walk)]
fn short_binding(
    alloc: Global,
    names: &ShortNames<'_>,
    at: Place,
    bound: &Names,
    args: &Args,
    body: &Formula,
) -> Result<Formula, Memory>
    ensures { let ρ = short_name names.now in
        IfOk result (λ f. written f ≡ bind_ at (map ρ bound.now) (map (renamed_arg ρ) args.now) (renamed ρ (written body.now))) }
{
    let bound = short_shared(alloc, names, bound)?;
    let args = short_shared(alloc, names, args)?;
    let body = short_formula(alloc, names, body)?;
    Formula::bind(alloc, at, bound, args, body)
}

/// A macro's short name at the short names of its arguments.
fn short_expand(
    alloc: Global,
    names: &ShortNames<'_>,
    at: Place,
    name: &Word,
    args: &Args,
) -> Result<Formula, Memory>
    ensures { let ρ = short_name names.now in
        IfOk result (λ f. written f ≡ expand_ at (renamed_word ρ name.now) (map (renamed_arg ρ) args.now)) }
{
    let name = name.shortened(alloc, names)?;
    Ok(Formula::Expand {
        at,
        name,
        args: short_shared(alloc, names, args)?,
    })
}
