ghost use Rattle.std.specs.Prelude.{◌≡◌, IfOk};
ghost use Rattle.pc_syntax.specs.Predicates.{takes_of};
ghost use Rattle.pc_syntax.specs.Renaming.{renamed_taken, renamed_args, renamed_static};
ghost use Rattle.pc_syntax.specs.Written.{written, static_};
ghost use Rattle.macro_expand.specs.Arguments.{renamed_at};
ghost use Rattle.macro_expand.specs.Numbers.{short_name};

use super::names::ShortNames;
use super::terms::Named;
use pc_common::{Listed, Memory, Shared};
use pc_syntax::{Arg, Args, Formula, Pred, Takes, Word};
use std::alloc::Global;

/// An argument where a predicate takes this. A plain name is compared with names of the test, and stays.
fn short_taken_arg(
    alloc: Global,
    names: &ShortNames<'_>,
    takes: Takes,
    arg: &Arg,
) -> Result<Arg, Memory>
    ensures { IfOk result (λ short. short ≡ renamed_taken (short_name names.now) takes arg.now) }
{
    match takes {
        Takes::Op | Takes::Core => arg.shortened(alloc, names),
        Takes::Plain => Ok(arg.clone()?),
    }
}

/// An argument at this place of a predicate, from 0. One past what the predicate takes stays.
#[tactic(auto, unfolding(crate::specs::Arguments::renamed_at))]
fn short_arg_at(
    alloc: Global,
    names: &ShortNames<'_>,
    pred: Pred,
    place: usize,
    arg: &Arg,
) -> Result<Arg, Memory>
    ensures { IfOk result (λ short. short ≡ renamed_at (short_name names.now) (takes_of pred) place arg.now) }
{
    if place < pred.arity() {
        return short_taken_arg(alloc, names, pred.takes(place), arg);
    }
    Ok(arg.clone()?)
}

/// The arguments of a predicate.
fn short_args_of(
    alloc: Global,
    names: &ShortNames<'_>,
    pred: Pred,
    args: &Args,
) -> Result<Args, Memory>
    ensures { IfOk result (λ shorts. shorts ≡ renamed_args (short_name names.now) (takes_of pred) args.now) }
{
    let mut shorts = Listed::new(alloc);
    for place in 0..args.len() {
        shorts.push(short_arg_at(alloc, names, pred, place, args.get(place))?)?;
    }
    Shared::from_listed(shorts)
}

/// The arguments of what is written as a predicate. Those of none stay.
fn short_static_args(
    alloc: Global,
    names: &ShortNames<'_>,
    pred: &Word,
    args: &Args,
) -> Result<Args, Memory>
    ensures { IfOk result (λ shorts. shorts ≡ renamed_static (short_name names.now) pred.now args.now) }
{
    match Pred::of_name(pred.name.as_slice()) {
        Some(found) => short_args_of(alloc, names, found, args),
        None => args.share(),
    }
}

/// A predicate of its arguments. Its own name stays.
pub(crate) fn short_static(
    alloc: Global,
    names: &ShortNames<'_>,
    pred: &Word,
    args: &Args,
) -> Result<Formula, Memory>
    ensures { IfOk result (λ f.
        written f ≡ static_ pred.now (renamed_static (short_name names.now) pred.now args.now)) }
{
    let args = short_static_args(alloc, names, pred, args)?;
    Ok(Formula::Static {
        pred: pred.share()?,
        args,
    })
}
