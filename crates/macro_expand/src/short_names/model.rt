ghost use Rattle.std.specs.Prelude.{◌≡◌, is_some, IfOk, MatchOption, map};
ghost use Rattle.pc_syntax.specs.Written.{written_item, written_model};
ghost use Rattle.pc_syntax.specs.Renaming.{renamed_item, IsRenamed};
ghost use Rattle.macro_expand.specs.Numbered.{has_long_name, IsNumbered};
ghost use Rattle.macro_expand.specs.Numbers.{short_name};

use super::formulas::short_formula;
use super::listing::listed_names;
use super::names::ShortNames;
use super::terms::{Named, short_list, short_shared};
use pc_common::{Listed, Memory};
use pc_syntax::{Item, Items, ModelFile};
use std::alloc::Global;

/// A copy of an axiom or a macro with short names.
fn short_item(alloc: Global, names: &ShortNames<'_>, item: &Item) -> Result<Item, Memory>
    ensures { IfOk result (λ short. written_item short ≡ renamed_item (short_name names.now) (written_item item.now)) }
{
    match item {
        Item::Axiom { at, body } => {
            let body = short_formula(alloc, names, body)?;
            Ok(Item::Axiom { at: *at, body })
        }
        Item::Macro {
            name,
            parameters,
            body,
        } => {
            let name = name.shortened(alloc, names)?;
            let parameters = short_shared(alloc, names, parameters)?;
            let body = short_formula(alloc, names, body)?;
            Ok(Item::Macro {
                name,
                parameters,
                body,
            })
        }
    }
}

/// Copies of axioms and macros with short names.
fn short_items(alloc: Global, names: &ShortNames<'_>, items: &Items) -> Result<Items, Memory>
    ensures { IfOk result (λ shorts.
        map written_item shorts ≡ map (renamed_item (short_name names.now)) (map written_item items.now)) }
{
    let mut shorts = Listed::new(alloc);
    for item in items.as_slice() {
        shorts.push(short_item(alloc, names, item)?)?;
    }
    Ok(shorts)
}

/// A copy of a model with a name of eight bytes in the place of each name, None where no name is long. Two names of the
/// copy are one exactly where they are one in the model. Places stay, and so do the names of predicates, the plain
/// names that they take, arguments past those that a predicate takes, and the arguments of what is no predicate.
///
/// Takes time and memory in proportion to the model's text. An `Err` says that memory was refused.
pub fn with_short_names(alloc: Global, model: &ModelFile) -> Result<Option<ModelFile>, Memory>
    ensures renamed { IfOk result (λ copy. MatchOption copy (Unit {0})
        (λ short. IsRenamed (written_model model.now) (written_model short))) }
    ensures long { IfOk result (λ copy. is_some copy ≡ has_long_name (written_model model.now)) }
    ensures short { IfOk result (λ copy. MatchOption copy (Unit {0})
        (λ short. IsNumbered (written_model model.now) (written_model short))) }
{
    let listed = listed_names(alloc, model)?;
    if !listed.has_long() {
        return Ok(None);
    }
    let names = ShortNames::from_listed(alloc, &listed)?;
    let stages = short_list(alloc, &names, model.stages.as_slice())?;
    let items = short_items(alloc, &names, &model.items)?;
    Ok(Some(ModelFile { stages, items }))
}
