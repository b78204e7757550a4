ghost use Rattle.std.specs.Prelude.{◌≡◌, IfOk, IfErr, map};
ghost use Rattle.std.specs.List.{flat_map};
ghost use Rattle.pc_syntax.specs.Written.{written_model, written_item};
ghost use Rattle.pc_syntax.specs.Observable.{macro_of};
ghost use Rattle.macro_expand.specs.Tables.{plain_macros, first_of_names};
ghost use Rattle.macro_expand.specs.Faults.{IsExpandable, AreExpansions, IsFirstMacroFault};

use super::expansion::expand_axioms;
use super::fault::MacroFault;
use super::items::check_items;
use super::macros::Macros;
use super::sizes::check_sizes;
use pc_syntax::{Expanded, ModelFile};
use std::alloc::Global;

/// The axioms of a model in order, with each `ExpandMacro` replaced by a binding of the macro's parameters
/// over its body, or the first fault: of the macros, or where these have none, of the sizes.
///
/// Sizes and heights are known before anything is expanded, so that a model past a limit takes time and
/// memory in proportion to its text alone. The axioms share their names and lists with the model, so that
/// each connective, quantifier, binding and atom of theirs takes the same memory, whatever the lengths of
/// these. An axiom is of height 512 at most when it is expanded, and its expansion nests at most two calls
/// for each level of that, and one more.
pub fn expand(alloc: Global, model: &ModelFile) -> Result<Vec<Expanded>, MacroFault>
    ensures ok { let m = written_model model.now in
        IfOk result (λ axioms. IsExpandable m × AreExpansions m axioms.items) }
    ensures err { IfErr result (λ fault. IsFirstMacroFault (written_model model.now) fault) }
{
    let macros = Macros::collect(alloc, model.items.as_slice())?;
    expand_with(alloc, &macros, model)
}

/// The same, where `macros` has the first of each name.
fn expand_with(
    alloc: Global,
    macros: &Macros<'_>,
    model: &ModelFile,
) -> Result<Vec<Expanded>, MacroFault>
    requires { plain_macros macros.now ≡ first_of_names (flat_map macro_of (map written_item model.now.items)) }
    ensures ok { let m = written_model model.now in
        IfOk result (λ axioms. IsExpandable m × AreExpansions m axioms.items) }
    ensures err { IfErr result (λ fault. IsFirstMacroFault (written_model model.now) fault) }
{
    let items = model.items.as_slice();
    check_items(alloc, macros, items)?;
    check_sizes(alloc, macros, items)?;
    Ok(expand_axioms(alloc, macros, items)?)
}
