ghost use Rattle.std.specs.Prelude.{◌≡◌, IfOk, map};
ghost use Rattle.pc_syntax.specs.Expansion.{parameter_names};
ghost use Rattle.macro_expand.specs.Tables.{plain_macros};

use super::macros::Macros;
use pc_common::{Listed, Memory, Shared};
use pc_syntax::{Names, Words};
use std::alloc::Global;

/// The names of a macro's parameters, without their places.
fn names_of(alloc: Global, parameters: &Words) -> Result<Names, Memory>
    ensures { IfOk result (λ names. names ≡ map (λ w. w.name) parameters.now) }
{
    let mut names = Listed::new(alloc);
    for word in parameters.as_slice() {
        names.push(word.name.share()?)?;
    }
    Shared::from_listed(names)
}

/// The names of each macro's parameters, by the macros' numbers. Each expansion of a macro shares them.
pub(crate) fn names_of_macros(alloc: Global, macros: &Macros<'_>) -> Result<Vec<Names>, Memory>
    ensures { IfOk result (λ names. names.items ≡ map parameter_names (plain_macros macros.now)) }
{
    let mut names = Vec::new(alloc);
    for number in 0..macros.len() {
        names.push(names_of(alloc, macros.get(number).parameters)?)?;
    }
    Ok(names)
}
