ghost use Rattle.std.specs.Prelude.{◌≡◌, ◌+◌, ◌<◌, ◌^◌, [], map, length, IfOk, OnOk};
ghost use Rattle.std.specs.List.{flat_map};
ghost use Rattle.pc_syntax.specs.Written.{written_item};
ghost use Rattle.pc_syntax.specs.Observable.{macro_of};
ghost use Rattle.pc_syntax.specs.MacroFaults.{items_fault};
ghost use Rattle.macro_expand.specs.Tables.{plain_macros, first_of_names, item_fault};
ghost use Rattle.macro_expand.specs.Faults.{Judges};

use super::calls::{check_body, check_macro};
use super::fault::MacroFault;
use super::macros::Macros;
use pc_syntax::Item;
use std::alloc::Global;

/// Whether an item has no macro fault, where the first `earlier` macros are before it: how many are
/// before the next one.
///
/// An axiom may name any macro of the file, and a macro the earlier ones.
fn check_item(
    alloc: Global,
    macros: &Macros<'_>,
    earlier: usize,
    item: &Item,
) -> Result<usize, MacroFault>
    requires { earlier < 2 ^ 63 }
    ensures judged { Judges (item_fault (plain_macros macros.now) earlier (written_item item.now)) result }
    ensures counted { IfOk result (λ next. next ≡ earlier + length (macro_of (written_item item.now))) }
{
    match item {
        Item::Axiom { body, .. } => {
            check_body(macros, macros.len(), body)?;
            Ok(earlier)
        }
        Item::Macro {
            name,
            parameters,
            body,
        } => {
            check_macro(alloc, macros, earlier, name, parameters, body)?;
            Ok(earlier + 1)
        }
    }
}

/// Whether the items have no macro fault, where `macros` has the first of each name. If so, it has all.
pub(crate) fn check_items(
    alloc: Global,
    macros: &Macros<'_>,
    items: &[Item],
) -> Result<(), MacroFault>
    requires macros { plain_macros macros.now ≡ first_of_names (flat_map macro_of (map written_item items.now)) }
    requires bound { length items.now < 2 ^ 63 }
    ensures judged { let items = map written_item items.now in
        Judges (items_fault (flat_map macro_of items) [] items) result }
    ensures all { OnOk result (plain_macros macros.now ≡ flat_map macro_of (map written_item items.now)) }
{
    let mut earlier = 0;
    for item in items {
        earlier = check_item(alloc, macros, earlier, item)?;
    }
    Ok(())
}
