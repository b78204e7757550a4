ghost use Rattle.std.specs.Prelude.{◌≡◌, ◌+◌, ◌≤◌, List, map, length, IfOk};
ghost use Rattle.pc_common.specs.declared.place.Place.{Place as SPlace};
ghost use Rattle.pc_syntax.specs.declared.limits.TheConstants.{MAX_SIZE};
ghost use Rattle.pc_syntax.specs.declared.term.Arg.{Arg};
ghost use Rattle.pc_syntax.specs.Written.{written, written_item, expand_};
ghost use Rattle.pc_syntax.specs.Sizes.{depth_fault, total_fault, sizes_fault};
ghost use Rattle.std.specs.Option.{option_or};
ghost use Rattle.macro_expand.specs.Tables.{before, plain_macros};
ghost use Rattle.macro_expand.specs.Measures.{measure_of, AreMeasures, item_size_fault, total_after};
ghost use Rattle.macro_expand.specs.Faults.{Judges};

use super::fault::MacroFault;
use super::macros::Macros;
use super::measure::Measure;
use pc_common::{Memory, Place};
use pc_syntax::{Formula, Item, MAX_HEIGHT, MAX_SIZE, Word};
use std::alloc::Global;

/// The measure of an expansion, `measures` being those of the macros that it may name.
fn measure_call(macros: &Macros<'_>, measures: &[Measure], name: &Word) -> Measure
    requires { AreMeasures (plain_macros macros.now) measures.now }
    ensures { (at : SPlace) (args : List Arg) →
        result ≡ measure_of (before (plain_macros macros.now) (length measures.now)) (expand_ at name.now args) }
{
    match macros.callee(name.name.as_slice(), measures.len()) {
        Some(callee) => measures[callee.number].raise(),
        None => Measure::atoms(0),
    }
}

/// The measure of a formula, `measures` being those of the macros that it may name.
///
/// Sizes and heights are counted up to one past the limit, so that macros that double stay within 64 bits.
/// It nests a call for each connective and quantifier above an atom.
fn measure(macros: &Macros<'_>, measures: &[Measure], formula: &Formula) -> Measure
    requires { AreMeasures (plain_macros macros.now) measures.now }
    ensures { result ≡ measure_of (before (plain_macros macros.now) (length measures.now)) (written formula.now) }
{
    match formula {
        Formula::Not(body)
        | Formula::Forall { body, .. }
        | Formula::Exists { body, .. }
        | Formula::Bind { body, .. } => { measure(macros, measures, body).raise() }
        Formula::And(left, right) | Formula::Or(left, right) | Formula::Implies(left, right) => {
            measure(macros, measures, left).join(measure(macros, measures, right))
        }
        Formula::Static { .. } => Measure::atoms(0),
        Formula::Nodes(nodes) => Measure::atoms(nodes.len()),
        Formula::Edges(edges) => Measure::atoms(edges.len()),
        Formula::Expand { name, .. } => measure_call(macros, measures, name),
    }
}

/// The measures of all macros' bodies, each once.
fn measure_macros(alloc: Global, macros: &Macros<'_>) -> Result<Vec<Measure>, Memory>
    ensures { IfOk result (λ measures. AreMeasures (plain_macros macros.now) measures.items
        × (length measures.items ≡ length macros.now)) }
{
    let mut measures = Vec::new(alloc);
    for number in 0..macros.len() {
        let body = macros.get(number).body;
        let measured = measure(macros, &measures, body);
        measures.push(measured)?;
    }
    Ok(measures)
}

/// Whether an axiom is within the limits, where those before it are of the size `total` together: the size
/// with this one. Its height is judged first.
fn check_size(at: Place, measured: Measure, total: u64) -> Result<u64, MacroFault>
    requires { total ≤ MAX_SIZE }
    ensures judged { let now = total + measured.size in
        Judges (option_or (depth_fault at measured.height) (total_fault at now)) result }
    ensures total { IfOk result (λ now. (now ≡ total + measured.size) × (now ≤ MAX_SIZE)) }
{
    if measured.height > MAX_HEIGHT {
        return Err(MacroFault::TooDeep {
            at,
            limit: MAX_HEIGHT,
        });
    }
    if measured.size > MAX_SIZE - total {
        return Err(MacroFault::TooBig {
            at,
            limit: MAX_SIZE,
        });
    }
    Ok(total + measured.size)
}

/// The same of an item: a macro counts only where an axiom expands it.
fn check_item_size(
    macros: &Macros<'_>,
    measures: &[Measure],
    item: &Item,
    total: u64,
) -> Result<u64, MacroFault>
    requires measures { AreMeasures (plain_macros macros.now) measures.now }
    requires total { total ≤ MAX_SIZE }
    ensures judged { let ms = before (plain_macros macros.now) (length measures.now) in
        Judges (item_size_fault ms total (written_item item.now)) result }
    ensures total { let ms = before (plain_macros macros.now) (length measures.now) in
        IfOk result (λ now. (now ≡ total_after ms total (written_item item.now)) × (now ≤ MAX_SIZE)) }
{
    match item {
        Item::Axiom { at, body } => check_size(*at, measure(macros, measures, body), total),
        Item::Macro { .. } => Ok(total),
    }
}

/// Whether the axioms are within the limits, `measures` being those of all macros.
fn check_measured(
    macros: &Macros<'_>,
    measures: &[Measure],
    items: &[Item],
) -> Result<(), MacroFault>
    requires { AreMeasures (plain_macros macros.now) measures.now }
    ensures { let ms = before (plain_macros macros.now) (length measures.now) in
        Judges (sizes_fault ms 0 (map written_item items.now)) result }
{
    let mut total = 0;
    for item in items {
        total = check_item_size(macros, measures, item, total)?;
    }
    Ok(())
}

/// Whether the axioms are within the limits. Nothing is expanded for it.
pub(crate) fn check_sizes(
    alloc: Global,
    macros: &Macros<'_>,
    items: &[Item],
) -> Result<(), MacroFault>
    ensures { let ms = before (plain_macros macros.now) (length macros.now) in
        Judges (sizes_fault ms 0 (map written_item items.now)) result }
{
    let measures = measure_macros(alloc, macros)?;
    check_measured(macros, &measures, items)
}
