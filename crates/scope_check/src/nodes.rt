ghost use Rattle.std.specs.Prelude.{◌≡◌, ◌<◌, List, [], Option, IfOk, IfErr, None, map, option_map, unwrap_or};
ghost use Rattle.pc_syntax.specs.declared.model.StageItem.{StageItem as SStageItem};
ghost use Rattle.pc_syntax.specs.Scope.{Binding};
ghost use Rattle.pc_syntax.specs.Stages.{stage_number_of};
ghost use Rattle.pc_syntax.specs.Fault.{Fault, first_fault};
ghost use Rattle.pc_syntax.specs.StageFaults.{stages_fault};
ghost use Rattle.pc_syntax.specs.NameFaults.{stage_name_fault, location_fault, node_fault, edge_fault};
ghost use Rattle.pc_syntax.specs.Closed.{plain_closed, closed_nodes, closed_edges};
ghost use Rattle.pc_syntax.specs.Closing.{closing_of_value, closing_of_node, closing_of_edge};
ghost use Rattle.scope_check.specs.FirstFault.{Answers};

use super::arguments::{close_core, variable_slot};
use super::fault::NameFault;
use super::scope::Scope;
use pc_common::{Listed, Shared};
use pc_syntax::{
    Arg, ClosedArg, ClosedEdge, ClosedFormula, ClosedNode, EdgeTerm, EdgeTerms, NodeTerm,
    NodeTerms, Sort, StageItem, StageItems, Word,
};
use std::alloc::Global;

/// The number of the first stage of this name. Without stage faults there are at most 64 to walk.
fn number_named(stages: &[StageItem], name: &[u8]) -> Option<u64>
    ensures { result ≡ stage_number_of stages.now name.now }
{
    for stage in stages {
        if stage.name.name.as_slice() == name {
            return Some(stage.number);
        }
    }
    None
}

/// The number of the stage that a word names: 0 to 63.
fn stage_number(stages: &StageItems, word: &Word) -> Result<u8, NameFault>
    requires { stages_fault [] stages.now ≡ None }
    ensures ok { IfOk result (λ number. (stage_name_fault stages.now word.now ≡ None)
        × (number ≡ unwrap_or (stage_number_of stages.now word.now.name) 0)) }
    ensures err { IfErr result (Answers (stage_name_fault stages.now word.now)) }
{
    match number_named(stages.as_slice(), word.name.as_slice()) {
        Some(number) => Ok(number as u8),
        None => Err(NameFault::UnknownStage { at: word.at }),
    }
}

/// The core of a location, if it names one.
fn close_location(scope: &Scope<'_>, core: &Option<Arg>) -> Result<Option<ClosedArg>, NameFault>
    ensures ok { IfOk result (λ closed. (location_fault scope.now core.now ≡ None)
        × (closed ≡ option_map (closing_of_value scope.now) core.now)) }
    ensures err { IfErr result (Answers (location_fault scope.now core.now)) }
{
    match core {
        Some(core) => Ok(Some(close_core(scope, core)?)),
        None => Ok(None),
    }
}

/// A node or an edge as written.
pub(crate) trait Term {
    type Closed: Drop;

    /// Its first fault, among these stages and variables.
    ghost fault: { List SStageItem → List Binding → Self → Option Fault };

    /// What it is with its names resolved, where it has no fault.
    ghost closing: { List SStageItem → List Binding → Self → Self.Closed };

    /// It with its names resolved. An `Err` is its first fault, unless memory was refused.
    fn close(&self, stages: &StageItems, scope: &Scope<'_>) -> Result<Self::Closed, NameFault>
        requires { stages_fault [] stages.now ≡ None }
        ensures ok { IfOk result (λ closed. (fault stages.now scope.now self.now ≡ None)
            × (closed ≡ closing stages.now scope.now self.now)) }
        ensures err { IfErr result (Answers (fault stages.now scope.now self.now)) };
}

/// Its micro-op is judged, then its core, then its stage.
impl Term for NodeTerm {
    type Closed = ClosedNode;

    ghost fault = { node_fault };

    ghost closing = { closing_of_node };

    fn close(&self, stages: &StageItems, scope: &Scope<'_>) -> Result<ClosedNode, NameFault> {
        let op = variable_slot(scope, Sort::Microop, &self.op)?;
        let core = close_location(scope, &self.core)?;
        let stage = stage_number(stages, &self.stage)?;
        Ok(ClosedNode { op, core, stage })
    }
}

/// Its first node is judged, then its second.
impl Term for EdgeTerm {
    type Closed = ClosedEdge;

    ghost fault = { edge_fault };

    ghost closing = { closing_of_edge };

    fn close(&self, stages: &StageItems, scope: &Scope<'_>) -> Result<ClosedEdge, NameFault> {
        let from = self.from.close(stages, scope)?;
        let to = self.to.close(stages, scope)?;
        Ok(ClosedEdge { from, to })
    }
}

/// A list of nodes or of edges.
pub(crate) fn close_list<T: Term>(
    alloc: Global,
    stages: &StageItems,
    scope: &Scope<'_>,
    terms: &Shared<T>,
) -> Result<Listed<T::Closed>, NameFault>
    requires { stages_fault [] stages.now ≡ None }
    ensures ok { let fault = first_fault (T.fault stages.now scope.now) terms.now in
        IfOk result (λ closed. (fault ≡ None) × (closed ≡ map (T.closing stages.now scope.now) terms.now)) }
    ensures err { IfErr result (Answers (first_fault (T.fault stages.now scope.now) terms.now)) }
{
    let mut closed = Listed::new(alloc);
    for term in terms.as_slice() {
        closed.push(term.close(stages, scope)?)?;
    }
    Ok(closed)
}

/// Some node of a list, as a formula.
pub(crate) fn close_nodes(
    alloc: Global,
    stages: &StageItems,
    scope: &Scope<'_>,
    nodes: &NodeTerms,
) -> Result<ClosedFormula, NameFault>
    requires { stages_fault [] stages.now ≡ None }
    ensures ok { let fault = first_fault (node_fault stages.now scope.now) nodes.now in
        IfOk result (λ f. (fault ≡ None)
        × (plain_closed f ≡ closed_nodes (map (closing_of_node stages.now scope.now) nodes.now))) }
    ensures err { IfErr result (Answers (first_fault (node_fault stages.now scope.now) nodes.now)) }
{
    Ok(ClosedFormula::Nodes(close_list(alloc, stages, scope, nodes)?))
}

/// Some edge of a list, as a formula.
pub(crate) fn close_edges(
    alloc: Global,
    stages: &StageItems,
    scope: &Scope<'_>,
    edges: &EdgeTerms,
) -> Result<ClosedFormula, NameFault>
    requires { stages_fault [] stages.now ≡ None }
    ensures ok { let fault = first_fault (edge_fault stages.now scope.now) edges.now in
        IfOk result (λ f. (fault ≡ None)
        × (plain_closed f ≡ closed_edges (map (closing_of_edge stages.now scope.now) edges.now))) }
    ensures err { IfErr result (Answers (first_fault (edge_fault stages.now scope.now) edges.now)) }
{
    Ok(ClosedFormula::Edges(close_list(alloc, stages, scope, edges)?))
}
