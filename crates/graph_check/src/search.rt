ghost use Rattle.std.specs.Prelude.{◌≡◌, ◌<◌, [], ℕ, true, length, IfOk, OnOk, MatchBool, MatchOption};
ghost use Rattle.pc_common.specs.Elements.{In};
ghost use Rattle.pc_common.specs.Chain.{Chain, Acyclic};
ghost use Rattle.graph_check.specs.Arcs.{Joins};
ghost use Rattle.graph_check.specs.Searches.{progress, with_visit, mark_of, nodes_of, IsSearching, IsTopological, IsFurther, steps_left};
ghost use Rattle.graph_check.specs.declared.search.Mark.TheVariants.{New};

use super::adjacency::Adjacency;
use pc_common::Memory;
use std::alloc::Global;

/// How far a search is with a node.
#[derive(Clone, Copy)]
pub(crate) enum Mark {
    New,
    /// It is on the path: its edges are being followed.
    Open,
    /// It is after all that its edges lead to.
    Done,
}

/// A node of the path, and where the walk over its edges is.
#[derive(Clone, Copy)]
pub(crate) struct Visit {
    node: usize,
    at: usize,
}

/// A search along the edges, depth first. Its path is a list, so that no call nests as deep as a chain.
#[derive(Drop)]
pub(crate) struct Search {
    marks: Vec<Mark>,
    path: Vec<Visit>,
    order: Vec<usize>,
}

/// Puts a new node last on the path.
fn open(search: &mut Search, adjacency: &Adjacency, node: usize) -> Result<(), Memory>
    requires searching { IsSearching adjacency.now (progress search.old) }
    requires node_in { node < length adjacency.now.heads }
    requires is_new { mark_of search.old.marks.items node ≡ New }
    requires led { (a : ℕ) → In a (nodes_of search.old.path.items) → Chain (Joins adjacency.now) a node }
    ensures searching { OnOk result (IsSearching adjacency.now (progress search.new)) }
    ensures less { OnOk result
        (steps_left adjacency.now (progress search.new) < steps_left adjacency.now (progress search.old)) }
    ensures further { OnOk result (IsFurther search.old.marks.items search.new.marks.items) }
    ensures marked { OnOk result (mark_of search.new.marks.items node ≡ New → ⊥) }
{
    search.path.push(Visit {
        node,
        at: adjacency.first(node),
    })?;
    search.marks[node] = Mark::Open;
    Ok(())
}

/// Goes on with the last node of the path, `visit`, which was taken off it: follows its next edge, or is done
/// with it. Returns false where the edge leads back to the path.
fn step(search: &mut Search, adjacency: &Adjacency, visit: Visit) -> Result<bool, Memory>
    requires { IsSearching adjacency.now (with_visit (progress search.old) visit) }
    ensures searching { IfOk result (λ good. MatchBool good (IsSearching adjacency.now (progress search.new))
        (Acyclic (Joins adjacency.now) → ⊥)) }
    ensures less { IfOk result (λ good. good ≡ true
        → steps_left adjacency.now (progress search.new)
        < steps_left adjacency.now (with_visit (progress search.old) visit)) }
    ensures further { OnOk result (IsFurther search.old.marks.items search.new.marks.items) }
{
    let Visit { node, at } = visit;
    if at == 0 {
        search.marks[node] = Mark::Done;
        search.order.push(node)?;
        return Ok(true);
    }
    let arc = adjacency.arc(at);
    match search.marks[arc.to as usize] {
        Mark::New => {
            search.path.push(visit)?;
            open(search, adjacency, arc.to as usize)?;
            Ok(true)
        }
        Mark::Open => Ok(false),
        Mark::Done => {
            search.path.push(Visit {
                node,
                at: arc.before,
            })?;
            Ok(true)
        }
    }
}

/// Goes on until the path is empty. Returns false where the edges have a cycle.
fn run(search: &mut Search, adjacency: &Adjacency) -> Result<bool, Memory>
    requires { IsSearching adjacency.now (progress search.old) }
    ensures searching { IfOk result (λ good. MatchBool good
        (IsSearching adjacency.now (progress search.new) × (search.new.path.items ≡ []))
        (Acyclic (Joins adjacency.now) → ⊥)) }
    ensures further { OnOk result (IsFurther search.old.marks.items search.new.marks.items) }
{
    while let Some(visit) = search.path.pop() {
        if !step(search, adjacency, visit)? {
            return Ok(false);
        }
    }
    Ok(true)
}

/// Searches from a node, where it is new. Returns false where the edges have a cycle.
fn search_from(search: &mut Search, adjacency: &Adjacency, node: usize) -> Result<bool, Memory>
    requires searching { IsSearching adjacency.now (progress search.old) }
    requires at_rest { search.old.path.items ≡ [] }
    requires node_in { node < length adjacency.now.heads }
    ensures searching { IfOk result (λ good. MatchBool good
        (IsSearching adjacency.now (progress search.new) × (search.new.path.items ≡ []))
        (Acyclic (Joins adjacency.now) → ⊥)) }
    ensures further { OnOk result (IsFurther search.old.marks.items search.new.marks.items) }
    ensures marked { OnOk result (mark_of search.new.marks.items node ≡ New → ⊥) }
{
    match search.marks[node] {
        Mark::New => {
            open(search, adjacency, node)?;
            run(search, adjacency)
        }
        _ => Ok(true),
    }
}

/// All nodes, each after those that its edges lead to; None where the edges have a cycle.
///
/// It takes time and memory in proportion to nodes and edges. The one error is that memory was refused.
pub(crate) fn topological_order(
    alloc: Global,
    adjacency: &Adjacency,
) -> Result<Option<Vec<usize>>, Memory>
    ensures { IfOk result (λ found. MatchOption found (Acyclic (Joins adjacency.now) → ⊥)
        (λ order. IsTopological adjacency.now order.items)) }
{
    let nodes = adjacency.nodes();
    let mut search = Search {
        marks: vec![in alloc; Mark::New; nodes]?,
        path: Vec::new(alloc),
        order: Vec::new(alloc),
    };
    for node in 0..nodes {
        if !search_from(&mut search, adjacency, node)? {
            return Ok(None);
        }
    }
    Ok(Some(search.order))
}
