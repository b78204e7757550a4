ghost use Rattle.std.specs.Prelude.{◌≡◌, ◌≢◌, ◌+◌, ◌<◌, ◌≤◌, ℕ, List, [], ◌∷◌, length, slice_index, slice_index_or, replicate, vec_len, vec_capacity, All, IfOk, OnOk};
ghost use Rattle.pc_common.specs.Chain.{Reach};
ghost use Rattle.pc_common.specs.declared.limits.TheConstants.{MAX_NODES};
ghost use Rattle.order_graph.specs.Ways.{IsBelow, IsWay};
ghost use Rattle.pc_ground.specs.Literals.{Joins};
ghost use Rattle.pc_ground.specs.declared.literal.Literal.TheVariants.{Edge};
ghost use Rattle.order_graph.specs.Levels.{AreLists, HasFollowed, HasListed, HasRaised, HasNext, IsNext, IsSearched, OnList, far, found};

use pc_common::Memory;
use pc_ground::Literal;
use std::alloc::Global;

/// The level of a node from which the target was not reached.
pub const FAR: u32 = u32::MAX;

/// Puts the literal that comes next on the list of the node that its edge leads to. One that asserts no edge
/// is on no list. The links have room for it.
fn put_on_list(heads: &mut [usize], links: &mut Vec<usize>, literal: Literal<u32>)
    requires below { IsBelow (length heads.old) literal }
    requires room { vec_len links.old < vec_capacity links.old }
    ensures listed { HasListed literal heads.old links.old.items heads.new links.new.items }
    ensures room { vec_capacity links.new ≡ vec_capacity links.old }
{
    match literal {
        Literal::Edge(_, to) => {
            links.push_reserved(heads[to as usize]);
            heads[to as usize] = links.len();
        }
        Literal::Node(_) | Literal::NoNode(_) | Literal::NoEdge(_, _) => links.push_reserved(0),
    }
}

/// The edges into each node, as linked lists: for each node the last literal that asserts an edge into it,
/// and for each such literal the one before it. Literal k is k + 1 there, and none is 0.
fn edge_lists(
    alloc: Global,
    nodes: usize,
    literals: &[Literal<u32>],
) -> Result<(Vec<usize>, Vec<usize>), Memory>
    requires { All (IsBelow nodes) literals.now }
    ensures { IfOk result (λ lists. AreLists literals.now nodes (length literals.now) lists.0.items lists.1.items) }
{
    let mut heads: Vec<usize> = vec![in alloc; 0; nodes]?;
    let mut links: Vec<usize> = Vec::with_capacity(alloc, literals.len())?;
    for literal in literals {
        put_on_list(&mut heads, &mut links, *literal);
    }
    Ok((heads, links))
}

/// Gives `from`, with an edge to `to`, the level after that of `to` where it has none, and puts it last in
/// the queue. `to` is the next node of `from` then, and where it is lower than that and no further away.
fn raise(
    levels: &mut [u32],
    nexts: &mut [u32],
    queue: &mut Vec<u32>,
    from: u32,
    to: u32,
) -> Result<(), Memory>
    requires from_in { from < length levels.old }
    requires to_in { to < length levels.old }
    requires all { length nexts.old ≡ length levels.old }
    requires low { slice_index levels.old to + 1 < far }
    ensures { OnOk result
        (HasRaised (found levels.old nexts.old queue.old.items) from to (found levels.new nexts.new queue.new.items)) }
{
    let level = levels[to as usize] + 1;
    if levels[from as usize] == FAR {
        queue.push(from)?;
        levels[from as usize] = level;
        nexts[from as usize] = to;
        return Ok(());
    }
    if levels[from as usize] == level && to < nexts[from as usize] {
        nexts[from as usize] = to;
        return Ok(());
    }
    Ok(())
}

/// Follows the edge that the literal asserts, where it leads to `node`.
fn follow(
    levels: &mut [u32],
    nexts: &mut [u32],
    queue: &mut Vec<u32>,
    literal: Literal<u32>,
    node: u32,
) -> Result<(), Memory>
    requires below { IsBelow (length levels.old) literal }
    requires node_in { node < length levels.old }
    requires all { length nexts.old ≡ length levels.old }
    requires low { slice_index levels.old node + 1 < far }
    ensures { OnOk result
        (HasFollowed literal node
        (found levels.old nexts.old queue.old.items) (found levels.new nexts.new queue.new.items)) }
{
    match literal {
        Literal::Edge(from, to) => {
            if to == node {
                return raise(levels, nexts, queue, from, node);
            }
            Ok(())
        }
        Literal::Node(_) | Literal::NoNode(_) | Literal::NoEdge(_, _) => Ok(()),
    }
}

/// Follows the edges into `node` backwards, which are on the list of the literal numbered `head`. The target
/// and how many nodes were done before stand in contracts alone.
fn visit(
    levels: &mut [u32],
    nexts: &mut [u32],
    queue: &mut Vec<u32>,
    literals: &[Literal<u32>],
    links: &[usize],
    head: usize,
    node: u32,
    target: u32,
    done: usize,
) -> Result<(), Memory>
    requires below { All (IsBelow (length levels.old)) literals.now }
    requires few { length levels.old + 2 < far }
    requires searched { IsSearched literals.now target (length levels.old) done
        levels.old nexts.old queue.old.items }
    requires node_is { (done < length queue.old.items) × (slice_index queue.old.items done ≡ node) }
    requires links_all { length links.now ≡ length literals.now }
    requires head_in { head ≤ length literals.now }
    requires falling { (j : ℕ) → slice_index links.now j ≤ j }
    requires all { (k a : ℕ) → k < length literals.now
        → slice_index_or literals.now k (Edge a node) ≡ Edge a node → OnList links.now head k }
    ensures { OnOk result
        (IsSearched literals.now target (length levels.old) (done + 1) levels.new nexts.new queue.new.items) }
{
    let mut at = head;
    while at > 0 {
        at -= 1;
        follow(levels, nexts, queue, literals[at], node)?;
        at = links[at];
    }
    Ok(())
}

/// Gives each node from which a chain leads to `target` its level and its next node, where only `target`
/// has a level. It stops at the level of `from`, from which one leads there: nodes as far away are on no
/// shortest chain from it.
fn spread(
    levels: &mut [u32],
    nexts: &mut [u32],
    queue: &mut Vec<u32>,
    literals: &[Literal<u32>],
    heads: &[usize],
    links: &[usize],
    from: u32,
    target: u32,
) -> Result<(), Memory>
    requires below { All (IsBelow (length levels.old)) literals.now }
    requires few { length levels.old + 2 < far }
    requires searched { IsSearched literals.now target (length levels.old) 0 levels.old nexts.old queue.old.items }
    requires lists { AreLists literals.now (length levels.old) (length literals.now) heads.now links.now }
    requires from_in { from < length levels.old }
    requires there { Reach (Joins literals.now) from target }
    ensures searched { OnOk result ((done : ℕ) × IsSearched literals.now target (length levels.old) done
        levels.new nexts.new queue.new.items) }
    ensures near { OnOk result (slice_index levels.new from ≢ far) }
{
    let mut done = 0;
    while done < queue.len() {
        let node = queue[done];
        if levels[node as usize] >= levels[from as usize] {
            return Ok(());
        }
        let head = heads[node as usize];
        visit(
            levels, nexts, queue, literals, links, head, node, target, done,
        )?;
        done += 1;
    }
    Ok(())
}

/// The nodes from `from` to the node at level 0, each the next one of that before.
fn walk(
    alloc: Global,
    levels: &[u32],
    nexts: &[u32],
    from: u32,
    to: u32,
) -> Result<Vec<u32>, Memory>
    requires all { length nexts.now ≡ length levels.now }
    requires from_in { from < length levels.now }
    requires next { HasNext to levels.now nexts.now }
    requires near { slice_index levels.now from ≢ far }
    ensures { IfOk result (λ way. IsWay (IsNext levels.now nexts.now) from way.items to) }
{
    let mut way: Vec<u32> = vec![in alloc; from]?;
    let mut at = from;
    while levels[at as usize] > 0 {
        at = nexts[at as usize];
        way.push(at)?;
    }
    Ok(way)
}

/// The way of `way`, where no node has a level yet.
fn way_back(
    alloc: Global,
    levels: &mut [u32],
    nexts: &mut [u32],
    literals: &[Literal<u32>],
    heads: &[usize],
    links: &[usize],
    from: u32,
    to: u32,
) -> Result<Vec<u32>, Memory>
    requires few { length levels.old + 2 < far }
    requires clear { levels.old ≡ replicate (length levels.old) far }
    requires all { length nexts.old ≡ length levels.old }
    requires below { All (IsBelow (length levels.old)) literals.now }
    requires lists { AreLists literals.now (length levels.old) (length literals.now) heads.now links.now }
    requires from_in { from < length levels.old }
    requires to_in { to < length levels.old }
    requires there { Reach (Joins literals.now) from to }
    ensures { IfOk result (λ way. IsWay (Joins literals.now) from way.items to) }
{
    let mut queue: Vec<u32> = vec![in alloc; to]?;
    levels[to as usize] = 0;
    spread(levels, nexts, &mut queue, literals, heads, links, from, to)?;
    walk(alloc, levels, nexts, from, to)
}

/// A shortest way over the asserted edges from `from` to `to`, which there is: its nodes, `from` first and
/// `to` last, the one node where they are one. Of several shortest ways it is the one with the lowest number
/// at the first place where they differ.
///
/// Breadth first, from the end backwards (Moore 1959), in time of nodes and literals.
pub fn way(
    alloc: Global,
    nodes: u32,
    literals: &[Literal<u32>],
    from: u32,
    to: u32,
) -> Result<Vec<u32>, Memory>
    requires few { nodes ≤ MAX_NODES }
    requires below { All (IsBelow nodes) literals.now }
    requires from_in { from < nodes }
    requires to_in { to < nodes }
    requires there { Reach (Joins literals.now) from to }
    ensures { IfOk result (λ way. IsWay (Joins literals.now) from way.items to) }
{
    let (heads, links) = edge_lists(alloc, nodes as usize, literals)?;
    let mut levels: Vec<u32> = vec![in alloc; FAR; nodes as usize]?;
    let mut nexts: Vec<u32> = vec![in alloc; 0; nodes as usize]?;
    way_back(
        alloc,
        &mut levels,
        &mut nexts,
        literals,
        &heads,
        &links,
        from,
        to,
    )
}
