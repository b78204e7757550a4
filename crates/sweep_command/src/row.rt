ghost use Rattle.std.specs.Prelude.{◌≡◌, ◌<◌, IfOk};
ghost use Rattle.pc_common.specs.World.{Node as PlainNode};
ghost use Rattle.pc_ground.specs.Tree.{Tree};
ghost use Rattle.pc_ground.specs.Rows.{rows_of};
ghost use Rattle.pc_ground.specs.Folded.{IsFolded};
ghost use Rattle.pc_ground.specs.Numbers.{numbered};
ghost use Rattle.pc_ground.specs.Stages.{plain_axioms};
ghost use Rattle.pc_ground.specs.GroundTree.{closed_ground_tree};
ghost use Rattle.pc_ground.specs.declared.version.Version.TheVariants.{One};
ghost use Rattle.solver.specs.Answers.{IsAnswer};
ghost use Rattle.sweep_command.specs.Sweeps.{IsAnswerTo, is_graph};

use grounder::ground;
use normal_form::{normalise, number};
use pc_case::Case;
use pc_common::Memory;
use pc_ground::{Flat, Numbering, Version};
use pc_syntax::Closed;
use solver::{Answer, solve};
use std::alloc::Global;
use std::marker::Brand;
use std::sync::ledger::{Blank, Ledger};
use undo_trail::Steps;

/// The ground tree of the axioms in the case.
fn tree_of(alloc: Global, axioms: &[Closed], case: &Case) -> Result<Flat, Memory>
    ensures { IfOk result (λ t. t ≡ rows_of (closed_ground_tree case.now (plain_axioms axioms.now))) }
{
    let ground = ground(alloc, case, axioms)?;
    normalise(alloc, &ground)
}

/// What the search finds of a tree. The ledger is of this call alone: nobody reads its count of steps.
fn search<L: Ledger>(
    alloc: Global,
    tree: &Flat,
    numbering: &Numbering,
    blank: Blank,
) -> Result<Answer, Memory>
    requires numbered { (t : Tree PlainNode) → tree.now ≡ rows_of t → numbering.now ≡ numbered t }
    requires folded { (t : Tree PlainNode) → tree.now ≡ rows_of t → IsFolded t }
    requires name { blank.name ≡ L.name }
    requires parts { blank.parts ≡ L.parts }
    requires whole { 0 < L.parts }
    ensures { IfOk result (λ answer. (t : Tree PlainNode) → tree.now ≡ rows_of t
        → IsAnswer One numbering.now t answer) }
{
    let mut steps: Steps<L> = Steps::open(blank);
    solve(alloc, tree, numbering, Version::One, &mut steps)
}

/// Whether a graph was found.
fn has_graph(found: &Answer) -> bool
    ensures { result ≡ is_graph found.now }
{
    matches!(found, Answer::Observable(_))
}

/// Whether some world makes every axiom true of the case. The one error is that memory was refused.
pub(crate) fn is_observable(alloc: Global, axioms: &[Closed], case: &Case) -> Result<bool, Memory>
    ensures { IfOk result (IsAnswerTo (plain_axioms axioms.now) case.now) }
{
    let tree = tree_of(alloc, axioms, case)?;
    let numbering = number(alloc, &tree)?;
    let found = search::<Brand>(alloc, &tree, &numbering, Blank::new(1))?;
    Ok(has_graph(&found))
}
