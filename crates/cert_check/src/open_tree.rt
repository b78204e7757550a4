ghost use Rattle.std.specs.Prelude.{◌≡◌, ◌≤◌, ◌↔◌, true, [], ◌∷◌, ℕ, List, IfOk, codes};
ghost use Rattle.pc_common.specs.World.{Node};
ghost use Rattle.pc_common.specs.Lines.{Line, verdict, unobservable, second_text};
ghost use Rattle.pc_ground.specs.Tree.{Tree};
ghost use Rattle.pc_ground.specs.declared.version.Version.{Version};
ghost use Rattle.pc_ground.specs.Refutes.{Branch};
ghost use Rattle.refutation.specs.Words.{spaces as spaces_in};
ghost use Rattle.tree_check.specs.OpenBranches.{Stands};
ghost use Rattle.cert_check.specs.Certificates.{Question};
ghost use Rattle.cert_check.specs.Proper.{IsGrounded};
ghost use Rattle.cert_check.specs.Stages.{GoesOn, HasAdvanced, StepsOn, IsTreeSoFar};
ghost use Rattle.cert_check.specs.declared.stage.Stage.TheVariants.{Tree as TreeStage};

use pc_common::Memory;
use pc_ground::{Flat, NodeText};
use refutation::{NodeRow, read_line};
use std::alloc::Global;
use tree_check::Branches;

/// A refutation so far.
pub(crate) struct OpenTree<'a> {
    /// The branches that its steps leave open.
    pub(crate) branches: Branches<'a>,
    /// Whether no line has come after the header yet, so that the next one may say the version.
    pub(crate) is_new: bool,
}

// By hand: docs/DECISIONS.md, "Drops are written by hand".
impl Drop for OpenTree<'_> {
    fn drop(self) {
        let OpenTree {
            branches: _,
            is_new: _,
        } = self;
    }
}

/// How many spaces there are in the line.
fn spaces(line: &[u8]) -> usize
    ensures { result ≡ spaces_in line.now }
{
    line.iter().filter(|byte| **byte == b' ').count()
}

/// How many nodes there is room for from the first line on: no line of so many bytes has more.
const SHORT: usize = 256;

/// Room for the nodes of a line. The spaces of a short one need not be counted.
pub(crate) fn room_for(line: &[u8]) -> usize
    ensures { spaces_in line.now ≤ result }
{
    if line.len() <= SHORT {
        SHORT
    } else {
        spaces(line)
    }
}

/// Takes a step line.
fn take_line(
    names: &NodeText<'_>,
    row: &mut NodeRow,
    branches: &mut Branches<'_>,
    line: &[u8],
) -> Result<bool, Memory>
    ensures { IfOk result (λ good. (v : Version) (t : Tree Node) (opens : List Branch) → Stands branches.old v t opens
        → StepsOn names.now v t opens line.now branches.new good) }
{
    row.reserve(room_for(line))?;
    match read_line(names, line, row) {
        Ok(head) => branches.take(head.kind(row.as_slice())),
        Err(_) => Ok(false),
    }
}

impl<'a> OpenTree<'a> {
    /// The refutation of no step of this tree, after the two lines of a header.
    pub(crate) fn new(alloc: Global, tree: &'a Flat) -> Result<OpenTree<'a>, Memory>
        ensures { IfOk result (λ made. (q : Question) → IsGrounded q tree.now
            → (lines : List Line) → lines ≡ verdict unobservable ∷ []
            → (text : List ℕ) → text ≡ second_text unobservable q.expectation
            → GoesOn q lines text (TreeStage made)) }
    {
        Ok(OpenTree {
            branches: Branches::new(alloc, tree)?,
            is_new: true,
        })
    }

    /// Takes the next line, which is not the last one: the line of version 2 after the header, or a step line.
    /// Returns whether a certificate goes on so. After false, or where memory is refused, nothing is said of the
    /// refutation.
    pub(crate) fn take(
        &mut self,
        names: &NodeText<'_>,
        row: &mut NodeRow,
        line: &[u8],
    ) -> Result<bool, Memory>
        ensures { IfOk result (λ good. (q : Question) → names.now ≡ q.names → (lines : List Line)
            → IsTreeSoFar q self.old lines → (line.now ≡ codes "end" → ⊥)
            → HasAdvanced q lines line.now (TreeStage self.new) good) }
    {
        let says_two = self.may_say_two(line);
        self.is_new = false;
        if says_two {
            self.branches.begin_two();
            return Ok(true);
        }
        take_line(names, row, &mut self.branches, line)
    }

    /// Whether the line says that the refutation is of version 2, and stands where it may.
    fn may_say_two(&self, line: &[u8]) -> bool
        ensures { (result ≡ true) ↔ ((self.now.is_new ≡ true) × (line.now ≡ codes "version 2")) }
    {
        self.is_new && line == b"version 2".as_slice()
    }
}
