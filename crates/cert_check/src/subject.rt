ghost use Rattle.std.specs.Prelude.{◌≡◌};
ghost use Rattle.cert_check.specs.Questions.{question_of, question_of_parts};
ghost use Rattle.cert_check.specs.Proper.{IsAsked};
ghost use Rattle.cert_check.specs.Subjects.{question_of_subject, IsSubject, HasTree};

use super::next::show_asked;
use pc_case::Case;
use pc_ground::{Axioms, Flat, Front, NodeText, Parts};

/// What certificates are judged against: a test, a model's closed axioms, what nodes are written by, and the ground
/// tree. Without a tree no refutation can be judged.
pub(crate) struct Subject<'a> {
    pub(crate) case: &'a Case,
    pub(crate) axioms: &'a Axioms,
    pub(crate) names: NodeText<'a>,
    pub(crate) tree: Option<&'a Flat>,
}

// By hand: docs/DECISIONS.md, "Drops are written by hand".
impl Drop for Subject<'_> {
    fn drop(self) {
        let Subject {
            case: _,
            axioms: _,
            names: _,
            tree: _,
        } = self;
    }
}

impl<'a> Subject<'a> {
    /// The subject of a front, with its tree. Takes no memory.
    pub(crate) fn of(front: &'a Front) -> Subject<'a>
        ensures asks { question_of_subject result ≡ question_of front.now }
        ensures asked { IsAsked (question_of front.now) }
        ensures subject { IsSubject result }
        ensures tree { HasTree result }
    {
        let names = NodeText::of(front);
        show_asked(front, &names);
        Subject {
            case: &front.case,
            axioms: &front.axioms,
            names,
            tree: Some(&front.tree),
        }
    }

    /// The subject of parts, without a tree. Takes no memory.
    pub(crate) fn of_parts(parts: &'a Parts) -> Subject<'a>
        ensures asks { question_of_subject result ≡ question_of_parts parts.now }
        ensures subject { IsSubject result }
    {
        Subject {
            case: &parts.case,
            axioms: &parts.axioms,
            names: NodeText::of_parts(parts),
            tree: None,
        }
    }
}
