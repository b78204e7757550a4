// The last check of a line: the marks of its page-table entry are 0 or 1.
ghost use Rattle.litmus_reader.specs.Content.{First, OverMark, MarkFault, ActionFault};
ghost use Rattle.litmus_reader.specs.Rows.{Answers};

use super::content_fault::ContentFault;
use super::item::{Action, Numeral, ValueText};
use pc_common::FaultKind;

/// The greatest value of a mark.
const MAX_MARK: u64 = 1;

fn large_mark_fault(mark: Numeral) -> Option<ContentFault>
    ensures { Answers (OverMark mark) result }
{
    if mark.value <= MAX_MARK {
        return None;
    }
    Some(ContentFault {
        kind: FaultKind::MarkValue { mark: mark.value },
        place: mark.at,
    })
}

fn marks_fault(accessed: Numeral, dirty: Numeral) -> Option<ContentFault>
    ensures { Answers (First (OverMark accessed) (OverMark dirty)) result }
{
    if let Some(fault) = large_mark_fault(accessed) {
        return Some(fault);
    }
    large_mark_fault(dirty)
}

/// The fault of a value's marks: of the accessed one before the dirty one.
pub(crate) fn mark_fault(value: ValueText) -> Option<ContentFault>
    ensures { Answers (MarkFault value) result }
{
    match value {
        ValueText::Number(_) => None,
        ValueText::Entry {
            accessed,
            dirty,
            ..
        } => marks_fault(accessed, dirty),
    }
}

/// The same of the value that is read or written.
pub(crate) fn action_fault(action: Action) -> Option<ContentFault>
    ensures { Answers (ActionFault action) result }
{
    match action {
        Action::Read(touch) | Action::Write(touch) => mark_fault(touch.value),
        Action::Fence => None,
    }
}
