ghost use Rattle.std.specs.Prelude.{◌≡◌, [], IfOk, MatchOption};
ghost use Rattle.pc_syntax.specs.MacroFaults.{parameters_fault};
ghost use Rattle.macro_expand.specs.Tables.{IsNewWord, IsSeenAt};
ghost use Rattle.macro_expand.specs.Faults.{Judges};

use super::fault::MacroFault;
use indexmap::IndexMap;
use pc_common::{Memory, Place};
use pc_syntax::Word;
use std::alloc::Global;
use std::marker::Model;

/// Names with their places, of which no two are equal, looked up by hash.
struct Seen<'a> {
    places: IndexMap<&'a [u8], Place>,
}

// By hand: docs/DECISIONS.md, "Drops are written by hand".
impl Drop for Seen<'_> {
    fn drop(self) {
        let Seen { places: _ } = self;
    }
}

impl<'a> Model for Seen<'a> {
    ghost use Rattle.std.specs.Prelude.{List, map};
    ghost use Rattle.pc_syntax.specs.declared.term.Word.{Word as SWord};
    ghost use Rattle.macro_expand.specs.Tables.{word_at};

    ghost Value = { List SWord };

    ghost view = { λ s. map word_at s.places.entries };
}

impl<'a> Seen<'a> {
    /// No names. Takes no memory.
    fn new(alloc: Global) -> Self
        ensures { result ≡ [] }
    {
        Seen {
            places: IndexMap::new(alloc),
        }
    }

    /// Puts a name last, or gives the place that it was seen at before.
    fn enter(&mut self, word: &'a Word) -> Result<Option<Place>, Memory>
        ensures { IfOk result (λ before.
            MatchOption before (IsNewWord self.old word.now self.new) (IsSeenAt self.old word.now)) }
    {
        let name = word.name.as_slice();
        if let Some(place) = self.places.get(name) {
            return Ok(Some(*place));
        }
        self.places.insert(name, word.at)?;
        Ok(None)
    }
}

/// Whether a macro's parameters have different names.
///
/// Takes time and memory in proportion to the parameters.
pub(crate) fn check_parameters(alloc: Global, parameters: &[Word]) -> Result<(), MacroFault>
    ensures { Judges (parameters_fault [] parameters.now) result }
{
    let mut seen = Seen::new(alloc);
    for word in parameters {
        if let Some(first) = seen.enter(word)? {
            return Err(MacroFault::ParameterAgain {
                at: word.at,
                first,
                again: word.at,
            });
        }
    }
    Ok(())
}
