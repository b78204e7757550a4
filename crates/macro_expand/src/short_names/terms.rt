ghost use Rattle.std.specs.Prelude.{◌≡◌, IfOk, map};
ghost use Rattle.pc_syntax.specs.Renaming.{Renaming, renamed_word, renamed_arg, renamed_node, renamed_edge, renamed_stage};
ghost use Rattle.macro_expand.specs.Numbers.{short_name};

use super::names::ShortNames;
use pc_common::{Listed, Memory, Shared};
use pc_syntax::{Arg, EdgeTerm, Name, NodeTerm, StageItem, Word};
use std::alloc::Global;

/// A name, or what has names in it.
pub(crate) trait Named: Drop + Sized {
    /// It with other names.
    ghost renamed: { Renaming → Self → Self };

    /// A copy with short names.
    fn shortened(&self, alloc: Global, names: &ShortNames<'_>) -> Result<Self, Memory>
        ensures { IfOk result (λ short. short ≡ renamed (short_name names.now) self.now) };
}

impl Named for Name {
    ghost renamed = { λ ρ name. ρ name };

    fn shortened(&self, alloc: Global, names: &ShortNames<'_>) -> Result<Name, Memory> {
        names.shorten(alloc, self)
    }
}

impl Named for Word {
    ghost renamed = { renamed_word };

    fn shortened(&self, alloc: Global, names: &ShortNames<'_>) -> Result<Word, Memory> {
        let name = names.shorten(alloc, &self.name)?;
        Ok(Word { name, at: self.at })
    }
}

impl Named for Arg {
    ghost renamed = { renamed_arg };

    fn shortened(&self, alloc: Global, names: &ShortNames<'_>) -> Result<Arg, Memory> {
        match self {
            Arg::Word(word) => Ok(Arg::Word(word.shortened(alloc, names)?)),
            Arg::Number(number, at) => Ok(Arg::Number(*number, *at)),
        }
    }
}

impl Named for NodeTerm {
    ghost renamed = { renamed_node };

    fn shortened(&self, alloc: Global, names: &ShortNames<'_>) -> Result<NodeTerm, Memory> {
        let op = self.op.shortened(alloc, names)?;
        let core = match &self.core {
            None => None,
            Some(core) => Some(core.shortened(alloc, names)?),
        };
        let stage = self.stage.shortened(alloc, names)?;
        Ok(NodeTerm { op, core, stage })
    }
}

impl Named for EdgeTerm {
    ghost renamed = { renamed_edge };

    fn shortened(&self, alloc: Global, names: &ShortNames<'_>) -> Result<EdgeTerm, Memory> {
        let from = self.from.shortened(alloc, names)?;
        let to = self.to.shortened(alloc, names)?;
        Ok(EdgeTerm { from, to })
    }
}

impl Named for StageItem {
    ghost renamed = { renamed_stage };

    fn shortened(&self, alloc: Global, names: &ShortNames<'_>) -> Result<StageItem, Memory> {
        let name = self.name.shortened(alloc, names)?;
        Ok(StageItem {
            number: self.number,
            number_at: self.number_at,
            name,
        })
    }
}

/// A copy of a list with short names.
pub(crate) fn short_list<T: Named>(
    alloc: Global,
    names: &ShortNames<'_>,
    list: &[T],
) -> Result<Listed<T>, Memory>
    ensures { IfOk result (λ shorts. shorts ≡ map (T.renamed (short_name names.now)) list.now) }
{
    let mut shorts = Listed::new(alloc);
    for item in list {
        shorts.push(item.shortened(alloc, names)?)?;
    }
    Ok(shorts)
}

/// The same of a shared list.
pub(crate) fn short_shared<T: Named>(
    alloc: Global,
    names: &ShortNames<'_>,
    list: &Shared<T>,
) -> Result<Shared<T>, Memory>
    ensures { IfOk result (λ shorts. shorts ≡ map (T.renamed (short_name names.now)) list.now) }
{
    Shared::from_listed(short_list(alloc, names, list.as_slice())?)
}
