ghost use Rattle.std.specs.Prelude.{◌≡◌, ◌++◌, length, replicate, All, IfOk};
ghost use Rattle.pc_syntax.specs.Renaming.{KeepsApart};
ghost use Rattle.macro_expand.specs.Numbers.{number_of, number_bytes, unlisted, short_name};

use super::listed_names::ListedNames;
use indexmap::IndexSet;
use pc_common::{Listed, Memory, Shared};
use pc_syntax::Name;
use std::alloc::Global;
use std::marker::Model;

/// Names, each once, with a short name for each, which all its uses share.
pub(crate) struct ShortNames<'a> {
    names: IndexSet<&'a [u8]>,
    shorts: Listed<Name>,
}

// By hand: docs/DECISIONS.md, "Drops are written by hand".
impl Drop for ShortNames<'_> {
    fn drop(self) {
        let ShortNames {
            names: _,
            shorts: _,
        } = self;
    }
}

impl<'a> Model for ShortNames<'a> {
    ghost use Rattle.std.specs.Prelude.{List, map, ℕ, length};
    ghost use Rattle.macro_expand.specs.Numbers.{name_bytes, HasNumbers};

    ghost Value = { List (List ℕ) };

    ghost view = { λ s. map name_bytes s.names.keys };

    ghost invariant = { λ s. HasNumbers s.shorts (length s.names.keys) };
}

/// A number's eight bytes, the lowest first.
#[tactic(auto, unfolding(crate::specs::Numbers::number_bytes))]
fn number_name(alloc: Global, number: usize) -> Result<Name, Memory>
    ensures { IfOk result (λ name. name ≡ number_bytes number) }
{
    let bytes = (number as u64).to_le_bytes();
    Shared::from_listed(Listed::from_vec(bytes.to_vec(alloc)?))
}

/// Nine zeros before a name, so that it is longer than a number.
fn unlisted_name(alloc: Global, name: &[u8]) -> Result<Name, Memory>
    ensures { IfOk result (λ unlisted_name. unlisted_name ≡ unlisted name.now) }
{
    let mut bytes = Listed::from_vec([0_u8; 9].to_vec(alloc)?);
    for byte in name {
        bytes.push(*byte)?;
    }
    Shared::from_listed(bytes)
}

impl<'a> ShortNames<'a> {
    /// A short name for each of these names.
    pub(crate) fn from_listed(
        alloc: Global,
        listed: &ListedNames<'a>,
    ) -> Result<ShortNames<'a>, Memory>
        ensures apart { IfOk result (λ names. KeepsApart (short_name names)) }
        ensures short { IfOk result (λ names. All (λ name. length (short_name names name) ≡ 8) listed.now) }
    {
        let names = listed.distinct_names(alloc)?;
        let mut shorts = Listed::new(alloc);
        for number in 0..names.len() {
            shorts.push(number_name(alloc, number)?)?;
        }
        Ok(ShortNames { names, shorts })
    }

    /// The short name of a name. One look-up.
    pub(crate) fn shorten(&self, alloc: Global, name: &Name) -> Result<Name, Memory>
        ensures { IfOk result (λ short. short ≡ short_name self.now name.now) }
    {
        let name = name.as_slice();
        match self.names.get_index_of(name) {
            Some(number) => self.shorts.get(number).share(),
            None => unlisted_name(alloc, name),
        }
    }
}
