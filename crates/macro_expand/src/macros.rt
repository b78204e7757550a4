ghost use Rattle.std.specs.Prelude.{◌≡◌, ◌<◌, ◌^◌, length, slice_get, Some, None, IfOk, OnOk, MatchOption, map, []};
ghost use Rattle.std.specs.List.{flat_map};
ghost use Rattle.pc_syntax.specs.Written.{written_item};
ghost use Rattle.pc_syntax.specs.Observable.{macro_of};
ghost use Rattle.macro_expand.specs.Tables.{callee_of, before, with_macro, first_of_names, macro_from, macro_at, plain_macros};

use indexmap::IndexMap;
use pc_common::Memory;
use pc_syntax::{Formula, Item, Word, Words};
use std::alloc::Global;
use std::marker::Model;

/// A macro of the file.
#[derive(Clone, Copy)]
pub(crate) struct Macro<'a> {
    /// How many macros of other names are before it.
    pub number: usize,
    pub name: &'a Word,
    pub parameters: &'a Words,
    pub body: &'a Formula,
}

/// The macros of a file in the text's order, looked up by name. Of macros of one name it has the first.
pub(crate) struct Macros<'a> {
    by_name: IndexMap<&'a [u8], Macro<'a>>,
}

// By hand: docs/DECISIONS.md, "Drops are written by hand".
impl Drop for Macros<'_> {
    fn drop(self) {
        let Macros { by_name: _ } = self;
    }
}

impl<'a> Model for Macros<'a> {
    ghost use Rattle.std.specs.Prelude.{List, map};
    ghost use Rattle.std.specs.Coded.{codes};
    ghost use Rattle.macro_expand.specs.declared.macros.Macro.{Macro as SMacro};
    ghost use Rattle.pc_syntax.specs.contracts.formula.Formula as formula;
    ghost use Rattle.macro_expand.specs.Tables.{plain_macros, AreNew, AreNumbered};

    ghost Value = { List SMacro };

    ghost coded = { Prim.hlevel (codes, formula.the_row.coded) };

    ghost view = { λ s. map (λ e. e.1) s.by_name.entries };

    ghost invariant = { λ s. AreNumbered 0 s.by_name.entries
        × AreNew (plain_macros (map (λ e. e.1) s.by_name.entries)) };
}

impl<'a> Macros<'a> {
    /// No macros. Takes no memory.
    fn new(alloc: Global) -> Self
        ensures { result ≡ [] }
    {
        Macros {
            by_name: IndexMap::new(alloc),
        }
    }

    /// The macros of these items.
    pub(crate) fn collect(alloc: Global, items: &'a [Item]) -> Result<Macros<'a>, Memory>
        ensures { let all = flat_map macro_of (map written_item items.now) in
            IfOk result (λ ms. plain_macros ms ≡ first_of_names all) }
    {
        let mut macros = Macros::new(alloc);
        for item in items {
            if let Item::Macro {
                name,
                parameters,
                body,
            } = item
            {
                macros.enter(name, parameters, body)?;
            }
        }
        Ok(macros)
    }

    /// Puts a macro last, unless one of its name is there.
    fn enter(
        &mut self,
        name: &'a Word,
        parameters: &'a Words,
        body: &'a Formula,
    ) -> Result<(), Memory>
        ensures { OnOk result (plain_macros self.new ≡ with_macro (plain_macros self.old)
            (macro_from name.now parameters.now body.now)) }
    {
        let key = name.name.as_slice();
        if self.by_name.get(key).is_none() {
            let number = self.by_name.len();
            self.by_name.insert(
                key,
                Macro {
                    number,
                    name,
                    parameters,
                    body,
                },
            )?;
        }
        Ok(())
    }

    /// How many macros there are.
    pub(crate) fn len(&self) -> usize
        ensures value { result ≡ length self.now }
        ensures bound { length self.now < 2 ^ 63 }
    {
        self.by_name.len()
    }

    /// The macro of this name, if it is one of the first `earlier`.
    pub(crate) fn callee(&self, name: &[u8], earlier: usize) -> Option<Macro<'a>>
        ensures { let ms = before (plain_macros self.now) earlier in
            MatchOption result (callee_of ms name.now ≡ None)
            (λ m. (m.number < earlier) × (slice_get (plain_macros self.now) m.number ≡ Some (macro_at m)) ×
            (callee_of ms name.now ≡ Some (macro_at m, before (plain_macros self.now) m.number))) }
    {
        match self.by_name.get(name) {
            Some(found) if found.number < earlier => Some(*found),
            _ => None,
        }
    }

    /// The macro of this number.
    pub(crate) fn get(&self, number: usize) -> Macro<'a>
        requires { number < length self.now }
        ensures { slice_get self.now number ≡ Some result }
    {
        self.by_name[number]
    }
}
