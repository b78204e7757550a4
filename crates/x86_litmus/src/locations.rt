ghost use Rattle.std.specs.Prelude.{◌≡◌, [], map, fold, IfOk, OnOk};
ghost use Rattle.x86_litmus.specs.Cases.{seen, seen_value, seen_in, seen_by, number_of, locations as locations_spec};
ghost use Rattle.x86_litmus.specs.Plain.{plain_action, plain_instruction, plain_said};

use super::item::{Action, Instruction};
use super::said::Said;
use super::values::Values;
use indexmap::IndexSet;
use pc_common::Memory;
use std::alloc::Global;
use std::marker::Model;

/// The locations of a listing, each once, as first named.
pub(crate) struct Locations<'a> {
    words: IndexSet<&'a [u8]>,
}

// By hand: docs/DECISIONS.md, "Drops are written by hand".
impl Drop for Locations<'_> {
    fn drop(self) {
        let Locations { words: _ } = self;
    }
}

impl<'a> Model for Locations<'a> {
    ghost use Rattle.std.specs.Prelude.{List, map, ℕ};
    ghost use Rattle.x86_litmus.specs.Values.{plain_word};

    ghost Value = { List (List ℕ) };

    ghost view = { λ s. map plain_word s.words.keys };
}

impl<'a> Locations<'a> {
    fn new(alloc: Global) -> Self
        ensures { result ≡ [] }
    {
        Locations {
            words: IndexSet::new(alloc),
        }
    }

    /// The locations of what a listing says.
    pub(crate) fn from_said(alloc: Global, said: &Said<'a>) -> Result<Self, Memory>
        ensures { IfOk result (λ r. r ≡ locations_spec (plain_said said.now)) }
    {
        let mut locations = Locations::new(alloc);
        locations.see_values(&said.initial)?;
        locations.see_instructions(&said.instructions)?;
        locations.see_values(&said.final_values)?;
        Ok(locations)
    }

    /// Numbers a location after the others, where it has no number.
    fn see(&mut self, word: &'a [u8]) -> Result<(), Memory>
        ensures { OnOk result (self.new ≡ seen self.old word.now) }
    {
        self.words.insert(word)?;
        Ok(())
    }

    fn see_values(&mut self, values: &Values<'a>) -> Result<(), Memory>
        ensures { OnOk result (self.new ≡ fold seen_value self.old values.now) }
    {
        for k in 0..values.len() {
            self.see(values.entry(k).0)?;
        }
        Ok(())
    }

    fn see_action(&mut self, action: Action<'a>) -> Result<(), Memory>
        ensures { OnOk result (self.new ≡ seen_in self.old (plain_action action.entry)) }
    {
        match action {
            Action::Fence => Ok(()),
            Action::Store { location, .. } | Action::Load { location, .. } => {
                self.see(location.word)
            }
        }
    }

    fn see_instructions(&mut self, instructions: &[Instruction<'a>]) -> Result<(), Memory>
        ensures { OnOk result (self.new ≡ fold seen_by self.old (map plain_instruction instructions.now)) }
    {
        for instruction in instructions {
            self.see_action(instruction.action)?;
        }
        Ok(())
    }

    /// The number of a location. One look-up.
    pub(crate) fn number(&self, word: &[u8]) -> u64
        ensures { result ≡ number_of self.now word.now }
    {
        match self.words.get_index_of(word) {
            Some(number) => number as u64,
            None => self.words.len() as u64,
        }
    }
}
