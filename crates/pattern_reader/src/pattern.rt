ghost use Rattle.std.specs.Prelude.{◌≡◌, ◌≤◌, ◌<◌, Some, length, slice_get, IfOk};
ghost use Rattle.pc_case.specs.Plain.{plain_value};
ghost use Rattle.pattern_reader.specs.Rows.{rows_of, values_in_row, row_case as row_case_spec};
ghost use Rattle.litmus_reader.specs.Lists.{case_by, AreLists};
ghost use Rattle.pattern_reader.specs.Reads.{IsPattern, pattern_by};

use super::rows::{OpenRead, copy_dependencies, copy_stated, row_ops, value_in};
use litmus_reader::CaseLists;
use pc_case::Case;
use pc_common::{Memory, Value};
use std::alloc::Global;
use std::marker::Model;

/// How many rows a pattern may have.
pub const MAX_ROWS: usize = 4096;

/// A test in which some reads leave their value open.
pub struct Pattern {
    lists: CaseLists,
    reads: Vec<OpenRead>,
    rows: usize,
}

// By hand: docs/DECISIONS.md, "Drops are written by hand".
impl Drop for Pattern {
    fn drop(self) {
        let Pattern {
            lists: _,
            reads: _,
            rows: _,
        } = self;
    }
}

impl Model for Pattern {
    ghost use Rattle.pattern_reader.specs.Rows.{Pattern as PlainPattern};
    ghost use Rattle.pattern_reader.specs.Reads.{IsPattern, pattern_by};

    ghost Value = { PlainPattern };

    ghost view = { λ p. pattern_by p.lists p.reads.items };

    ghost invariant = { λ p. IsPattern p.lists p.reads.items p.rows };
}

impl Pattern {
    /// The pattern of these lists and these reads, which has so many rows.
    pub(crate) fn new(lists: CaseLists, reads: Vec<OpenRead>, rows: usize) -> Pattern
        requires { IsPattern lists reads.items rows }
        ensures { result ≡ pattern_by lists reads.items }
    {
        Pattern { lists, reads, rows }
    }

    /// How many rows there are, at most 4,096. Takes no memory.
    pub fn rows(&self) -> u32
        ensures value { result ≡ rows_of self.now }
        ensures bound { result ≤ 4096 }
    {
        self.rows as u32
    }

    /// How many open reads there are. Takes no memory.
    pub fn opens(&self) -> u32
        ensures { result ≡ length self.now.opens }
    {
        self.reads.len() as u32
    }

    /// The value of open read `k`, from 0 in text order, in this row. Takes no memory.
    pub fn value(&self, row: u32, k: u32) -> Value
        requires row { row < rows_of self.now }
        requires read { k < length self.now.opens }
        ensures { slice_get (values_in_row self.now row) k ≡ Some (plain_value result) }
    {
        value_in(&self.reads, row as usize, k as usize)
    }

    /// The micro-ops once more, with the values of a row in the open reads.
    fn row_lists(&self, alloc: Global, row: u32) -> Result<CaseLists, Memory>
        ensures case { IfOk result (λ l. case_by l ≡ row_case_spec self.now row) }
        ensures lists { IfOk result AreLists }
    {
        Ok(CaseLists {
            ops: row_ops(alloc, self.lists.ops.as_slice(), &self.reads, row as usize)?,
            dependencies: copy_dependencies(alloc, &self.lists.dependencies)?,
            initial: copy_stated(alloc, &self.lists.initial)?,
            final_values: copy_stated(alloc, &self.lists.final_values)?,
            expect: self.lists.expect,
        })
    }
}

/// The case of a row: the test with the row's values in the open reads. The one error is that memory was refused.
pub fn row_case(alloc: Global, pattern: &Pattern, row: u32) -> Result<Case, Memory>
    requires { row < rows_of pattern.now }
    ensures { IfOk result (λ c. c ≡ row_case_spec pattern.now row) }
{
    pattern.row_lists(alloc, row)?.into_case(alloc)
}
