ghost use Rattle.std.specs.Prelude.{◌≡◌, ◌<◌, List, IfOk, OnOk, length, map, take, ◌++◌, ◌∷◌, slice_get, Some, None};
ghost use Rattle.std.specs.Option.{option_map};
ghost use Rattle.pc_case.specs.Plain.{address_at, plain_value, stated_value};
ghost use Rattle.pc_common.specs.Addresses.{stated_at};
ghost use Rattle.pc_case.specs.Stated.{IsStatedOnce};

use super::address::Address;
use pc_common::{Listed, Memory, Value};
use std::alloc::Global;
use std::collections::HashMap;
use std::marker::Model;

/// What a line states: the value at a physical address.
#[derive(Clone, Copy)]
pub struct Stated {
    pub pa: Address,
    pub value: Value,
}

/// Stated values in test order.
pub type StatedValues = Listed<Stated>;

/// Stated values in test order, looked up by address.
pub(crate) struct ValueTable {
    listed: StatedValues,
    by_address: HashMap<Address, Value>,
}

// By hand: docs/DECISIONS.md, "Drops are written by hand".
impl Drop for ValueTable {
    fn drop(self) {
        let ValueTable {
            listed: _,
            by_address: _,
        } = self;
    }
}

impl Model for ValueTable {
    ghost use Rattle.std.specs.Prelude.{List, map};
    ghost use Rattle.pc_common.specs.Case.{Address as PlainAddress, Value as PlainValue};
    ghost use Rattle.pc_case.specs.Plain.{stated_value};
    ghost use Rattle.pc_case.specs.Tables.{AreValuesOf};

    ghost Value = { List (PlainAddress × PlainValue) };

    ghost view = { λ t. map stated_value t.listed };

    ghost invariant = { λ t. AreValuesOf t.by_address.entries (map stated_value t.listed) };
}

impl ValueTable {
    /// The table of these values.
    pub(crate) fn from_list(alloc: Global, listed: StatedValues) -> Result<ValueTable, Memory>
        requires { IsStatedOnce (map stated_value listed) }
        ensures { IfOk result (λ t. t ≡ map stated_value listed) }
    {
        let mut by_address = HashMap::with_capacity(alloc, listed.len())?;
        for line in listed.as_slice() {
            by_address.insert(line.pa, line.value)?;
        }
        Ok(ValueTable { listed, by_address })
    }

    /// The value that is stated at this address. Takes no memory.
    pub(crate) fn get(&self, pa: Address) -> Option<Value>
        ensures { option_map plain_value result ≡ stated_at self.now (address_at pa) }
    {
        self.by_address.get(&pa).copied()
    }

    /// The same table once more.
    pub(crate) fn copy(&self, alloc: Global) -> Result<ValueTable, Memory>
        ensures { IfOk result (λ c. c ≡ self.now) }
    {
        let listed = Vec::from_slice(alloc, self.listed.as_slice())?;
        Ok(ValueTable {
            listed: Listed::from_vec(listed),
            by_address: self.by_address.clone()?,
        })
    }
}
