ghost use Rattle.std.specs.Prelude.{◌≡◌};
ghost use Rattle.pc_common.specs.Addresses.{default_at};
ghost use Rattle.pc_case.specs.Plain.{address_at, plain_value};

use pc_common::Value;

/// A virtual page: its tag and the index inside it.
#[derive(Clone, Copy, PartialEq, Eq, Hash)]
pub struct Page {
    pub tag: u64,
    pub index: u64,
}

/// A physical address: a page of memory, or the page-table entry of a virtual tag.
#[derive(Clone, Copy, PartialEq, Eq, Hash)]
pub enum Address {
    Page { tag: u64, index: u64 },
    Entry { tag: u64 },
}

impl Address {
    /// What this address holds where no test states it: 0 at a page, at the entry of a tag that very tag,
    /// neither accessed nor dirty.
    pub fn default_value(self) -> Value
        ensures { plain_value result ≡ default_at (address_at self) }
    {
        match self {
            Address::Page { .. } => Value::Number(0),
            Address::Entry { tag } => Value::Entry {
                tag,
                accessed: 0,
                dirty: 0,
            },
        }
    }
}
