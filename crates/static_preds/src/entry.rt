// What is asked of addresses and values that may be page-table entries.
ghost use Rattle.std.specs.Prelude.{◌≡◌};
ghost use Rattle.pc_case.specs.Plain.{address_at, plain_value};
ghost use Rattle.pc_syntax.specs.Predicates.{same_tag as same_tag_spec, is_entry_of as is_entry_spec, maps_to as maps_spec};
ghost use Rattle.pc_syntax.specs.Predicates.{is_accessed as is_accessed_spec, is_dirty as is_dirty_spec};

use pc_case::Address;
use pc_common::Value;

/// Whether both are pages of one tag.
pub(crate) fn same_tag(a: Address, b: Address) -> bool
    ensures { result ≡ same_tag_spec (address_at a) (address_at b) }
{
    match (a, b) {
        (Address::Page { tag: first, .. }, Address::Page { tag: second, .. }) => first == second,
        (Address::Entry { .. }, _) | (_, Address::Entry { .. }) => false,
    }
}

/// Whether this is the address of the virtual tag's entry.
pub(crate) fn is_entry_of(pa: Address, virtual_tag: u64) -> bool
    ensures { result ≡ is_entry_spec (address_at pa) virtual_tag }
{
    match pa {
        Address::Page { .. } => false,
        Address::Entry { tag } => tag == virtual_tag,
    }
}

/// Whether the value is an entry that maps to the tag of the page at this address.
pub(crate) fn maps_to(value: Value, pa: Address) -> bool
    ensures { result ≡ maps_spec (plain_value value) (address_at pa) }
{
    match (value, pa) {
        (Value::Entry { tag: mapped, .. }, Address::Page { tag, .. }) => mapped == tag,
        (Value::Entry { .. }, Address::Entry { .. }) => false,
        (Value::Number(_), _) => false,
    }
}

/// Whether the value is an entry with the accessed mark.
pub(crate) fn is_accessed(value: Value) -> bool
    ensures { result ≡ is_accessed_spec (plain_value value) }
{
    match value {
        Value::Number(_) => false,
        Value::Entry { accessed, .. } => accessed == 1,
    }
}

/// Whether the value is an entry with the dirty mark.
pub(crate) fn is_dirty(value: Value) -> bool
    ensures { result ≡ is_dirty_spec (plain_value value) }
{
    match value {
        Value::Number(_) => false,
        Value::Entry { dirty, .. } => dirty == 1,
    }
}
