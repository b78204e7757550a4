//! Type names through their public calls: a list that knows each of them by all of its bytes.
use pc_case::TypeNames;
use pc_common::Memory;
use std::alloc::Global;
use std::test::Fail;

/// Names of 0 to 20 bytes; up to 15 bytes a name is looked up as one key, and by its length first from 16 on.
const NAMES: &[&[u8]] = &[
    b"",
    b"a",
    b"Locked",
    b"fifteen_letters",
    b"sixteen_letters_",
    b"a_name_of_twenty_let",
];

/// Names that are shorter, longer or other than those, some by a byte of 0 alone.
const OTHERS: &[&[u8]] = &[
    b"\0",
    b"a\0",
    b"Locke",
    b"fifteen_letter",
    b"fifteen_letters\0",
    b"sixteen_letters",
    b"sixteen_letters_\0",
    b"A_name_of_twenty_let",
];

/// The names in that order, each put twice.
fn list_twice(alloc: Global) -> Result<TypeNames, Memory> {
    let mut types = TypeNames::new(alloc);
    for name in NAMES {
        types.push(name)?;
        types.push(name)?;
    }
    Ok(types)
}

fn has_all(types: &TypeNames, names: &[&[u8]]) -> bool {
    names.iter().all(|name| types.has(name))
}

fn has_any(types: &TypeNames, names: &[&[u8]]) -> bool {
    names.iter().any(|name| types.has(name))
}

fn is_list(types: &TypeNames) -> bool {
    types.len() == 12 && has_all(types, NAMES) && !has_any(types, OTHERS)
}

fn is_list_copied(alloc: Global, types: &TypeNames) -> Result<bool, Memory> {
    let copy = types.copy(alloc)?;
    Ok(is_list(&copy))
}

#[test]
fn a_type_is_known_by_all_of_its_bytes(rt: HostRuntime) -> Result<(), Fail> {
    let types = list_twice(rt.alloc())?;
    assert!(rt; is_list(&types) && is_list_copied(rt.alloc(), &types)?);
    Ok(())
}
