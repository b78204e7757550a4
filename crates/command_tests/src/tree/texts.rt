//! What the tables of tests compare, as bytes.
use pc_common::Memory;

/// Puts the piece after the text.
pub(crate) fn put(text: &mut Vec<u8>, piece: &[u8]) -> Result<(), Memory> {
    text.extend_from_slice(piece)?;
    Ok(())
}

/// Puts the number after the text, in decimal digits.
pub(crate) fn put_number(text: &mut Vec<u8>, number: u64) -> Result<(), Memory> {
    let mut digits = itoa::Buffer::new();
    put(text, digits.format(number).as_bytes())
}
