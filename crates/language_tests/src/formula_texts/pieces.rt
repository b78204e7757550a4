//! Texts put together of pieces.
use pc_common::Memory;
use std::alloc::Global;

/// A text in pieces, each with how often it stands there.
pub type Pieces = &'static [(&'static str, usize)];

/// Puts the piece after the text.
pub fn put(text: &mut Vec<u8>, piece: &[u8]) -> Result<(), Memory> {
    text.extend_from_slice(piece)?;
    Ok(())
}

/// Puts the number after the text, in decimal digits.
pub fn put_number(text: &mut Vec<u8>, number: u64) -> Result<(), Memory> {
    let mut digits = itoa::Buffer::new();
    put(text, digits.format(number).as_bytes())
}

/// The text of the pieces.
pub fn join_pieces(alloc: Global, pieces: &[(&'static str, usize)]) -> Result<Vec<u8>, Memory> {
    let mut text = Vec::new(alloc);
    for (piece, times) in pieces {
        for _ in 0..*times {
            put(&mut text, piece.as_bytes())?;
        }
    }
    Ok(text)
}
