//! Texts in pieces.
use pc_common::Memory;
use std::alloc::Global;

/// The pieces in this order, each as often as it says.
pub fn join_pieces(alloc: Global, pieces: &[(&str, usize)]) -> Result<String, Memory> {
    let mut text = String::new(alloc);
    for (piece, times) in pieces {
        for _ in 0..*times {
            text.push_str(piece)?;
        }
    }
    Ok(text)
}
