//! Words and bytes as XDR spells them (RFC 4506).

use std::alloc::AllocError;

/// Appends words, the high byte first.
pub fn put_words(out: &mut Vec<u8>, words: &[u32]) -> Result<(), AllocError> {
    for word in words {
        out.extend_from_slice(&word.to_be_bytes())?;
    }
    Ok(())
}

/// The length of bytes as a word.
pub fn length_of(bytes: &[u8]) -> u32 {
    u32::try_from(bytes.len()).unwrap_or(u32::MAX)
}

/// Appends a length, the bytes, and zeros up to a multiple of four.
pub fn put_opaque(out: &mut Vec<u8>, bytes: &[u8]) -> Result<(), AllocError> {
    put_words(out, &[length_of(bytes)])?;
    out.extend_from_slice(bytes)?;
    match bytes.len() % 4 {
        1 => out.extend_from_slice(&[0, 0, 0]),
        2 => out.extend_from_slice(&[0, 0]),
        3 => out.extend_from_slice(&[0]),
        _ => Ok(()),
    }
}
