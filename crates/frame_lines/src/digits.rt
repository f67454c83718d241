use hex::FromHexError;
use std::alloc::{AllocError, Global};

/// The bytes that digits spell, two for each, or none where they are odd or other letters stand among them.
pub fn bytes_of(alloc: Global, digits: &str) -> Result<Option<Vec<u8>>, AllocError> {
    if !digits
        .bytes()
        .all(|byte| matches!(byte, b'0'..=b'9' | b'a'..=b'f'))
    {
        return Ok(None);
    }
    match hex::decode(alloc, digits) {
        Ok(bytes) => Ok(Some(bytes)),
        Err(FromHexError::OutOfMemory) => Err(AllocError),
        Err(_) => Ok(None),
    }
}

/// The number that a decimal without a sign and without leading zeros spells, where it has 16 bits.
pub fn number_of(text: &str) -> Option<u16> {
    let plain = match text.as_bytes() {
        [first, _, ..] => b'1' <= *first && *first <= b'9',
        [only] => b'0' <= *only && *only <= b'9',
        [] => false,
    };
    if plain {
        text.parse::<u16>().ok()
    } else {
        None
    }
}
