use hex::FromHexError;
use std::alloc::{AllocError, Global};

/// The bytes of replies, with one space between two, or none where they aren't spelled as such.
pub fn replies_of(alloc: Global, words: &str) -> Result<Option<Vec<Vec<u8>>>, AllocError> {
    let mut replies = Vec::new(alloc);
    if words.is_empty() {
        return Ok(Some(replies));
    }
    for word in words.split(' ') {
        match reply_of(alloc, word)? {
            Some(reply) => replies.push(reply)?,
            None => return Ok(None),
        }
    }
    Ok(Some(replies))
}

// The bytes of parts with `+` between them.
fn reply_of(alloc: Global, word: &str) -> Result<Option<Vec<u8>>, AllocError> {
    let mut reply = Vec::new(alloc);
    for part in word.split('+') {
        let (digits, times) = part.split_once('x').unwrap_or((part, "1"));
        let (Some(bytes), Ok(times)) = (bytes_of(alloc, digits)?, times.parse::<u32>()) else {
            return Ok(None);
        };
        for _ in 0..times {
            reply.extend_from_slice(&bytes)?;
        }
    }
    Ok(Some(reply))
}

fn bytes_of(alloc: Global, digits: &str) -> Result<Option<Vec<u8>>, AllocError> {
    match hex::decode(alloc, digits) {
        Ok(bytes) => Ok(Some(bytes)),
        Err(FromHexError::OutOfMemory) => Err(AllocError),
        Err(_) => Ok(None),
    }
}
