ghost use Rattle.std.specs.Prelude.{◌≡◌, ◌<◌, ◌^◌, IfOk};
ghost use Rattle.link_fields.specs.Field.{Gives};
ghost use Rattle.link_fields.specs.Basic as spec;

use crate::fault::{Flaw, ReadError, fault_here};

/// A number of one byte.
#[tactic(auto, unfolding(crate::specs::Basic::number_at))]
pub fn read_u8(bytes: &[u8]) -> Result<(u8, &[u8]), ReadError>
    ensures { Gives (λ x. (x.0, x.1.now)) result (spec.u8.read bytes.now) }
{
    if bytes.is_empty() {
        return Err(fault_here(Flaw::Short, bytes));
    }
    let (front, rest) = bytes.split_at(1);
    Ok((front[0], rest))
}

/// A number of two bytes, the high byte first, as all numbers are.
#[tactic(auto, unfolding(crate::specs::Basic::number_at))]
pub fn read_u16(bytes: &[u8]) -> Result<(u16, &[u8]), ReadError>
    ensures value { Gives (λ x. (x.0, x.1.now)) result (spec.u16.read bytes.now) }
    ensures range { IfOk result (λ x. x.0 < 2 ^ 16) }
{
    if bytes.len() < 2 {
        return Err(fault_here(Flaw::Short, bytes));
    }
    let (front, rest) = bytes.split_at(2);
    Ok((u16::from_be_bytes([front[0], front[1]]), rest))
}

/// A number of four bytes.
#[tactic(auto, unfolding(crate::specs::Basic::number_at))]
pub fn read_u32(bytes: &[u8]) -> Result<(u32, &[u8]), ReadError>
    ensures { Gives (λ x. (x.0, x.1.now)) result (spec.u32.read bytes.now) }
{
    if bytes.len() < 4 {
        return Err(fault_here(Flaw::Short, bytes));
    }
    let (front, rest) = bytes.split_at(4);
    let number = u32::from_be_bytes([front[0], front[1], front[2], front[3]]);
    Ok((number, rest))
}

/// A number of eight bytes.
#[tactic(auto, unfolding(crate::specs::Basic::number_at))]
pub(crate) fn read_u64(bytes: &[u8]) -> Result<(u64, &[u8]), ReadError>
    ensures { Gives (λ x. (x.0, x.1.now)) result (spec.u64.read bytes.now) }
{
    if bytes.len() < 8 {
        return Err(fault_here(Flaw::Short, bytes));
    }
    let (front, rest) = bytes.split_at(8);
    let number = u64::from_be_bytes([
        front[0], front[1], front[2], front[3], front[4], front[5], front[6], front[7],
    ]);
    Ok((number, rest))
}

/// A byte of at most that value.
pub fn read_small(most: u8, bytes: &[u8]) -> Result<(u8, &[u8]), ReadError>
    ensures { Gives (λ x. (x.0, x.1.now)) result ((spec.small most).read bytes.now) }
{
    let (number, rest) = read_u8(bytes)?;
    if number > most {
        return Err(fault_here(Flaw::Range, bytes));
    }
    Ok((number, rest))
}

/// A truth value: 0 or 1.
pub fn read_bool(bytes: &[u8]) -> Result<(bool, &[u8]), ReadError>
    ensures { Gives (λ x. (x.0, x.1.now)) result (spec.truth.read bytes.now) }
{
    let (number, rest) = read_small(1, bytes)?;
    Ok((number == 1, rest))
}

/// 0, or 1 and a number of four bytes.
pub fn read_optional_u32(bytes: &[u8]) -> Result<(Option<u32>, &[u8]), ReadError>
    ensures { Gives (λ x. (x.0, x.1.now)) result ((spec.optional spec.u32).read bytes.now) }
{
    let (tag, rest) = read_small(1, bytes)?;
    if tag == 0 {
        return Ok((None, rest));
    }
    let (number, rest) = read_u32(rest)?;
    Ok((Some(number), rest))
}

/// 0, or 1 and a number of two bytes.
pub fn read_optional_u16(bytes: &[u8]) -> Result<(Option<u16>, &[u8]), ReadError>
    ensures { Gives (λ x. (x.0, x.1.now)) result ((spec.optional spec.u16).read bytes.now) }
{
    let (tag, rest) = read_small(1, bytes)?;
    if tag == 0 {
        return Ok((None, rest));
    }
    let (number, rest) = read_u16(rest)?;
    Ok((Some(number), rest))
}
