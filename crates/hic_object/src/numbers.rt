//! Fields of so many bytes, and numbers from the lowest byte to the highest.
ghost use Rattle.std.specs.Int.{w8, w16, w32, w64};
ghost use Rattle.hic_object.specs.Reading.{Gives, field_at, number_at};

use crate::error::ObjectError;

/// So many bytes, and those after them.
pub(crate) fn field_of(bytes: &[u8], len: usize) -> Result<(&[u8], &[u8]), ObjectError>
    ensures { Gives (λ x. (x.0.now, x.1.now)) result (field_at len bytes.now) }
{
    if bytes.len() < len {
        return Err(ObjectError::Short);
    }
    Ok(bytes.split_at(len))
}

/// The byte at the front.
pub(crate) fn u8_of(bytes: &[u8]) -> Result<(u8, &[u8]), ObjectError>
    ensures { Gives (λ x. (x.0, x.1.now)) result (number_at w8 bytes.now) }
{
    let (number, rest) = field_of(bytes, 1)?;
    Ok((number[0], rest))
}

/// The number in the two bytes at the front.
pub(crate) fn u16_of(bytes: &[u8]) -> Result<(u16, &[u8]), ObjectError>
    ensures { Gives (λ x. (x.0, x.1.now)) result (number_at w16 bytes.now) }
{
    let (number, rest) = field_of(bytes, 2)?;
    Ok((u16::from_le_bytes([number[0], number[1]]), rest))
}

/// The number in the four bytes at the front.
pub(crate) fn u32_of(bytes: &[u8]) -> Result<(u32, &[u8]), ObjectError>
    ensures { Gives (λ x. (x.0, x.1.now)) result (number_at w32 bytes.now) }
{
    let (number, rest) = field_of(bytes, 4)?;
    let number = u32::from_le_bytes([number[0], number[1], number[2], number[3]]);
    Ok((number, rest))
}

/// The number in the eight bytes at the front.
pub(crate) fn u64_of(bytes: &[u8]) -> Result<(u64, &[u8]), ObjectError>
    ensures { Gives (λ x. (x.0, x.1.now)) result (number_at w64 bytes.now) }
{
    let (number, rest) = field_of(bytes, 8)?;
    let number = u64::from_le_bytes([
        number[0], number[1], number[2], number[3], number[4], number[5], number[6], number[7],
    ]);
    Ok((number, rest))
}
