//! What is at the front of bytes. Who reads says which fault it is where they end too soon.
ghost use Rattle.std.specs.Prelude.{◌≡◌, ◌≤◌, length};
ghost use Rattle.std.specs.Int.{w32, w64, from_le_bytes};
ghost use Rattle.codec.specs.Bytes.{Gives, byte_at, front_at, number_at};

use byteorder::{ByteOrder, LittleEndian};

/// A byte, and what follows it.
pub fn byte_at<E: Copy>(bytes: &[u8], short: E) -> Result<(u8, &[u8]), E>
    ensures { Gives (λ x. (x.0, x.1.now)) result (byte_at short bytes.now) }
{
    match bytes {
        [] => Err(short),
        [first, rest @ ..] => Ok((*first, rest)),
    }
}

/// So many bytes, and what follows them.
pub fn front_at<E: Copy>(count: usize, bytes: &[u8], short: E) -> Result<(&[u8], &[u8]), E>
    ensures { Gives (λ x. (x.0.now, x.1.now)) result (front_at short count bytes.now) }
{
    if bytes.len() < count {
        return Err(short);
    }
    Ok(bytes.split_at(count))
}

fn number_32(bytes: &[u8]) -> u32
    requires { 4 ≤ length bytes.now }
    ensures { result ≡ from_le_bytes w32 bytes.now }
{
    LittleEndian::read_u32(bytes)
}

fn number_64(bytes: &[u8]) -> u64
    requires { 8 ≤ length bytes.now }
    ensures { result ≡ from_le_bytes w64 bytes.now }
{
    LittleEndian::read_u64(bytes)
}

/// A number of four bytes, the lowest first, and what follows it.
pub fn u32_at<E: Copy>(bytes: &[u8], short: E) -> Result<(u32, &[u8]), E>
    ensures { Gives (λ x. (x.0, x.1.now)) result (number_at short w32 bytes.now) }
{
    let (front, rest) = front_at(4, bytes, short)?;
    Ok((number_32(front), rest))
}

/// A number of eight bytes, the lowest first, and what follows it.
pub fn u64_at<E: Copy>(bytes: &[u8], short: E) -> Result<(u64, &[u8]), E>
    ensures { Gives (λ x. (x.0, x.1.now)) result (number_at short w64 bytes.now) }
{
    let (front, rest) = front_at(8, bytes, short)?;
    Ok((number_64(front), rest))
}
