//! Masks of numbers: bit n of a mask stands for number n.
ghost use Rattle.std.specs.Prelude.{◌≡◌, ◌≤◌, length};
ghost use Rattle.schedule.specs.Masks.{mask_room, nth_or_rest, numbers_in};

use machine::Mask;

/// How many numbers a mask has.
pub fn count_in(mask: Mask) -> usize
    ensures value { result ≡ length (numbers_in mask) }
    ensures most { result ≤ mask_room }
{
    mask.count_ones() as usize
}

/// Number n of those that a mask has, from 0 and lowest first. The error is by how much n passes
/// them.
pub fn nth_in(mask: Mask, n: usize) -> Result<u32, usize>
    ensures { result ≡ nth_or_rest (numbers_in mask) n }
{
    let count = count_in(mask);
    if n >= count {
        return Err(n - count);
    }
    let mut higher = mask;
    for taken in 0..n {
        // The lowest number goes.
        higher &= higher - 1;
    }
    Ok(higher.trailing_zeros())
}
