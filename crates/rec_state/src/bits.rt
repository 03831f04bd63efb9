//! Bits of 32-bit numbers.
ghost use Rattle.std.specs.Prelude.{◌≡◌};
ghost use Rattle.rec_state.specs.Bits.{lowest_bits, shifted_left, shifted_right, made_mask};

// Returns a number whose lowest `count` bits are ones, at most all 32.
#[tactic(auto, unfolding(crate::specs::Bits::lowest_bits))]
fn lowest_bits(count: u16) -> u32
    ensures { result ≡ lowest_bits count }
{
    if count < 32 {
        let above = 1u64 << u32::from(count);
        (above - 1) as u32
    } else {
        u32::MAX
    }
}

/// Returns the number shifted left, truncated to 32 bits.
#[tactic(auto, unfolding(crate::specs::Bits::shifted_left))]
pub fn shifted_left(number: u32, count: u16) -> u32
    ensures { result ≡ shifted_left number count }
{
    if count < 32 {
        let wide = u64::from(number) << u32::from(count);
        (wide % 4294967296) as u32
    } else {
        0
    }
}

/// Returns the number shifted right.
#[tactic(auto, unfolding(crate::specs::Bits::shifted_right))]
pub fn shifted_right(number: u32, count: u16) -> u32
    ensures { result ≡ shifted_right number count }
{
    if count < 32 {
        number >> u32::from(count)
    } else {
        0
    }
}

/// Returns a mask of `count` bits that begins at bit `place`, or all 32 bits if the count is 0.
#[tactic(auto, unfolding(crate::specs::Bits::made_mask))]
pub fn made_mask(count: u16, place: u16) -> u32
    ensures { result ≡ made_mask count place }
{
    if count == 0 {
        u32::MAX
    } else {
        shifted_left(lowest_bits(count), place)
    }
}
