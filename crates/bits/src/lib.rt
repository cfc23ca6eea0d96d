//! Bits in slices of numbers: bit j is bit j mod w, 0 the least, of number j div w, where the numbers have w bits each.
//!
//! A buffer for n bits has (n + 7) div 8 bytes, and its unused high bits are zero.
#![tactic(auto)]

ghost use Rattle.std.specs.Prelude.{◌≡◌, ℕ, ◌+◌, ◌-◌, ◌*◌, ◌/◌, ◌<◌, ◌≤◌, false, not, length};
ghost use Rattle.bits.specs.Bits.{bit_at};
ghost use Rattle.bits.specs.Calls.{Got, Changed, Admitted};

mod element;

pub use element::Element;
use refusal::Refusal;

/// Bit j of a buffer; refused with 9 where there is none.
pub fn bit<E: Element>(buffer: &[E], j: usize) -> Result<bool, Refusal>
    ensures { Got E.WIDTH (E.numbers buffer.now) j result }
{
    let element = buffer.get(j / E::WIDTH).ok_or(Refusal::Cell)?;
    Ok((element.to_word() >> (j % E::WIDTH)) % 2 == 1)
}

/// Gives bit j of a buffer a value; refused with 9 where there is none.
pub fn put_bit<E: Element>(buffer: &mut [E], j: usize, value: bool) -> Result<(), Refusal>
    ensures { Changed E.WIDTH (λ _. value) (E.numbers buffer.old) (E.numbers buffer.new) j result }
{
    if bit(buffer, j)? != value {
        turn_bit(buffer, j)?;
    }
    Ok(())
}

/// Turns bit j of a buffer over; refused with 9 where there is none.
pub fn turn_bit<E: Element>(buffer: &mut [E], j: usize) -> Result<(), Refusal>
    ensures { Changed E.WIDTH not (E.numbers buffer.old) (E.numbers buffer.new) j result }
{
    let element = buffer.get(j / E::WIDTH).ok_or(Refusal::Cell)?;
    buffer[j / E::WIDTH] = E::from_word(element.to_word() ^ 1 << (j % E::WIDTH));
    Ok(())
}

/// How many bytes a buffer for n bits has.
pub fn bytes_for(n: u8) -> usize
    ensures { result ≡ (n + 7) / 8 }
{
    usize::from(n).div_ceil(8)
}

/// Whether a buffer is one for n bits: refused with 7 where its length is wrong, then with 8 where an unused bit is set.
pub fn check_buffer(buffer: &[u8], n: u8) -> Result<(), Refusal>
    ensures { Admitted n buffer.now result }
{
    if buffer.len() != bytes_for(n) {
        return Err(Refusal::Length);
    }
    for j in usize::from(n)..8 * buffer.len() {
        if bit(buffer, j)? {
            return Err(Refusal::UnusedBit);
        }
    }
    Ok(())
}

/// Clears every bit.
pub fn clear(buffer: &mut [u8])
    ensures { (j : ℕ) → bit_at 8 buffer.new j ≡ false }
{
    buffer.fill(0);
}
