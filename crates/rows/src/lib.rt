//! Rows between the cells of a memory and row buffers.
//!
//! A row is a run of cells; a buffer shows it, bit j the cell at position j. Every move changes what it names and nothing else: no further
//! cell of the memory, and none of its bottom that layers hide.
#![tactic(auto)]

ghost use Rattle.std.specs.Prelude.{◌≡◌, ℕ, ◌+◌, ◌≤◌, false, length};
ghost use Rattle.memory.specs.Mem.{Layout, Mem};
ghost use Rattle.rows.specs.Laid.{RunFits, Gathered, Scattered, Zeroed};

use memory::Memory;
use refusal::Refusal;

/// Fills a row buffer with the `n` cells from cell `first` on. Refused with 7 where the buffer is not one for n bits, then with 9 where there
/// are no such cells.
pub fn gather<M: Memory>(memory: &M, first: u32, n: u8, row: &mut [u8]) -> Result<(), Refusal>
    ensures { Gathered (M.Memory.means memory.now) first n row.old row.new result }
{
    check_run(memory, first, n, row)?;
    bits::clear(row);
    // Unwrapped, here and below, and not handed on: no cell of a run that fits is refused, and a test for each cell would cost time.
    for j in 0..n {
        let cell = memory.get(first + u32::from(j)).unwrap();
        bits::put_bit(row, usize::from(j), cell).unwrap();
    }
    Ok(())
}

/// Gives the `n` cells from cell `first` on the bits of a row buffer. Refused with 7 where the buffer is not one for n bits, then with 9 where
/// there are no such cells.
pub fn scatter<M: Memory>(memory: &mut M, first: u32, n: u8, row: &[u8]) -> Result<(), Refusal>
    ensures { Scattered (M.Memory.means memory.old) (M.Memory.means memory.new) first n row.now result }
{
    check_run(memory, first, n, row)?;
    for j in 0..n {
        let cell = bits::bit(row, usize::from(j)).unwrap();
        memory.put(first + u32::from(j), cell).unwrap();
    }
    Ok(())
}

/// Makes the first `n` cells zero. Refused with 9 where there are no such cells.
pub fn zero<M: Memory>(memory: &mut M, n: u32) -> Result<(), Refusal>
    ensures { Zeroed (M.Memory.means memory.old) (M.Memory.means memory.new) n result }
{
    if n > memory.cells() {
        return Err(Refusal::Cell);
    }
    for i in 0..n {
        memory.put(i, false).unwrap();
    }
    Ok(())
}

// A run stays two numbers: a struct of them would be made and taken apart again in each call.
fn check_run<M: Memory>(memory: &M, first: u32, n: u8, row: &[u8]) -> Result<(), Refusal>
    ensures { RunFits (M.Memory.means memory.now) first n row.now result }
{
    if row.len() != bits::bytes_for(n) {
        return Err(Refusal::Length);
    }
    let cells = memory.cells();
    if first > cells || u32::from(n) > cells - first {
        return Err(Refusal::Cell);
    }
    Ok(())
}
