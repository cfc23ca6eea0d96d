//! Whole memories filled and copied, over nothing but the trait.
ghost use Rattle.std.specs.Prelude.{◌≡◌, min, if◌then◌else◌, nat_lt};
ghost use Rattle.memory.specs.Mem.{Layout, Mem, Leaves};

use memory::Memory;

/// Gives every cell the value `v`.
pub fn fill<M: Memory>(m: &mut M, v: bool)
    ensures { Leaves (M.Memory.means m.old) (M.Memory.means m.new) (λ k. v) }
{
    for k in 0..m.cells() {
        m.put(k, v).unwrap();
    }
}

/// Copies the cells of `a` to those of `b` with the same number, and says how many there are.
pub fn copy<A: Memory, B: Memory>(a: &A, b: &mut B) -> u32
    ensures count { result ≡ min (A.Memory.means a.now).layout.cells (B.Memory.means b.old).layout.cells }
    ensures cells { Leaves (B.Memory.means b.old) (B.Memory.means b.new) (λ k. (if nat_lt k result then (A.Memory.means a.now).bit k else (B.Memory.means b.old).bit k)) }
{
    let many = a.cells().min(b.cells());
    for k in 0..many {
        b.put(k, a.get(k).unwrap()).unwrap();
    }
    many
}
