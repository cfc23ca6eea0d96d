//! Copies of rows, in memory of a fixed size.
ghost use Rattle.std.specs.Prelude.{◌≡◌, ◌-◌, ◌≤◌, ◌++◌, length, replicate};

/// A row of at most 32 bytes, with zeros behind it.
pub(crate) fn padded(row: &[u8]) -> [u8; 32]
    requires { length row.now ≤ 32 }
    ensures { result ≡ row.now ++ replicate (32 - length row.now) 0 }
{
    let mut copy = [0u8; 32];
    copy[..row.len()].copy_from_slice(row);
    copy
}
