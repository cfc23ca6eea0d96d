//! How an entry stands in the data of a row: index x in bytes 2x and 2x + 1, low byte first.
ghost use Rattle.std.specs.Prelude.{◌≡◌, ◌+◌, ◌*◌, ◌<◌, length};
ghost use Rattle.entry.specs.TwosComplement.{bytes_of, number_of};
ghost use Rattle.table.specs.Model.{entry_at, changed};

use entry::{from_bytes, to_bytes};

/// The entry at an index of a row's data.
// The place of its two bytes stands in both functions: `chunks_exact(2).nth(..)` gives an Option of a slice, opened in each.
pub(crate) fn entry_at(bytes: &[u8], index: u32) -> i16
    requires { 2 * index + 1 < length bytes.now }
    ensures { result ≡ entry_at bytes.now index }
{
    let low = 2 * index as usize;
    from_bytes([bytes[low], bytes[low + 1]])
}

/// Makes the entry at an index of a row's data another.
pub(crate) fn set_entry_at(bytes: &mut [u8], index: u32, entry: i16)
    requires { 2 * index + 1 < length bytes.old }
    ensures value { bytes.new ≡ changed bytes.old index entry }
    ensures back { number_of (bytes_of entry) ≡ entry }
{
    let low = 2 * index as usize;
    [bytes[low], bytes[low + 1]] = to_bytes(entry);
}
