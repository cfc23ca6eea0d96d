//! The two bytes of a stored entry: a two's complement number, low byte first.
ghost use Rattle.std.specs.Prelude.{◌≡◌};
ghost use Rattle.entry.specs.TwosComplement.{bytes_of, number_of};

/// The bytes of an entry. `from_bytes` gives the entry back.
pub fn to_bytes(entry: i16) -> [u8; 2]
    ensures value { result ≡ bytes_of entry }
    ensures back { number_of result ≡ entry }
{
    entry.to_le_bytes()
}

/// The entry that stands in two bytes; every pair of bytes is one. `to_bytes` gives the bytes back.
pub fn from_bytes(bytes: [u8; 2]) -> i16
    ensures value { result ≡ number_of bytes }
    ensures back { bytes_of result ≡ bytes }
{
    i16::from_le_bytes(bytes)
}
