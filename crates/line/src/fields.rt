//! The fields of a line: decimal numbers, bytes, and the single space between two fields.
ghost use Rattle.std.specs.Prelude.{◌≡◌, ◌==◌, position};
ghost use Rattle.line.specs.Spelling.{HexDigit, HexNumeral, Leads, Numeral, Reads};

use refusal::Refusal;

/// The index of the first byte that is `wanted`.
pub(crate) fn position(bytes: &[u8], wanted: u8) -> Option<usize>
    ensures { result ≡ position (λ b. b == wanted) bytes.now }
{
    bytes.iter().position(|byte| *byte == wanted)
}

/// A decimal number of one to five digits.
// Digit by digit: `parse` of the library takes a sign and more digits too.
pub(crate) fn number(field: &[u8]) -> Result<u32, Refusal>
    ensures { Reads (Numeral field.now) result }
{
    if field.is_empty() || field.len() > 5 {
        return Err(Refusal::Line);
    }
    let mut value = 0u32;
    for digit in field {
        value = value * 10 + char::from(*digit).to_digit(10).ok_or(Refusal::Line)?;
    }
    Ok(value)
}

/// The number before the first space, and what stands after that space.
pub(crate) fn split_number(fields: &[u8]) -> Result<(u32, &[u8]), Refusal>
    ensures { Leads fields.now result }
{
    let space = position(fields, b' ').ok_or(Refusal::Line)?;
    let number = number(&fields[..space])?;
    Ok((number, &fields[space + 1..]))
}

/// A byte as two digits, 0 to 9 and A to F.
pub(crate) fn byte(field: &[u8]) -> Result<u8, Refusal>
    ensures { Reads (HexNumeral field.now) result }
{
    let [high, low] = field else {
        return Err(Refusal::Line);
    };
    let high = hex_digit(*high)?;
    let low = hex_digit(*low)?;
    Ok(high * 16 + low)
}

/// The value of one such digit.
// By ranges: `to_digit` of the library takes the letters a to f too.
fn hex_digit(digit: u8) -> Result<u8, Refusal>
    ensures { Reads (HexDigit digit) result }
{
    match digit {
        b'0'..=b'9' => Ok(digit - b'0'),
        b'A'..=b'F' => Ok(digit - b'A' + 10),
        _ => Err(Refusal::Line),
    }
}
