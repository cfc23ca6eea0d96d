//! The systematic encoder, and taking the data out again.
ghost use Rattle.std.specs.Prelude.{◌≡◌, ℕ, ◌*◌, ◌≤◌, length};
ghost use Rattle.bits.specs.Bits.{bit_at};
ghost use Rattle.galois.specs.Rows.{data_cells};
ghost use Rattle.bch.specs.Calls.{Encoded, Extracted};
ghost use Rattle.bch.specs.Steps.{data_register, row_laid, all_cells};

use crate::code::Code;
use crate::sizes::row_cells;
use bits::{bit, bytes_for, check_buffer, clear, put_bit};
use field::Field;
use refusal::Refusal;

/// Leaves in the row buffer the code row of the data. Refused with 3 for a t that does not fit, with 7 for a buffer of the wrong length,
/// with 8 for an unused bit set in the data; the row buffer is then as it was.
pub fn encode<F: Field>(f: &F, t: u8, data: &[u8], row: &mut [u8]) -> Result<(), Refusal>
    ensures { Encoded (F.Field.model f.now) t «data».now row.old row.new result }
{
    let code = Code::new(f, t)?;
    if row.len() != bytes_for(row_cells(f)) {
        return Err(Refusal::Length);
    }
    check_buffer(data, code.data_cells())?;
    code.lay(code.remainder(code.generator(), data), data, row);
    Ok(())
}

/// Leaves in the data buffer the data of the row. Refused with 3 for a t that does not fit, with 7 for a buffer of the wrong length, with 8
/// for an unused bit set in the row; the data buffer is then as it was.
pub fn extract<F: Field>(f: &F, t: u8, row: &[u8], data: &mut [u8]) -> Result<(), Refusal>
    ensures { Extracted (F.Field.model f.now) t row.now «data».old «data».new result }
{
    let code = Code::new(f, t)?;
    let k = code.data_cells();
    if data.len() != bytes_for(k) {
        return Err(Refusal::Length);
    }
    check_buffer(row, row_cells(f))?;
    clear(data);
    let r = usize::from(code.check_cells());
    for j in 0..usize::from(k) {
        put_bit(data, j, bit(row, r + j)?)?;
    }
    Ok(())
}

impl<'a, F: Field> Code<'a, F> {
    /// The shift register of g after the data cells, the highest first.
    fn remainder(&self, g: u32, data: &[u8]) -> u32
        requires { data_cells (F.Field.model self.now.field.now).m self.now.t ≤ 8 * length «data».now }
        ensures { result ≡ data_register (F.Field.model self.now.field.now) self.now.t g «data».now }
    {
        let r = self.check_cells();
        let k = usize::from(self.data_cells());
        let mask = (1u32 << r) - 1;
        let low = g & mask;
        let mut all = 0u32;
        for s in (0..k).rev() {
            let top = (all >> (r - 1)) % 2 == 1;
            all = (2 * all) & mask;
            // Not `bit`: each s is within the data, and its refusal would be one more answer to hand on.
            if top != ((data[s / 8] >> (s % 8)) % 2 == 1) {
                all ^= low;
            }
        }
        all
    }

    /// Lays the check cells and then the data cells into a row buffer that has room for them.
    fn lay(&self, check: u32, data: &[u8], row: &mut [u8])
        requires given { data_cells (F.Field.model self.now.field.now).m self.now.t ≤ 8 * length «data».now }
        requires room { all_cells (F.Field.model self.now.field.now) self.now.t ≤ 8 * length row.old }
        ensures { (j : ℕ) → bit_at 8 row.new j ≡ row_laid (F.Field.model self.now.field.now) self.now.t check «data».now j }
    {
        let r = usize::from(self.check_cells());
        let k = usize::from(self.data_cells());
        clear(row);
        for j in 0..r {
            put_bit(row, j, (check >> j) % 2 == 1).unwrap();
        }
        for j in 0..k {
            put_bit(row, r + j, bit(data, j).unwrap()).unwrap();
        }
    }
}
