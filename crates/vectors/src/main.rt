//! Outside vectors: the generator polynomials as the standard tables print them, and rows worked by hand.
#![tactic(auto)]

use bch::{data_cells, encode, generator_polynomial, row_cells};
use field::{ShiftField, TableField};

/// Prints n, k, t and the generator in octal for the three codes of one degree.
fn generators(rt: &impl Print, m: u8) -> anyhow::Result<()> {
    let f = ShiftField::new(m);
    let n = row_cells(&f);
    for t in 1..=3u8 {
        let k = data_cells(&f, t)?;
        let g = generator_polynomial(&f, t)?;
        println!(rt; "({n}, {k}) t = {t}: {g:o}")?;
    }
    Ok(())
}

/// Prints the row of the data byte 01 for m = 4.
fn worked_row(rt: &impl Print, t: u8) -> anyhow::Result<()> {
    let f = TableField::new(4);
    let mut row = [0u8; 2];
    encode(&f, t, &[0x01], &mut row)?;
    let [first, second] = row;
    println!(rt; "m = 4, t = {t}, data 01: {first:02X} {second:02X}")?;
    Ok(())
}

fn main(rt: HostRuntime) -> anyhow::Result<()> {
    for m in 4..=8u8 {
        generators(&rt, m)?;
    }
    worked_row(&rt, 2)?;
    worked_row(&rt, 3)
}
