//! The shortest demonstration: two values written into a coded book, a burst of turned cells, and both read back, mended and swept.
#![tactic(auto)]

use book::Book;
use direct_corrector::DirectCorrector;
use entry::{arcseconds, entry_of, from_bytes, to_bytes};
use field::TableField;
use layers::{Interleaver, Window};
use memory::{BuiltInCells, Memory};

type Cells = Interleaver<Window<BuiltInCells>>;

type TourBook = Book<DirectCorrector<TableField>, Cells>;

/// A row has 31 cells: 10 check cells, then 21 data cells, the lowest first.
const ROW: u32 = 31;

const CHECKS: u32 = 10;

fn write(rt: &impl Print, book: &mut TourBook, row: u32, value: f64) -> anyhow::Result<()> {
    let [low, high] = to_bytes(entry_of(value)?);
    book.write(row, &[low, high, 0])?;
    println!(rt; "write      row {row}: {value} arcseconds, ok")?;
    Ok(())
}

fn read(rt: &impl Print, book: &TourBook, row: u32) -> anyhow::Result<()> {
    let mut bytes = [0u8; 3];
    let count = book.read(row, &mut bytes)?;
    let [low, high, _] = bytes;
    let value = arcseconds(from_bytes([low, high]));
    println!(rt; "read       row {row}: {value} arcseconds, {count} cells differ")?;
    Ok(())
}

/// Prints the cells of both rows as they are, the check cells apart.
fn show(rt: &impl Print, book: &TourBook) -> anyhow::Result<()> {
    for row in 0..2u32 {
        print!(rt; "row {row}      ")?;
        for p in 0..ROW {
            let gap = if p == CHECKS { " " } else { "" };
            let cell = u8::from(book.memory().get(row * ROW + p)?);
            print!(rt; "{gap}{cell}")?;
        }
        println!(rt; "")?;
    }
    Ok(())
}

fn damage(rt: &impl Print, book: &mut TourBook) -> anyhow::Result<()> {
    book.knock(20, 4)?;
    println!(rt; "knock      4 places from place 20 on: ok")?;
    Ok(())
}

fn repair(rt: &impl Print, book: &mut TourBook) -> anyhow::Result<()> {
    let turned = book.mend(0)?;
    println!(rt; "mend       row 0: {turned} cells turned")?;
    let swept = book.sweep();
    println!(rt;
        "sweep      {} rows mended, {} refused, {} cells turned",
        swept.accepted, swept.refused, swept.turned
    )?;
    Ok(())
}

fn main(rt: HostRuntime) -> anyhow::Result<()> {
    println!(rt;
        "A book of 2 rows over 62 interleaved cells: a row has 10 check cells and 21 data cells, and 2 turned cells of it are corrected."
    )?;
    let cells = Interleaver::new(Window::new(BuiltInCells::new(), 0, 62), 2, 31);
    let mut book = Book::blank(DirectCorrector::new(TableField::new(5), 2), cells, 2, 2);
    write(&rt, &mut book, 0, 12.5)?;
    write(&rt, &mut book, 1, -3.25)?;
    show(&rt, &book)?;
    damage(&rt, &mut book)?;
    show(&rt, &book)?;
    read(&rt, &book, 0)?;
    read(&rt, &book, 1)?;
    repair(&rt, &mut book)?;
    read(&rt, &book, 0)?;
    read(&rt, &book, 1)
}
