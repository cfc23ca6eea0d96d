//! Figures that do not fit, the smallest and the largest memories.
use crate::trace::{BYTES, Step, interleaver, lent, trace, window};
use memory::{ByteCells, WordCells};
use std::io;
use std::io::Write;

// Not one function with the next: the figures, the layer and the steps differ, so the loop would take all three and hold nothing.
pub(crate) fn unfit_windows(page: &mut impl Write) -> io::Result<()> {
    for (first, length) in [
        (0, 32),
        (0, 33),
        (31, 1),
        (31, 2),
        (32, 0),
        (0, 0),
        (u32::MAX, 1),
        (1, u32::MAX),
    ] {
        let mut bytes = BYTES;
        window(
            page,
            ByteCells::new(&mut bytes),
            first,
            length,
            &[Step::Put(0, true), Step::Knock(30, 2), Step::Knock(30, 3)],
        )?;
        lent(page, &bytes)?;
    }
    Ok(())
}

pub(crate) fn unfit_interleavers(page: &mut impl Write) -> io::Result<()> {
    for (depth, width) in [
        (16, 2),
        (32, 1),
        (1, 32),
        (0, 8),
        (8, 0),
        (17, 1),
        (1, 256),
        (2, 15),
        (4, 16),
        (65536, 65536),
    ] {
        let mut bytes = BYTES;
        interleaver(
            page,
            ByteCells::new(&mut bytes),
            depth,
            width,
            &[Step::Put(31, true), Step::Knock(0, 2)],
        )?;
        lent(page, &bytes)?;
    }
    Ok(())
}

pub(crate) fn no_cells(page: &mut impl Write) -> io::Result<()> {
    let steps = [
        Step::Put(0, true),
        Step::Knock(0, 0),
        Step::Knock(0, 1),
        Step::Knock(1, 0),
    ];
    writeln!(page, "no bytes")?;
    let mut bytes: [u8; 0] = [];
    trace(page, &mut ByteCells::new(&mut bytes), &steps)?;
    window(page, ByteCells::new(&mut bytes), 0, 0, &steps)
}

/// Steps at the last cells of a memory that has the most, 262144.
const LAST_CELLS: [Step; 8] = [
    Step::Put(262143, false),
    Step::Put(262144, false),
    Step::Knock(262136, 4),
    Step::Knock(262136, 9),
    Step::Knock(262144, 0),
    Step::Knock(262145, 0),
    Step::Knock(u32::MAX, 1),
    Step::Knock(1, u32::MAX),
];

// Each slice is a little longer than the most cells. Not one function with the next: both slices would lie on the stack at once.
pub(crate) fn most_bytes(page: &mut impl Write) -> io::Result<()> {
    writeln!(page, "32770 bytes, the last five")?;
    let mut bytes = [0xb5; 32770];
    trace(page, &mut ByteCells::new(&mut bytes), &LAST_CELLS)?;
    lent(page, &bytes[32765..])
}

pub(crate) fn most_words(page: &mut impl Write) -> io::Result<()> {
    writeln!(page, "8194 words, the last four")?;
    let mut words = [0xb500_0001; 8194];
    trace(page, &mut WordCells::new(&mut words), &LAST_CELLS)?;
    lent(page, &words[8190..])
}
