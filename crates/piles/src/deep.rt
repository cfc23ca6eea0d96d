//! Several layers over one another, and users that know nothing but the trait.
use crate::trace::{BYTES, Step, WORDS, interleaver, inverter, lent, trace, window};
use layers::{Interleaver, Inverter, Window, cell_eighteen, copy, fill};
use memory::{BuiltInCells, ByteCells, WordCells};
use std::io;
use std::io::Write;

pub(crate) fn over_built_in(page: &mut impl Write) -> io::Result<()> {
    writeln!(page, "over window 0 30 over built-in")?;
    writeln!(page, "  cell and place 18 {}", cell_eighteen().unwrap())?;
    let steps = [Step::Put(18, true), Step::Knock(6, 4), Step::Knock(29, 2)];
    interleaver(page, Window::new(BuiltInCells::new(), 0, 30), 2, 15, &steps)
}

pub(crate) fn over_bytes(page: &mut impl Write) -> io::Result<()> {
    writeln!(page, "over interleaver 2 15 over window 1 30 over bytes")?;
    let mut bytes = BYTES;
    let below = Interleaver::new(Window::new(ByteCells::new(&mut bytes), 1, 30), 2, 15);
    inverter(
        page,
        below,
        &[
            Step::Put(29, false),
            Step::Put(0, false),
            Step::Knock(0, 7),
            Step::Put(30, true),
        ],
    )?;
    lent(page, &bytes)?;
    writeln!(page, "over interleaver 2 3 over window 3 24 over bytes")?;
    let below = Interleaver::new(Window::new(ByteCells::new(&mut bytes), 3, 24), 2, 3);
    interleaver(
        page,
        below,
        3,
        2,
        &[Step::Put(23, true), Step::Put(1, true), Step::Knock(4, 5)],
    )?;
    lent(page, &bytes)
}

pub(crate) fn over_words(page: &mut impl Write) -> io::Result<()> {
    writeln!(page, "over inverter over interleaver 4 8 over words")?;
    let mut words = WORDS;
    let below = Inverter::new(Interleaver::new(WordCells::new(&mut words), 4, 8));
    window(
        page,
        below,
        7,
        18,
        &[
            Step::Put(0, false),
            Step::Put(17, false),
            Step::Knock(26, 10),
        ],
    )?;
    lent(page, &words)?;
    writeln!(page, "over window 28 12 over words")?;
    let below = Window::new(WordCells::new(&mut words), 28, 12);
    window(
        page,
        below,
        4,
        6,
        &[Step::Put(0, true), Step::Put(6, true), Step::Knock(30, 4)],
    )?;
    lent(page, &words)
}

pub(crate) fn transfers(page: &mut impl Write) -> io::Result<()> {
    let mut bytes = BYTES;
    let from = Inverter::new(ByteCells::new(&mut bytes));
    let mut to = Window::new(BuiltInCells::new(), 100, 40);
    writeln!(page, "copy over all of the source")?;
    let _ = copy(&from, &mut to);
    trace(page, &mut to, &[Step::Knock(100, 3)])?;
    writeln!(page, "fill")?;
    fill(&mut to, true);
    trace(page, &mut to, &[Step::Put(1, false)])?;
    writeln!(page, "copy over all of the target")?;
    let mut few = Interleaver::new(Window::new(to, 4, 12), 3, 4);
    let _ = copy(&from, &mut few);
    trace(page, &mut few, &[])
}
