//! The three bottoms, and each layer over each of them.
use crate::trace::{BYTES, Step, WORDS, interleaver, inverter, lent, trace, window};
use bits::Element;
use memory::{BuiltInCells, ByteCells, LentCells, WordCells};
use std::fmt::Display;
use std::io;
use std::io::Write;

pub(crate) fn bottoms(page: &mut impl Write) -> io::Result<()> {
    let steps = [
        Step::Put(3, true),
        Step::Put(0, false),
        Step::Knock(4, 9),
        Step::Put(4096, true),
        Step::Knock(0, 4097),
    ];
    writeln!(page, "bytes")?;
    let mut bytes = BYTES;
    trace(page, &mut ByteCells::new(&mut bytes), &steps)?;
    lent(page, &bytes)?;
    writeln!(page, "words")?;
    let mut words = WORDS;
    trace(page, &mut WordCells::new(&mut words), &steps)?;
    lent(page, &words)?;
    writeln!(page, "built-in")?;
    trace(page, &mut BuiltInCells::new(), &steps)
}

/// Figures of a layer and the steps that are made on it.
type Pile<'a> = (u32, u32, &'a [Step]);

/// A window, an interleaver and an inverter over a lent slice, which is shown after each.
fn over_lent<E: Element + Display + Drop>(
    page: &mut impl Write,
    elements: &mut [E],
    (first, length, window_steps): Pile<'_>,
    (depth, width, interleaver_steps): Pile<'_>,
    inverter_steps: &[Step],
) -> io::Result<()> {
    window(page, LentCells::new(elements), first, length, window_steps)?;
    lent(page, elements)?;
    interleaver(
        page,
        LentCells::new(elements),
        depth,
        width,
        interleaver_steps,
    )?;
    lent(page, elements)?;
    inverter(page, LentCells::new(elements), inverter_steps)?;
    lent(page, elements)
}

pub(crate) fn over_bytes(page: &mut impl Write) -> io::Result<()> {
    writeln!(page, "over bytes")?;
    let mut bytes = BYTES;
    over_lent(
        page,
        &mut bytes,
        (
            5,
            20,
            &[Step::Put(0, false), Step::Put(20, true), Step::Knock(3, 4)],
        ),
        (
            2,
            8,
            &[Step::Put(9, true), Step::Knock(0, 4), Step::Knock(30, 2)],
        ),
        &[
            Step::Put(9, true),
            Step::Put(0, false),
            Step::Knock(0, 4),
            Step::Put(32, true),
        ],
    )
}

pub(crate) fn over_words(page: &mut impl Write) -> io::Result<()> {
    writeln!(page, "over words")?;
    let mut words = WORDS;
    over_lent(
        page,
        &mut words,
        (
            30,
            10,
            &[Step::Put(9, true), Step::Knock(31, 3), Step::Put(10, true)],
        ),
        (
            4,
            8,
            &[Step::Put(63, true), Step::Put(8, true), Step::Knock(28, 8)],
        ),
        &[Step::Put(0, true), Step::Put(1, false), Step::Knock(60, 4)],
    )
}

pub(crate) fn over_built_in(page: &mut impl Write) -> io::Result<()> {
    writeln!(page, "over built-in")?;
    window(
        page,
        BuiltInCells::new(),
        4090,
        6,
        &[
            Step::Put(5, true),
            Step::Knock(4088, 4),
            Step::Knock(4095, 2),
        ],
    )?;
    interleaver(
        page,
        BuiltInCells::new(),
        16,
        64,
        &[
            Step::Put(1, true),
            Step::Knock(0, 64),
            Step::Put(4096, true),
        ],
    )?;
    inverter(
        page,
        BuiltInCells::new(),
        &[
            Step::Put(2, false),
            Step::Knock(0, 4096),
            Step::Knock(1, 4096),
        ],
    )
}
