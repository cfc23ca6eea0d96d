//! Layers made and traced: each call with its answer and the cells that it leaves.
use layers::{Interleaver, Inverter, Window};
use memory::Memory;
use refusal::Refusal;
use std::fmt::Display;
use std::io;
use std::io::Write;

/// A call that changes cells.
#[derive(Clone, Copy)]
pub(crate) enum Step {
    Put(u32, bool),
    Knock(u32, u32),
}

/// What a lent slice of bytes holds at first.
pub(crate) const BYTES: [u8; 4] = [0x35, 0xc0, 0xff, 0x01];

/// What a lent slice of words holds at first.
pub(crate) const WORDS: [u32; 2] = [0x8000_0001, 0x0f0f_1234];

/// How many cells and places a line shows at most.
const SHOWN: u32 = 40;

// Not one function over any selection: what is shown here and below is `check` and `new` of each layer.
pub(crate) fn window<M: Memory + Drop>(
    page: &mut impl Write,
    below: M,
    first: u32,
    length: u32,
    steps: &[Step],
) -> io::Result<()> {
    write!(page, "window {first} {length}")?;
    answer(page, Window::check(&below, first, length))?;
    trace(page, &mut Window::new(below, first, length), steps)
}

pub(crate) fn interleaver<M: Memory + Drop>(
    page: &mut impl Write,
    below: M,
    depth: u32,
    width: u32,
    steps: &[Step],
) -> io::Result<()> {
    write!(page, "interleaver {depth} {width}")?;
    answer(page, Interleaver::check(&below, depth, width))?;
    trace(page, &mut Interleaver::new(below, depth, width), steps)
}

pub(crate) fn inverter<M: Memory + Drop>(
    page: &mut impl Write,
    below: M,
    steps: &[Step],
) -> io::Result<()> {
    writeln!(page, "inverter")?;
    trace(page, &mut Inverter::new(below), steps)
}

/// The number of cells, the span, the places and the cells; then each step with its answer and the cells.
pub(crate) fn trace<M: Memory>(page: &mut impl Write, m: &mut M, steps: &[Step]) -> io::Result<()> {
    writeln!(page, "  cells and span {} {}", m.cells(), m.span())?;
    write!(page, "  at")?;
    for k in 0..m.cells().min(SHOWN) {
        write!(page, " {}", m.place(k).unwrap())?;
    }
    writeln!(page)?;
    cells(page, m)?;
    for step in steps {
        // A match on values and no closures: a step is printed before it is made.
        match *step {
            Step::Put(i, v) => {
                write!(page, "  put {i} {}", u8::from(v))?;
                answer(page, m.put(i, v))?;
            }
            Step::Knock(from, length) => {
                write!(page, "  knock {from} {length}")?;
                answer(page, m.knock(from, length))?;
            }
        }
        cells(page, m)?;
    }
    Ok(())
}

fn answer(page: &mut impl Write, r: Result<(), Refusal>) -> io::Result<()> {
    match r {
        Ok(()) => writeln!(page, ": ok"),
        Err(refusal) => writeln!(page, ": no {}", refusal.number()),
    }
}

fn cells<M: Memory>(page: &mut impl Write, m: &M) -> io::Result<()> {
    write!(page, "  ")?;
    for k in 0..m.cells().min(SHOWN) {
        write!(page, "{}", u8::from(m.get(k).unwrap()))?;
    }
    writeln!(page)
}

/// The elements of a slice that was lent, on a line.
pub(crate) fn lent<E: Display + Drop>(page: &mut impl Write, elements: &[E]) -> io::Result<()> {
    write!(page, " ")?;
    for element in elements {
        write!(page, " {element}")?;
    }
    writeln!(page)
}
