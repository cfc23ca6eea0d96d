//! One list of calls on several books: fields of 16 and 256 elements, both correctors, reaches at and below t, and piles of layers over all
//! three bottoms. Each call is printed with its answer.
#![tactic(auto)]

use book::Book;
use corrector::Corrector;
use direct_corrector::DirectCorrector;
use field::{ShiftField, TableField};
use history::{Answer, Call, make};
use layers::{Interleaver, Inverter, Window};
use memory::{BuiltInCells, ByteCells, Memory, WordCells};
use std::fmt::{Display, Formatter};
use std::{array, fmt, io};
use step_corrector::StepCorrector;

/// The k bits of data that are written into a row, in the first bytes.
// no heap: an array with room for the data of any row
fn data_of(row: u32, k: u8) -> [u8; 32] {
    let start = (row.wrapping_mul(11).wrapping_add(5) % 256) as u8;
    let mut data = array::from_fn(|i| ((i % 256) as u8).wrapping_mul(37).wrapping_add(start));
    // The unused bits of the last byte are zero.
    if let Some(last) = data[..usize::from(k).div_ceil(8)].last_mut() {
        *last &= u8::MAX >> (k.wrapping_neg() % 8);
    }
    data
}

/// A call as it is printed.
// By hand and no derived Debug: the stored text has each call as a line of its own form.
#[derive(Clone, Copy)]
struct Shown<'a>(Call<'a>);

impl Display for Shown<'_> {
    fn fmt<W: fmt::Write>(&self, f: &mut Formatter<W>) -> fmt::Result {
        match self.0 {
            Call::Write { row, .. } => write!(f, "write {row}"),
            Call::Read { row } => write!(f, "read {row}"),
            Call::Mend { row } => write!(f, "mend {row}"),
            Call::Sweep => write!(f, "sweep"),
            Call::Knock { from, length } => write!(f, "knock {from} {length}"),
        }
    }
}

/// Makes a call, then prints it with its answer.
fn trace<C: Corrector, M: Memory>(
    rt: &impl Print,
    book: &mut Book<C, M>,
    call: Call<'_>,
) -> io::Result<()> {
    let shown = Shown(call);
    match make(book, call) {
        Ok(Answer::Written | Answer::Knocked) => println!(rt; "  {shown}: ok"),
        Ok(Answer::Read(count, data)) => println!(rt;
            "  {shown}: {count}, data {:02X} {:02X}",
            data[0], data[1]
        ),
        Ok(Answer::Mended(turned)) => println!(rt; "  {shown}: {turned}"),
        Ok(Answer::Swept(counts)) => println!(rt;
            "  {shown}: {} {} {}",
            counts.accepted, counts.refused, counts.turned
        ),
        Err(refusal) => println!(rt; "  {shown}: no {}", refusal.number()),
    }
}

/// Makes the calls on a book whose layers spread a burst of `burst` places over its rows.
fn run<C: Corrector + Drop, M: Memory + Drop>(
    rt: &impl Print,
    name: &str,
    mut book: Book<C, M>,
    burst: u32,
) -> io::Result<()> {
    let k = book.data_cells();
    let rows = book.rows();
    let last = rows.saturating_sub(1);
    let size = usize::from(k).div_ceil(8);
    let first_data = data_of(0, k);
    let last_data = data_of(last, k);
    let calls = [
        Call::Write {
            row: 0,
            bytes: &first_data[..size],
        },
        Call::Write {
            row: last,
            bytes: &last_data[..size],
        },
        Call::Write {
            row: rows,
            bytes: &last_data[..size],
        },
        // Light damage: single knocks and one burst.
        Call::Knock { from: 3, length: 1 },
        Call::Read { row: 0 },
        Call::Mend { row: 0 },
        Call::Knock {
            from: 4,
            length: burst,
        },
        Call::Read { row: 0 },
        Call::Read { row: last },
        Call::Sweep,
        // Heavy damage: more than the reach.
        Call::Knock {
            from: book.memory().span().saturating_sub(1),
            length: 2,
        },
        Call::Knock { from: 0, length: 9 },
        Call::Knock {
            from: 40,
            length: 3,
        },
        Call::Read { row: 0 },
        Call::Mend { row: 0 },
        Call::Read { row: last },
        Call::Sweep,
        Call::Write {
            row: 0,
            bytes: &first_data[..size],
        },
        Call::Read { row: 0 },
    ];
    println!(rt; "{name}")?;
    for call in calls {
        trace(rt, &mut book, call)?;
    }
    Ok(())
}

fn main(rt: HostRuntime) -> io::Result<()> {
    let cells = Interleaver::new(Window::new(BuiltInCells::new(), 0, 30), 2, 15);
    let book = Book::blank(StepCorrector::new(TableField::new(4), 2), cells, 2, 2);
    run(
        &rt,
        "m = 4, t = 2, reach 2, step by step, interleaved built-in cells",
        book,
        4,
    )?;
    let mut bytes = [0u8; 8];
    let book = Book::blank(
        DirectCorrector::new(ShiftField::new(4), 1),
        ByteCells::new(&mut bytes),
        1,
        4,
    );
    run(&rt, "m = 4, t = 1, reach 1, direct, lent bytes", book, 1)?;
    let mut words = [0u32; 32];
    let book = Book::blank(
        DirectCorrector::new(TableField::new(8), 3),
        Inverter::new(WordCells::new(&mut words)),
        2,
        4,
    );
    run(
        &rt,
        "m = 8, t = 3, reach 2, direct, inverted lent words",
        book,
        2,
    )?;
    let mut bytes = [0u8; 128];
    let cells = Interleaver::new(Window::new(ByteCells::new(&mut bytes), 0, 1020), 4, 255);
    let book = Book::blank(StepCorrector::new(TableField::new(8), 3), cells, 3, 4);
    run(
        &rt,
        "m = 8, t = 3, reach 3, step by step, interleaved lent bytes",
        book,
        12,
    )
}
