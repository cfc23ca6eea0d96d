//! Both correctors for m = 4 on all 32,768 rows and for every t, beside a table of nearest code rows that is made another way: the code rows are
//! the multiples of the generator polynomial, found by long division, and the nearest is found by counting.
#![tactic(auto)]

use corrector::{Agreement, Corrector, agree};
use direct_corrector::DirectCorrector;
use field::{ShiftField, TableField};
use refusal::Refusal;
use std::io;
use step_corrector::StepCorrector;

/// How many rows of 15 cells there are.
const ROWS: u16 = 32768;

/// How many code rows there are at most.
const MOST: usize = 2048;

/// A row, and the code row nearest to it.
#[derive(Clone, Copy)]
struct Case {
    row: u16,
    nearest: u16,
}

impl Case {
    fn distance(&self) -> u32 {
        (self.row ^ self.nearest).count_ones()
    }

    /// Whether a corrector makes of the row what the case says.
    fn is_met_by<C: Corrector>(&self, c: &C) -> bool {
        let mut bytes = self.row.to_le_bytes();
        let answer = c.correct(&mut bytes).map(u32::from);
        let (right, left) = if self.distance() <= u32::from(c.corrects()) {
            (Ok(self.distance()), self.nearest)
        } else {
            (Err(Refusal::NoCodeRow), self.row)
        };
        answer == right && u16::from_le_bytes(bytes) == left
    }
}

/// Whether a row is a multiple of a polynomial of the degree; bit i stands for x^i.
// `fields_alike` divides by such a loop: a crate for both would rest on no library, and be no shorter than the loop.
fn is_multiple(row: u16, polynomial: u16, degree: u32) -> bool {
    let mut rest = row;
    for i in (degree..16).rev() {
        if (rest >> i) % 2 == 1 {
            rest ^= polynomial << (i - degree);
        }
    }
    rest == 0
}

/// The multiples of the generator of the degree, in the order of the rows.
// no heap: the caller lends an array with room for the most code rows
fn multiples_of(generator: u16, degree: u32, room: &mut [u16; MOST]) -> &[u16] {
    let multiples = (0..ROWS).filter(|row| is_multiple(*row, generator, degree));
    let mut count = 0;
    for ((i, place), row) in room.iter_mut().enumerate().zip(multiples) {
        *place = row;
        count = i + 1;
    }
    &room[..count.min(MOST)]
}

fn nearest_of(code: &[u16], row: u16) -> u16 {
    code.iter()
        .copied()
        .min_by_key(|other| (*other ^ row).count_ones())
        .unwrap_or(0)
}

/// How often each came up. The counts go to 32,768, so they cannot wrap.
#[derive(Clone, Copy, Default)]
struct Totals {
    /// The rows that are corrected, by their distances.
    corrected: [u16; 4],
    refused: u16,
    disagreements: u16,
}

impl Totals {
    /// One case more, for correctors of t errors that are right on it or not.
    fn with(mut self, case: Case, t: u8, right: bool) -> Totals {
        match self.corrected.get_mut(case.distance() as usize) {
            Some(count) if case.distance() <= u32::from(t) => *count = count.wrapping_add(1),
            _ => self.refused = self.refused.wrapping_add(1),
        }
        self.disagreements = self.disagreements.wrapping_add(u16::from(!right));
        self
    }
}

/// Both correctors on every row beside the nearest of the code rows.
fn count_all<C: Corrector, D: Corrector>(step: &C, direct: &D, code: &[u16]) -> Totals {
    (0..ROWS).fold(Totals::default(), |totals, row| {
        let case = Case {
            row,
            nearest: nearest_of(code, row),
        };
        let right = agree(step, direct, &row.to_le_bytes()) == Agreement::Alike
            && case.is_met_by(step)
            && case.is_met_by(direct);
        totals.with(case, step.corrects(), right)
    })
}

fn main(rt: HostRuntime) -> io::Result<()> {
    println!(rt;
        "m = 4, all 32768 rows, both correctors beside the nearest code rows by counting:"
    )?;
    // The published generators of the codes of 15 cells that correct one, two and three errors, and their degrees
    for (t, generator, degree) in [(1, 0x13, 4), (2, 0x1D1, 8), (3, 0x537, 10)] {
        let step = StepCorrector::new(ShiftField::new(4), t);
        let direct = DirectCorrector::new(TableField::new(4), t);
        let mut room = [0; MOST];
        let all = count_all(&step, &direct, multiples_of(generator, degree, &mut room));
        let [clean, one, two, three] = all.corrected;
        println!(rt;
            "t = {t}: clean {clean}, one {one}, two {two}, three {three}, refused {}, disagreements {}",
            all.refused, all.disagreements
        )?;
    }
    Ok(())
}
