//! Piles of memories: every bottom, every layer over every bottom, several layers over one another, figures that do not fit, and the
//! limits. Each call is shown with its answer and the cells that it leaves; after a pile has gone, the slice that it was lent is shown.
#![tactic(auto)]

use std::io;
use std::io::{Cursor, Write};

mod deep;
mod limits;
mod single;
mod trace;

/// How long the text may be.
const SIZE: usize = 32768;

fn main(rt: HostRuntime) -> io::Result<()> {
    // no heap: an array with room for the whole text, which is written at once
    let mut page = Cursor::new([0u8; SIZE]);
    single::bottoms(&mut page)?;
    single::over_bytes(&mut page)?;
    single::over_words(&mut page)?;
    single::over_built_in(&mut page)?;
    deep::over_built_in(&mut page)?;
    deep::over_bytes(&mut page)?;
    deep::over_words(&mut page)?;
    deep::transfers(&mut page)?;
    limits::unfit_windows(&mut page)?;
    limits::unfit_interleavers(&mut page)?;
    limits::no_cells(&mut page)?;
    limits::most_bytes(&mut page)?;
    limits::most_words(&mut page)?;
    let used = (page.position() as usize).min(SIZE);
    rt.stdout().write_all(&page.get_ref()[..used])
}
