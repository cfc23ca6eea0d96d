//! Worked cases of the numbers of a gear table, one to a line. What must be printed was worked out with exact fractions.
#![tactic(auto)]

use entry::{Position, arcseconds, blend, entry_of, from_bytes, locate, next_index, to_bytes};
use refusal::Refusal;
use std::io;

fn main(rt: HostRuntime) -> io::Result<()> {
    values(&rt)?;
    look_ups(&rt, &[0, 1])?;
    look_ups(&rt, &[0, -1])?;
    look_ups(&rt, &[-32_768, 32_767, 12])?;
    bytes(&rt)?;
    way_back(&rt)
}

/// Values whose 64-fold lies at a half or just below one, and values at the limits and beyond them.
fn values(rt: &impl Print) -> io::Result<()> {
    let below_half = 0.49999999999999994 / 64.0;
    let past_limit = 500.0_f64.next_up();
    for value in [
        1.0 / 128.0,
        -1.0 / 128.0,
        3.0 / 128.0,
        -5.0 / 128.0,
        below_half,
        -below_half,
        1.0 / 3.0,
        500.0,
        -500.0,
        past_limit,
        -past_limit,
        f64::NAN,
        f64::INFINITY,
        f64::NEG_INFINITY,
    ] {
        let answer = entry_of(value).map_err(Refusal::number);
        println!(rt; "{value}: {answer:?}")?;
    }
    Ok(())
}

fn look_ups(rt: &impl Print, table: &[i16]) -> io::Result<()> {
    for angle in [0, 16_383, 16_384, 30_000, 65_535] {
        let answer = look_up(table, angle);
        println!(rt; "{table:?} at {angle}: {answer:?}")?;
    }
    Ok(())
}

fn look_up(table: &[i16], angle: u16) -> Option<i16> {
    let entries = u16::try_from(table.len()).ok()?;
    let Position { index, fraction } = locate(angle, entries);
    let entry = *table.get(usize::from(index))?;
    let next = *table.get(usize::from(next_index(index, entries)))?;
    Some(blend(entry, next, fraction))
}

fn bytes(rt: &impl Print) -> io::Result<()> {
    for entry in [0, 258, -2, 32_767, -32_768] {
        let stored = to_bytes(entry);
        let read = from_bytes(stored);
        println!(rt; "{entry} is stored as {stored:?} and read as {read}")?;
    }
    Ok(())
}

/// How many of all entries come back from their value in arcseconds, and how many are refused. The counts go to 65,536, so they cannot wrap.
fn way_back(rt: &impl Print) -> io::Result<()> {
    // One fold for both counts: each entry is worked out once.
    let (same, refused) = (i16::MIN..=i16::MAX).fold((0u32, 0u32), |(same, refused), entry| {
        match entry_of(arcseconds(entry)) {
            Ok(back) => (same.wrapping_add(u32::from(back == entry)), refused),
            Err(_) => (same, refused.wrapping_add(1)),
        }
    });
    println!(rt; "{same} entries come back, {refused} are refused")
}
