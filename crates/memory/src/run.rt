//! Runs of packed cells.
ghost use Rattle.std.specs.Prelude.{◌*◌, ◌≤◌, length};
ghost use Rattle.memory.specs.Packing.{RunTurned};

use bits::{Element, turn_bit};
use refusal::Refusal;

/// Turns the `many` cells from `from` on, of the first `cells`; refused where there are no such cells. The run is turned cell by cell,
/// so only its own elements are read or written.
pub(crate) fn turn_run<E: Element>(
    elements: &mut [E],
    cells: u32,
    from: u32,
    many: u32,
) -> Result<(), Refusal>
    requires { cells ≤ E.WIDTH * length elements.old }
    ensures { RunTurned E.WIDTH cells (E.numbers elements.old) (E.numbers elements.new) from many result }
{
    if from > cells || many > cells - from {
        return Err(Refusal::Cell);
    }
    for k in from..from + many {
        turn_bit(elements, k as usize)?;
    }
    Ok(())
}
