//! A position turned on trial: where the trial ends the cell is turned back, unless the turn was kept. A position past the row turns nothing.
ghost use Rattle.std.specs.Prelude.{◌≡◌, ◌*◌, ◌<◌, length};
ghost use Rattle.step_corrector.specs.Trials.{Turned};

use bits::turn_bit;

pub(crate) struct Trial<'a> {
    row: &'a mut [u8],
    position: usize,
}

impl Drop for Trial<'_> {
    fn drop(self)
        ensures { Turned self.entry.row.now self.exit.0.now self.entry.position }
    {
        let Trial { row, position } = self;
        let _ = turn_bit(row, position);
    }
}

impl<'a> Trial<'a> {
    pub(crate) fn new(row: &'a mut [u8], position: usize) -> Trial<'a>
        ensures turned { Turned row.old result.row.now position }
        ensures placed { (result.position ≡ position) × (length result.row.now ≡ length row.old) }
        ensures lent { result.row.ghost_name ≡ row.entry.ghost_name }
    {
        let _ = turn_bit(row, position);
        Trial { row, position }
    }

    /// Ends the trial with the cell as it was turned.
    pub(crate) fn keep(self)
        ensures { self.exit.0.now ≡ self.entry.row.now }
    {
        let Trial {
            row: _,
            position: _,
        } = self;
    }
}
