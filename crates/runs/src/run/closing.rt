// Closing a run.
ghost use Rattle.std.specs.Prelude.{◌≡◌};

use super::Run;
use guards::Guard;
use planner::Slip;

impl<'actors, 'links, 'row, G: Guard> Run<'actors, 'links, 'row, G> {
    /// Ends the run and gives the slip back; the row holds what the last call left.
    pub fn close(self) -> Slip
        ensures slip { result ≡ self.entry.slip }
        ensures row { self.exit.1.1.0.now ≡ self.entry.row.now }
    {
        // The row is the caller's again, as it stands.
        let Run {
            slip,
            tables: _,
            row: _row,
            entries: _,
            turns: _,
        } = self;
        slip
    }
}
