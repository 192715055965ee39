// The cells question.
ghost use Rattle.std.specs.Prelude.{◌≡◌, ◌<◌};
ghost use Rattle.records.specs.Faults.{told};
ghost use Rattle.running.specs.Runs.{buffer, cells_answer, cells_values};
ghost use Rattle.runs.specs.Seen.{site_of_run, standing_of_run};

use super::Run;
use guards::Guard;
use records::{Fault, Layer, Link, Mark, Refusal};
use running::{Cells, Entry};

// The buffer of a link whose sender and receiver have these entries. The link holds what its sender has begun to make and its
// receiver has not done with.
fn buffer(link: Link, sender: Entry, receiver: Entry) -> Cells
    requires { 0 < link.size }
    ensures { result ≡ buffer link sender receiver }
{
    let made = u64::from(link.delay) + u64::from(sender.starts);
    Cells {
        held: made.saturating_sub(u64::from(receiver.finishes)),
        write: made % u64::from(link.size),
        read: u64::from(receiver.starts) % u64::from(link.size),
    }
}

impl<'actors, 'links, 'row, G: Guard> Run<'actors, 'links, 'row, G> {
    /// Tells how the buffer of a cross link is: how many values it holds, which cell is written next, and which is read next.
    /// Refuses with 15 or 16 if the run is unsound, and with 17 if there is no cross link with this number.
    #[tactic(auto, using(std::proofs::lemmas::Result::err_from_is_err_and, running::proofs::Unsound::no_cells, crate::proofs::Asking::unknown_tells, crate::proofs::Asking::cross_tells))]
    pub fn cells(&self, link: usize) -> Result<Cells, Fault>
        ensures answer { result ≡ cells_answer (site_of_run self.now) (standing_of_run G.Guard.level self.now) link }
        ensures view { told cells_values result ≡ told cells_values (cells_answer (site_of_run self.now) (standing_of_run G.Guard.level self.now) link) }
    {
        self.tables.sound?;
        match self.tables.links.get(link) {
            Some(cross) if cross.has_mark(Mark::Dropped) || cross.has_mark(Mark::Kept) => {
                let sender = self.entries[cross.sender as usize];
                let receiver = self.entries[cross.receiver as usize];
                Ok(buffer(*cross, sender, receiver))
            }
            _ => Err(Fault::new(Refusal::Unknown, Layer::Run, link)),
        }
    }
}
