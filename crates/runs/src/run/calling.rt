// Calls one after the other, each with its answer.
ghost use Rattle.std.specs.Prelude.{◌≡◌};
ghost use Rattle.running.specs.Rehearsals.{answer_to, answer_values, after_call, carried, carried_to};
ghost use Rattle.running.specs.Runs.{fault_of};
ghost use Rattle.runs.specs.Alone.{Stand, guarded_if};
ghost use Rattle.runs.specs.Seen.{site_of_run, standing_of_run, Kept};

use super::Run;
use guards::Guard;
use running::{Answer, Call, Step};

impl<'actors, 'links, 'row, G: Guard> Run<'actors, 'links, 'row, G> {
    /// Makes one call, and tells what it answers: that it was accepted, how the buffer is, or its refusal.
    #[tactic(auto, using(crate::proofs::Calling::act_leaves))]
    pub fn call(&mut self, call: Call) -> Answer
        ensures answer { result ≡ answer_to (site_of_run self.old) (standing_of_run G.Guard.level self.old) call }
        ensures view { answer_values result ≡ answer_values (answer_to (site_of_run self.old) (standing_of_run G.Guard.level self.old) call) }
        ensures standing { standing_of_run G.Guard.level self.new ≡ after_call (site_of_run self.old) (standing_of_run G.Guard.level self.old) call }
        ensures stand { Stand (guarded_if (fault_of self.old.tables.sound)) self.old.tables.links.now self.old.row.now self.new.row.now }
        ensures kept { Kept self.old self.new }
    {
        // A call is data that callers list, so it is matched; closures could not be listed in a table of steps.
        match call {
            Call::Start(actor) => self.start(actor).into(),
            Call::Finish(actor) => self.finish(actor).into(),
            Call::Cells(link) => self.cells(link).into(),
        }
    }

    /// Makes the calls, one after the other, and writes each answer into its call's record.
    pub(crate) fn carry_out(&mut self, steps: &mut [Step])
        ensures steps { steps.new ≡ carried (site_of_run self.old) (standing_of_run G.Guard.level self.old) steps.old }
        ensures standing { standing_of_run G.Guard.level self.new ≡ carried_to (site_of_run self.old) (standing_of_run G.Guard.level self.old) steps.old }
        ensures stand { Stand (guarded_if (fault_of self.old.tables.sound)) self.old.tables.links.now self.old.row.now self.new.row.now }
        ensures kept { Kept self.old self.new }
    {
        for step in steps.iter_mut() {
            step.answer = self.call(step.call);
        }
    }
}
