// Starts and finishes.
ghost use Rattle.std.specs.Prelude.{◌≡◌, ◌<◌, [], map, length, Ok};
ghost use Rattle.records.specs.Faults.{told};
ghost use Rattle.running.specs.declared.Act.TheVariants.{Start, Finish};
ghost use Rattle.running.specs.Rows.{first_link, blocks};
ghost use Rattle.running.specs.Runs.{site, act_check, after_act, turns_after};
ghost use Rattle.runs.specs.Alone.{Stand, moved_if};
ghost use Rattle.runs.specs.Seen.{site_of_run, standing_of_run, Kept};

use super::{Run, Tables};
use crate::entries::advance;
use crate::rows::Event;
use crate::turns::{PROCESSORS, turn_after};
use guards::Guard;
use records::{Fault, Layer, Refusal};
use running::Act;

// A finish passes the processor's turn on.
fn pass_turn(turns: &mut [usize; PROCESSORS], tables: &Tables<'_, '_>, event: Event)
    requires { (tables.now.sound ≡ Ok tt) × (event.actor < length tables.now.actors.now) }
    ensures { turns.new ≡ turns_after (site tables.now.actors.now tables.now.links.now) event.act event.actor turns.old }
{
    if event.act == Act::Finish {
        let processor = tables.actors[event.actor].processor as usize;
        turns[processor] = turn_after(tables.actors, event.actor);
    }
}

impl<'actors, 'links, 'row, G: Guard> Run<'actors, 'links, 'row, G> {
    // The row is read here, since the check loses it where `act` lends it out twice.
    fn blocked(&self, event: Event) -> Option<usize>
        ensures { result ≡ first_link (blocks event.act event.actor) 0 self.now.tables.links.now (map G.Guard.level self.now.row.now) }
    {
        let row = &*self.row;
        event.first_blocked(self.tables.links, row)
    }

    // Lets the actor start or finish.
    #[tactic(auto, using(std::proofs::lemmas::Result::err_from_is_err_and, running::proofs::Unsound::no_act, crate::proofs::Acting::unknown_refuses, crate::proofs::Acting::entry_decides, crate::proofs::Acting::refused_stands, crate::proofs::Acting::accepted_moves), unfolding(running::specs::Runs::acted))]
    fn act(&mut self, event: Event) -> Result<(), Fault>
        ensures answer { result ≡ act_check (site_of_run self.old) (standing_of_run G.Guard.level self.old) event.act event.actor }
        ensures standing { standing_of_run G.Guard.level self.new ≡ after_act (site_of_run self.old) (standing_of_run G.Guard.level self.old) event.act event.actor }
        ensures stand { Stand (moved_if result event.act event.actor) self.old.tables.links.now self.old.row.now self.new.row.now }
        ensures kept { Kept self.old self.new }
    {
        let actor = event.actor;
        self.tables.sound?;
        if actor >= self.tables.actors.len() {
            return Err(Fault::new(Refusal::Unknown, Layer::Run, actor));
        }
        let processor = self.tables.actors[actor].processor as usize;
        let turn = self.turns[processor] == actor;
        let blocked = self.blocked(event);
        advance(&mut self.entries[actor], event, turn, blocked)?;
        pass_turn(&mut self.turns, &self.tables, event);
        event.pass_all(self.tables.links, self.row);
        Ok(())
    }

    /// Starts the actor, which takes one value from every kept and back link into it. Refuses, in this order: 15 or 16 if the run
    /// is unsound; 17 if there is no such actor; 18 if it has started 1,000,000,000 times; 19 if it is not its turn or its
    /// processor runs; 20, at the lowest such link, if a link into it is empty. A refusal changes nothing.
    pub fn start(&mut self, actor: usize) -> Result<(), Fault>
        ensures answer { result ≡ act_check (site_of_run self.old) (standing_of_run G.Guard.level self.old) Start actor }
        ensures view { told (λ _. []) result ≡ told (λ _. []) (act_check (site_of_run self.old) (standing_of_run G.Guard.level self.old) Start actor) }
        ensures standing { standing_of_run G.Guard.level self.new ≡ after_act (site_of_run self.old) (standing_of_run G.Guard.level self.old) Start actor }
        ensures stand { Stand (moved_if result Start actor) self.old.tables.links.now self.old.row.now self.new.row.now }
        ensures kept { Kept self.old self.new }
    {
        self.act(Event {
            act: Act::Start,
            actor,
        })
    }

    /// Finishes the actor, which sends one value on every kept and back link out of it and passes its processor's turn on.
    /// Refuses, in this order: 15 or 16 if the run is unsound; 17 if there is no such actor; 21 if it is resting; 23, at the
    /// lowest such link, if a link out of it is full. A refusal changes nothing.
    pub fn finish(&mut self, actor: usize) -> Result<(), Fault>
        ensures answer { result ≡ act_check (site_of_run self.old) (standing_of_run G.Guard.level self.old) Finish actor }
        ensures view { told (λ _. []) result ≡ told (λ _. []) (act_check (site_of_run self.old) (standing_of_run G.Guard.level self.old) Finish actor) }
        ensures standing { standing_of_run G.Guard.level self.new ≡ after_act (site_of_run self.old) (standing_of_run G.Guard.level self.old) Finish actor }
        ensures stand { Stand (moved_if result Finish actor) self.old.tables.links.now self.old.row.now self.new.row.now }
        ensures kept { Kept self.old self.new }
    {
        self.act(Event {
            act: Act::Finish,
            actor,
        })
    }
}
