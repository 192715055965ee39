// Compares runs with those of a second program, call by call, and prints how many agree.
#![tactic(auto)]

mod calls;
mod levels;
mod stored;
mod tables;
mod transcript;
mod trial;

use guards::{Counter, Guard, Pointers};
use std::alloc::Global;
use std::{fs, io};
use stored::{Kind, Stored, StoredRuns};
use trial::{Way, agrees};

/// How many were tried, and how many of them agreed.
#[derive(Clone, Copy, Default)]
struct Tally {
    tried: u32,
    agreed: u32,
}

impl Tally {
    // Counts what was tried.
    fn note(&mut self, answer: Option<bool>) {
        let Some(agrees) = answer else {
            return;
        };
        self.tried = self.tried.saturating_add(1);
        if agrees {
            self.agreed = self.agreed.saturating_add(1);
        }
    }
}

/// The tallies of a whole file.
#[derive(Clone, Copy, Default)]
struct Tallies {
    runs: Tally,
    rehearsals: Tally,
}

impl Tallies {
    fn try_kind<G: Guard>(&mut self, heap: Global, stored: &Stored<'_>) -> io::Result<()> {
        self.runs.note(agrees::<G>(heap, stored, Way::OneByOne)?);
        self.rehearsals
            .note(agrees::<G>(heap, stored, Way::Rehearsed)?);
        Ok(())
    }

    fn try_stored(&mut self, heap: Global, stored: &Stored<'_>) -> io::Result<()> {
        // The kind of guard is a type, which only a match can pick.
        match stored.kind {
            Kind::Counter => self.try_kind::<Counter>(heap, stored),
            Kind::Pointers => self.try_kind::<Pointers>(heap, stored),
        }
    }
}

fn main(rt: HostRuntime) -> io::Result<()> {
    let data = fs::read(&rt, "runs.txt")?;
    let mut tallies = Tallies::default();
    for stored in StoredRuns::of(data.as_slice()) {
        tallies.try_stored(rt.alloc(), &stored)?;
    }
    let Tallies { runs, rehearsals } = tallies;
    println!(rt; "{} of {} runs agree", runs.agreed, runs.tried)?;
    println!(rt;
        "{} of {} rehearsals agree",
        rehearsals.agreed, rehearsals.tried
    )
}
