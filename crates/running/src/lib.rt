// What a run means: its records, how they are told, and definitions about them. The code that meets them is in the crate `runs`.
#![tactic(auto)]

mod words;

use records::Fault;

/// What an actor is doing.
#[derive(Clone, Copy, PartialEq, Eq, Debug)]
pub enum State {
    Resting,
    Running,
}

/// What an actor can be told to do.
#[derive(Clone, Copy, PartialEq, Eq, Debug)]
pub enum Act {
    Start,
    Finish,
}

/// One actor of a run, with the starts and finishes accepted since opening.
#[derive(Clone, Copy, PartialEq, Eq, Debug)]
pub struct Entry {
    pub state: State,
    pub starts: u32,
    pub finishes: u32,
}

/// The buffer of a cross link: how many values it holds, which cell is written next, and which is read next.
#[derive(Clone, Copy, PartialEq, Eq, Debug)]
pub struct Cells {
    pub held: u64,
    pub write: u64,
    pub read: u64,
}

/// What a run can be asked.
#[derive(Clone, Copy, PartialEq, Eq, Debug)]
pub enum Call {
    /// The actor with this number starts.
    Start(usize),
    /// The actor with this number finishes.
    Finish(usize),
    /// How is the buffer of the link with this number?
    Cells(usize),
}

/// What a run answers to a call.
#[derive(Clone, Copy, PartialEq, Eq, Debug)]
pub enum Answer {
    /// The call was not made yet.
    Open,
    /// The start or the finish was accepted.
    Done,
    /// How the buffer is.
    Told(Cells),
    /// The call was refused and changed nothing.
    Refused(Fault),
}

impl From<Result<(), Fault>> for Answer {
    ghost use Rattle.std.specs.Prelude.{◌≡◌};
    ghost use Rattle.running.specs.Rehearsals.{done_or_refused};

    ghost from_gives = { λ answer told. told ≡ done_or_refused answer };

    fn from(answer: Result<(), Fault>) -> Answer {
        match answer {
            Ok(()) => Answer::Done,
            Err(fault) => Answer::Refused(fault),
        }
    }
}

impl From<Result<Cells, Fault>> for Answer {
    ghost use Rattle.std.specs.Prelude.{◌≡◌};
    ghost use Rattle.running.specs.Rehearsals.{told_or_refused};

    ghost from_gives = { λ answer told. told ≡ told_or_refused answer };

    fn from(answer: Result<Cells, Fault>) -> Answer {
        match answer {
            Ok(cells) => Answer::Told(cells),
            Err(fault) => Answer::Refused(fault),
        }
    }
}

/// A call with its answer.
#[derive(Clone, Copy, PartialEq, Eq, Debug)]
pub struct Step {
    pub call: Call,
    pub answer: Answer,
}
