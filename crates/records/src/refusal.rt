// Why something is refused.
ghost use Rattle.std.specs.Prelude.{◌≡◌};
ghost use Rattle.records.specs.Faults.{refusal_number};

/// Why something is refused. Each reason has a number, by which refusals are told.
#[derive(Clone, Copy, PartialEq, Eq, Debug)]
pub enum Refusal {
    /// The text is too long, or a line is not made as its letter asks.
    Misshaped,
    /// A word is no number.
    NoNumber,
    /// A line stands where none of its kind may.
    OutOfOrder,
    /// There are more actors or links than a drawing or a table takes.
    NoRoom,
    /// There is no actor, or there are too many.
    ActorCount,
    /// There are too many links, or the link table has no room for the back links.
    LinkCount,
    /// The lead is out of range.
    BadLead,
    /// A table over the pairs of actors is too short.
    ShortWorkspace,
    /// The processor or the estimate of an actor is out of range.
    BadActor,
    /// An end or the delay of a link is out of range.
    BadLink,
    /// An actor waits for itself, since a cycle has no delay.
    Deadlock,
    /// The output is too short.
    ShortOutput,
    /// The tables or the row are too short for the plan, or a processor is out of range.
    UnfitTables,
    /// No run can stand on a link as it is, or no guard of this kind can keep its size.
    UnfitLink,
    /// There is no actor, or no cross link, with this number.
    Unknown,
    /// The actor has started as often as it can.
    TooManyStarts,
    /// It is not the actor's turn, or its processor runs.
    NotItsTurn,
    /// No value waits on a link into the actor.
    EmptyLink,
    /// The actor is resting.
    Resting,
    /// No value waits.
    Empty,
    /// As many values wait as there can be.
    Full,
    /// No guard of this kind can keep this count and size.
    UnfitLevel,
    /// None of the above, by its number: refusals of a caller's own can be told as the library's are. No call answers it.
    Other(u8),
}

impl Refusal {
    /// The number of the reason.
    pub fn number(self) -> u8
        ensures { result ≡ refusal_number self }
    {
        match self {
            Refusal::Misshaped => 1,
            Refusal::NoNumber => 2,
            Refusal::OutOfOrder => 3,
            Refusal::NoRoom => 4,
            Refusal::ActorCount => 5,
            Refusal::LinkCount => 6,
            Refusal::BadLead => 7,
            Refusal::ShortWorkspace => 8,
            Refusal::BadActor => 9,
            Refusal::BadLink => 10,
            Refusal::Deadlock => 11,
            Refusal::ShortOutput => 12,
            Refusal::UnfitTables => 15,
            Refusal::UnfitLink => 16,
            Refusal::Unknown => 17,
            Refusal::TooManyStarts => 18,
            Refusal::NotItsTurn => 19,
            Refusal::EmptyLink => 20,
            Refusal::Resting => 21,
            Refusal::Empty => 22,
            Refusal::Full => 23,
            Refusal::UnfitLevel => 24,
            Refusal::Other(number) => number,
        }
    }
}
