// The records of the two tables that a caller lends, and the edges that they stand for.
ghost use Rattle.records.specs.Tables.{link_edge, mark_number};
ghost use Rattle.std.specs.Prelude.{◌≡◌, ◌==◌};

/// A task in the fixed order of its processor.
#[derive(Clone, Copy, PartialEq, Eq, Debug, Default)]
pub struct Actor {
    pub processor: u32,
    /// How long one firing takes, in clock units.
    pub estimate: u32,
}

/// What planning found for a link.
#[derive(Clone, Copy, PartialEq, Eq, Debug)]
pub enum Mark {
    /// Others enforce its wait.
    Dropped = 0,
    /// It has to be waited for.
    Kept = 1,
    /// Both ends are on one processor.
    Local = 2,
    /// Planning added it.
    Back = 3,
}

impl Mark {
    /// The number that stands for the mark in a table.
    pub fn number(self) -> u8
        ensures { result ≡ mark_number self }
    {
        self as u8
    }
}

/// An edge between two actors, with what planning found for it.
#[derive(Clone, Copy, PartialEq, Eq, Debug, Default)]
pub struct Link {
    pub sender: u32,
    pub receiver: u32,
    /// How many values the link holds at the start.
    pub delay: u32,
    /// The number of a `Mark`. A number and no `Mark`, since a table that is lent to a run may hold any, and opening refuses it.
    pub mark: u8,
    /// The cells of the link's buffer.
    pub size: u32,
}

impl Link {
    /// Whether the link has this mark.
    pub fn has_mark(&self, mark: Mark) -> bool
        ensures { result ≡ (self.now.mark == mark_number mark) }
    {
        self.mark == mark.number()
    }
}

/// An edge of the graph that the actors span: a link, or a step of a processor's order.
#[derive(Clone, Copy, PartialEq, Eq, Debug)]
pub struct Edge {
    pub sender: usize,
    pub receiver: usize,
    pub delay: u32,
}

/// Every link, a local one too, is an edge.
impl From<Link> for Edge {
    ghost from_gives = { λ link edge. edge ≡ link_edge link };

    fn from(link: Link) -> Edge {
        Edge {
            sender: link.sender as usize,
            receiver: link.receiver as usize,
            delay: link.delay,
        }
    }
}
