// What planning means: definitions only. The code that meets them is in the crate `planner`.
#![tactic(auto)]

/// How the edges of a drawing are seen.
#[derive(Clone, Copy, PartialEq, Eq, Debug)]
pub enum Sight {
    /// As they are: from sender to receiver, with their delays.
    Directed,
    /// Without direction and delay: who is joined to whom.
    Loose,
}

/// The two kinds of groups that back links join.
#[derive(Clone, Copy, PartialEq, Eq, Debug)]
pub enum End {
    /// No edge from outside enters the group.
    Entry,
    /// No edge leaves the group.
    Exit,
}
