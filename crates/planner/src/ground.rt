// What groups and parts are read off.
ghost use Rattle.std.specs.Prelude.{◌≡◌, length};

use crate::pairs::Pairs;
use paths::{Delay, Reach};
use records::Actor;

/// The actors, the least delays between them without back links, and who shares a part.
// Two lifetimes, and not one: today's checker takes a field that is a struct only at the lifetimes that it has.
#[derive(Drop)]
pub(crate) struct Ground<'d, 'r> {
    pub(crate) actors: &'d [Actor],
    pub(crate) delays: Pairs<'d, Delay>,
    pub(crate) joined: Pairs<'r, Reach>,
    ghost paths: { delays.n ≡ length actors.now },
    ghost pairs: { joined.n ≡ length actors.now },
}
