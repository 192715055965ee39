// Back links: which links make each part one group.
ghost use Rattle.std.specs.Prelude.{◌≡◌, ◌<◌, ◌++◌, length, take, IfSome, None};
ghost use Rattle.planning.specs.Backs.{back_link, heads, stand, link_from, chain, first_or, last_or, groups_of, part_backs, wants_backs, backs};
ghost use Rattle.planner.specs.Views.{seen, listed};

use crate::back_links::BackLinks;
use crate::ground::Ground;
use planning::End;
use records::{Link, Mark};

impl Ground<'_, '_> {
    // Whether u is the lowest actor of an entry or exit group in the part of p.
    #[tactic(auto, unfolding(planning::specs::Backs::heads))]
    fn heads(&self, end: End, p: usize, u: usize) -> bool
        requires { (p < length self.now.actors.now) × (u < length self.now.actors.now) }
        ensures { result ≡ heads (seen self.now) end p u }
    {
        self.same_part(p, u) && self.opens_group(u) && self.is_end(end, u)
    }

    // The lowest actor of the first such group in the part of p, or p. This and the next differ in the side that is searched
    // from: a function that takes the search as a closure would be longer than both, by the clauses about the closure.
    fn first_group(&self, end: End, p: usize) -> usize
        requires { p < length self.now.actors.now }
        ensures value { result ≡ first_or p (groups_of (seen self.now) end p) }
        ensures within { result < length self.now.actors.now }
    {
        (0..self.actors.len())
            .find(|u| self.heads(end, p, *u))
            .unwrap_or(p)
    }

    // The lowest actor of the last such group in the part of p, or p.
    fn last_group(&self, end: End, p: usize) -> usize
        requires { p < length self.now.actors.now }
        ensures value { result ≡ last_or p (groups_of (seen self.now) end p) }
        ensures within { result < length self.now.actors.now }
    {
        (0..self.actors.len())
            .rfind(|u| self.heads(end, p, *u))
            .unwrap_or(p)
    }

    // The back link of this delay from the group that is headed by w to that headed by u.
    fn back_link(&self, w: usize, u: usize, delay: u32) -> Link
        requires { (w < length self.now.actors.now) × (u < length self.now.actors.now) }
        ensures { result ≡ back_link (stand (seen self.now) w) (stand (seen self.now) u) delay }
    {
        let sender = self.stand_in(w) as u32;
        let receiver = self.stand_in(u) as u32;
        Link {
            sender,
            receiver,
            delay,
            mark: Mark::Back.number(),
            size: 0,
        }
    }

    // Joins the group that is headed by an earlier actor, if any, to that headed by u.
    fn link_from(&self, earlier: Option<usize>, u: usize, found: &mut BackLinks)
        requires { IfSome earlier (λ w. w < length self.now.actors.now) × (u < length self.now.actors.now) }
        ensures { listed found.new ≡ take 15 (listed found.old ++ link_from (seen self.now) earlier u) }
    {
        if let Some(w) = earlier {
            found.push(self.back_link(w, u, 0));
        }
    }

    // Joins each entry or exit group of the part of p to the next.
    fn chain(&self, end: End, p: usize, found: &mut BackLinks)
        requires { p < length self.now.actors.now }
        ensures { listed found.new ≡ take 15 (listed found.old ++ chain (seen self.now) None (groups_of (seen self.now) end p)) }
    {
        // An `if` in place of a `filter`, whose proof would go by the calls that the filter makes.
        let mut earlier = None;
        for u in 0..self.actors.len() {
            if self.heads(end, p, u) {
                self.link_from(earlier, u, found);
                earlier = Some(u);
            }
        }
    }

    // Finds the back links of the part whose lowest actor is p.
    fn add_part(&self, p: usize, lead: u32, found: &mut BackLinks)
        requires { p < length self.now.actors.now }
        ensures { listed found.new ≡ take 15 (listed found.old ++ part_backs (seen self.now) lead p) }
    {
        self.chain(End::Entry, p, found);
        self.chain(End::Exit, p, found);
        let from = self.last_group(End::Exit, p);
        let to = self.first_group(End::Entry, p);
        found.push(self.back_link(from, to, lead));
    }

    // Whether p is the lowest actor of a part of several groups.
    fn wants_backs(&self, p: usize) -> bool
        requires { p < length self.now.actors.now }
        ensures { result ≡ wants_backs (seen self.now) p }
    {
        self.opens_part(p) && !self.is_one_group(p)
    }

    // All back links.
    pub(crate) fn back_links(&self, lead: u32) -> BackLinks
        ensures { listed result ≡ backs (seen self.now) lead }
    {
        let mut found = BackLinks::new();
        // By number and with an `if`, likewise: a part goes by the number of its lowest actor.
        for p in 0..self.actors.len() {
            if self.wants_backs(p) {
                self.add_part(p, lead, &mut found);
            }
        }
        found
    }
}
