// Groups and parts, and who stands for a group. Each function asks that its numbers are those of actors: that is a fact about an
// argument, and of no value that is kept.
ghost use Rattle.std.specs.Prelude.{◌≡◌, ◌<◌, ◌≤◌, length};
ghost use Rattle.planning.specs.declared.End.TheVariants.{Entry, Exit};
ghost use Rattle.planning.specs.Backs.{count};
ghost use Rattle.planning.specs.Groups.{reaches, same_group, same_part, answered, end_group, opens_group, opens_part, grouped_if_joined, one_group, stands_better, stand_in};
ghost use Rattle.planner.specs.Views.{seen};

use crate::ground::Ground;
use planning::End;

impl Ground<'_, '_> {
    // Whether some path leads from u to v.
    fn reaches(&self, u: usize, v: usize) -> bool
        requires { (u < length self.now.actors.now) × (v < length self.now.actors.now) }
        ensures { let g = seen self.now in result ≡ reaches (count g) g.delays u v }
    {
        self.delays.at(u, v).value < u32::MAX
    }

    // Whether u and v reach each other.
    pub(crate) fn same_group(&self, u: usize, v: usize) -> bool
        requires { (u < length self.now.actors.now) × (v < length self.now.actors.now) }
        ensures { let g = seen self.now in result ≡ same_group (count g) g.delays u v }
    {
        self.reaches(u, v) && self.reaches(v, u)
    }

    // Whether u and v are joined when direction is ignored.
    pub(crate) fn same_part(&self, u: usize, v: usize) -> bool
        requires { (u < length self.now.actors.now) × (v < length self.now.actors.now) }
        ensures { let g = seen self.now in result ≡ same_part (count g) g.joined u v }
    {
        self.joined.at(u, v).yes
    }

    // Whether a path from u to v, if there is one, is answered by a path back.
    fn is_answered(&self, u: usize, v: usize) -> bool
        requires { (u < length self.now.actors.now) × (v < length self.now.actors.now) }
        ensures { let g = seen self.now in result ≡ answered (count g) g.delays u v }
    {
        !self.reaches(u, v) || self.reaches(v, u)
    }

    // Whether no edge from outside enters the group of u, or none leaves it. The kind is matched here alone, as in the definition.
    pub(crate) fn is_end(&self, end: End, u: usize) -> bool
        requires { u < length self.now.actors.now }
        ensures { let g = seen self.now in result ≡ end_group end (count g) g.delays u }
    {
        let n = self.actors.len();
        match end {
            End::Entry => (0..n).all(|w| self.is_answered(w, u)),
            End::Exit => (0..n).all(|w| self.is_answered(u, w)),
        }
    }

    // Whether u is the lowest actor of its group. This and the next differ in the relation that is asked: a function that
    // takes it as a closure would be longer than both, by the clauses about the closure.
    pub(crate) fn opens_group(&self, u: usize) -> bool
        requires { u < length self.now.actors.now }
        ensures { let g = seen self.now in result ≡ opens_group (count g) g.delays u }
    {
        !(0..u).any(|w| self.same_group(u, w))
    }

    // Whether u is the lowest actor of its part.
    pub(crate) fn opens_part(&self, u: usize) -> bool
        requires { u < length self.now.actors.now }
        ensures { let g = seen self.now in result ≡ opens_part (count g) g.joined u }
    {
        !(0..u).any(|w| self.same_part(u, w))
    }

    // Whether v, if it shares the part of u, shares its group too.
    fn is_grouped_if_joined(&self, u: usize, v: usize) -> bool
        requires { (u < length self.now.actors.now) × (v < length self.now.actors.now) }
        ensures { let g = seen self.now in result ≡ grouped_if_joined (count g) g.delays g.joined u v }
    {
        !self.same_part(u, v) || self.same_group(u, v)
    }

    // Whether the part of u is one group.
    pub(crate) fn is_one_group(&self, u: usize) -> bool
        requires { u < length self.now.actors.now }
        ensures { let g = seen self.now in result ≡ one_group (count g) g.delays g.joined u }
    {
        (0..self.actors.len()).all(|w| self.is_grouped_if_joined(u, w))
    }

    // Whether w belongs to the group of u and has a smaller estimate than `best`.
    fn stands_better(&self, u: usize, w: usize, best: usize) -> bool
        requires { (u < length self.now.actors.now) × (w < length self.now.actors.now) × (best < length self.now.actors.now) }
        ensures { let g = seen self.now in result ≡ stands_better g.actors (count g) g.delays u w best }
    {
        self.same_group(u, w) && self.actors[w].estimate < self.actors[best].estimate
    }

    // The actor of least estimate in the group whose lowest actor is u; the lowest on a tie.
    pub(crate) fn stand_in(&self, u: usize) -> usize
        requires { u < length self.now.actors.now }
        ensures value { let g = seen self.now in result ≡ stand_in g.actors (count g) g.delays u }
        ensures within { result < length self.now.actors.now }
    {
        (0..self.actors.len()).fold(
            u,
            |best, w| if self.stands_better(u, w, best) {
                w
            } else {
                best
            },
        )
    }
}
