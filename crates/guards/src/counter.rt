// A guard that counts the values that wait.
ghost use Rattle.std.specs.Prelude.{◌≤◌};

use crate::guard::Guard;
use crate::refusal::{refused, unfit};
use records::{Fault, Refusal};

/// A guard that counts the values that wait, in 16 bits.
#[derive(Clone, Copy, PartialEq, Eq, Debug)]
pub struct Counter {
    count: u16,
    size: u16,
    ghost within: { count ≤ size },
    ghost fits: { size ≤ 65535 },
}

/// As many values wait as were counted.
impl Guard for Counter {
    const LARGEST: u32 = 65535;

    ghost LARGEST = { 65535 };

    ghost level = { λ g. record { count = g.count; size = g.size } };

    ghost within = { λ g. g.within };

    ghost fits = { λ g. g.fits };

    fn fresh(count: u32, size: u32) -> Result<Counter, Fault> {
        if unfit(Self::LARGEST, count, size) {
            return Err(refused(Refusal::UnfitLevel));
        }
        Ok(Counter {
            count: count as u16,
            size: size as u16,
        })
    }

    fn waiting(&self) -> bool {
        self.count > 0
    }

    fn take(&mut self) -> Result<(), Fault> {
        if self.count == 0 {
            return Err(refused(Refusal::Empty));
        }
        self.count -= 1;
        Ok(())
    }

    fn send(&mut self) -> Result<(), Fault> {
        if self.count == self.size {
            return Err(refused(Refusal::Full));
        }
        self.count += 1;
        Ok(())
    }
}
