// A guard of two pointers that go round a circle.
ghost use Rattle.std.specs.Prelude.{◌≡◌, ◌≤◌};
ghost use Rattle.guards.specs.Circle.{between, between_le, turned};

use crate::guard::Guard;
use crate::refusal::{refused, unfit};
use records::{Fault, Refusal};

/// A guard of two pointers: where the next value is read, and where the next one is written.
/// Their circle has one place more than there can be values, so that full and empty differ; 16 bits count its places.
#[derive(Clone, Copy, PartialEq, Eq, Debug)]
pub struct Pointers {
    read: u16,
    write: u16,
    size: u16,
    ghost reads: { read ≤ size },
    ghost writes: { write ≤ size },
    ghost fits: { size ≤ 65534 },
}

/// The place after this one on a circle of `size` + 1 places.
fn turned(place: u16, size: u16) -> u16
    ensures { result ≡ turned place size }
{
    if place < size { place + 1 } else { 0 }
}

/// The values that wait stand from the read pointer up to the write pointer.
impl Guard for Pointers {
    const LARGEST: u32 = 65534;

    ghost LARGEST = { 65534 };

    ghost level = { λ g. record { count = between g.read g.write g.size; size = g.size } };

    ghost within = { λ g. between_le g.read g.write g.size g.reads g.writes };

    ghost fits = { λ g. g.fits };

    fn fresh(count: u32, size: u32) -> Result<Pointers, Fault> {
        if unfit(Self::LARGEST, count, size) {
            return Err(refused(Refusal::UnfitLevel));
        }
        Ok(Pointers {
            read: 0,
            write: count as u16,
            size: size as u16,
        })
    }

    fn waiting(&self) -> bool {
        self.read != self.write
    }

    fn take(&mut self) -> Result<(), Fault> {
        if self.read == self.write {
            return Err(refused(Refusal::Empty));
        }
        self.read = turned(self.read, self.size);
        Ok(())
    }

    fn send(&mut self) -> Result<(), Fault> {
        let next = turned(self.write, self.size);
        if next == self.read {
            return Err(refused(Refusal::Full));
        }
        self.write = next;
        Ok(())
    }
}
