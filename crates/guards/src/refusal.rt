// What a guard refuses, and how it is told.
ghost use Rattle.std.specs.Prelude.{◌≡◌};
ghost use Rattle.guards.specs.Levels.{unfit};
ghost use Rattle.records.specs.Faults.{fault};
ghost use Rattle.records.specs.declared.fault.Layer.TheVariants.{Guard};

use records::{Fault, Layer, Refusal};

/// The refusal of a guard for this reason.
pub(crate) fn refused(refusal: Refusal) -> Fault
    ensures { result ≡ fault refusal Guard 0 }
{
    Fault::new(refusal, Layer::Guard, 0)
}

/// Whether no kind with this largest size can keep this count and size. What the two kinds share of `fresh` is this: each
/// makes a record of its own.
pub(crate) fn unfit(largest: u32, count: u32, size: u32) -> bool
    ensures { result ≡ unfit largest count size }
{
    size == 0 || count > size || size > largest
}
