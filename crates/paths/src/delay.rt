// The delay of a path.
ghost use Rattle.std.specs.Prelude.{◌≤◌};

/// The total delay of a path; the largest number says that there is no path, or that the sum is no smaller.
#[derive(Clone, Copy)]
pub struct Delay {
    pub value: u32,
    ghost fits: { value ≤ 4294967295 },
}
