// What every guard offers.
ghost use Rattle.std.specs.Prelude.{◌≡◌, ℕ, ◌≤◌, true, false, []};
ghost use Rattle.records.specs.Faults.{told};
ghost use Rattle.guards.specs.Levels.{Level, level_values, waiting, full, taken, sent, take_answer, send_answer, fresh_answer, meant};

use records::Fault;

/// How many values wait on a link, out of how many there can be. No value itself is kept.
pub trait Guard: Copy {
    /// The largest size that this kind can keep.
    const LARGEST: u32;

    ghost LARGEST: { ℕ };

    ghost level: { Self → Level };

    /// Answers a guard where `count` values wait out of `size`.
    /// Refuses with 24 where the size is 0 or above the largest, or the count is above the size.
    fn fresh(count: u32, size: u32) -> Result<Self, Fault>
        ensures answer { meant level result ≡ fresh_answer LARGEST count size }
        ensures view { told level_values (meant level result) ≡ told level_values (fresh_answer LARGEST count size) };

    /// Answers whether a value waits. Leaves the guard as it was.
    fn waiting(&self) -> bool
        ensures { result ≡ waiting (level self.now) };

    /// Takes one value, and leaves one less waiting.
    /// Refuses with 22 where none waits, and then leaves the guard as it was.
    fn take(&mut self) -> Result<(), Fault>
        ensures answer { result ≡ take_answer (level self.old) }
        ensures view { told (λ _. []) result ≡ told (λ _. []) (take_answer (level self.old)) }
        ensures level { level self.new ≡ taken (level self.old) }
        ensures kept { waiting (level self.old) ≡ false → self.new ≡ self.old };

    /// Sends one value, and leaves one more waiting.
    /// Refuses with 23 where as many wait as there can be, and then leaves the guard as it was.
    fn send(&mut self) -> Result<(), Fault>
        ensures answer { result ≡ send_answer (level self.old) }
        ensures view { told (λ _. []) result ≡ told (λ _. []) (send_answer (level self.old)) }
        ensures level { level self.new ≡ sent (level self.old) }
        ensures kept { full (level self.old) ≡ true → self.new ≡ self.old };

    ghost within: { (g : Self) → (level g).count ≤ (level g).size };

    ghost fits: { (g : Self) → (level g).size ≤ LARGEST };
}
