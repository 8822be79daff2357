// Block reloads and ticks, and the one way from the first to the second.

ghost use Rattle.std.specs.Prelude.{◌≡◌, ◌*◌, ◌≤◌};

// A length of time.
#[derive(Clone, Copy, PartialEq, Eq)]
pub struct Ticks(pub u64);

impl Ticks {
    // No time of a table is longer.
    pub const LONGEST: u64 = 250000000;

    // No block reload takes longer.
    pub const LONGEST_RELOAD: u64 = 100000;
}

// A number of block reloads.
#[derive(Clone, Copy, PartialEq, Eq)]
pub struct Reloads(pub u64);

impl Reloads {
    // The time that these reloads take, at `brt` ticks a block.
    pub fn time(self, brt: Ticks) -> Ticks
        requires { (self.0 ≤ 2048) × (brt.0 ≤ Ticks.LONGEST_RELOAD) }
        ensures { result.0 ≡ brt.0 * self.0 }
    {
        Ticks(brt.0 * self.0)
    }
}
