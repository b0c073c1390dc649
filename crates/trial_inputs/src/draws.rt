// Numbers that look random. They are the same for the same seed.
ghost use Rattle.std.specs.Prelude.{◌≤◌, ◌<◌};

/// A source of numbers.
#[derive(Debug, Drop)]
pub struct Draws {
    last: u64,
}

impl Draws {
    /// The numbers of a seed, which isn't 0.
    pub fn of(seed: u64) -> Draws {
        Draws { last: seed }
    }

    /// A number from 0 to `most`.
    pub fn up_to(&mut self, most: u32) -> u32
        ensures { result ≤ most }
    {
        let one = self.last ^ (self.last << 13);
        let two = one ^ (one >> 7);
        self.last = two ^ (two << 17);
        (self.last % (u64::from(most) + 1)) as u32
    }
}
