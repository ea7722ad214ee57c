ghost use Rattle.std.specs.Prelude.{◌≡◌, ◌<◌, ◌≤◌, ◌⊎◌, MatchOption};

// The lengths that contents may have: at least one, and none above 130.
#[derive(Clone, Copy)]
pub struct Lengths {
    least: usize,
    most: usize,
    ghost some: { least ≤ most },
    ghost short: { most ≤ 130 },
}

impl Lengths {
    // All lengths from one to another, or none if there are no such or one is over 130.
    pub fn between(least: usize, most: usize) -> Option<Lengths>
        ensures { MatchOption result ((most < least) ⊎ (130 < most)) (λ l. (l.least ≡ least) × (l.most ≡ most)) }
    {
        if least <= most && most <= crate::MOST {
            Some(Lengths { least, most })
        } else {
            None
        }
    }

    pub fn least(&self) -> usize
        ensures { result ≡ self.now.least }
    {
        self.least
    }

    pub fn most(&self) -> usize
        ensures { result ≡ self.now.most }
    {
        self.most
    }
}
