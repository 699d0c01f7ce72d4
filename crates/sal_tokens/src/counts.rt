//! How often each coefficient probability had a bit 0 and a bit 1.

ghost use Rattle.std.specs.Prelude.{◌≡◌, ◌<◌, replicate, [], ◌∷◌};
ghost use Rattle.sal_tokens.specs.Written.{Placed, counted};

/// For each coefficient probability, by type, band, context and place, how many bits 0 and how many bits 1 were at it. A count
/// stays at the greatest `u32`.
#[derive(Clone, Copy, Debug, PartialEq, Eq)]
pub struct Counts {
    pub pairs: [[u32; 2]; 1056],
}

impl Counts {
    /// Before any bit.
    pub fn none() -> Counts
        ensures { result.pairs ≡ replicate 1056 (0 ∷ 0 ∷ []) }
    {
        Counts {
            pairs: [[0; 2]; 1056],
        }
    }

    // One more bit at the probability at this place.
    pub(crate) fn add(&mut self, at: usize, bit: bool)
        requires { at < 1056 }
        ensures { self.new.pairs ≡ counted self.old.pairs (Placed at bit) }
    {
        let here = self.pairs[at][bit as usize];
        self.pairs[at][bit as usize] = here.saturating_add(1);
    }
}
