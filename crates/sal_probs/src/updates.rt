//! New probabilities that a frame's header has.

ghost use Rattle.std.specs.Prelude.{◌≡◌};
ghost use Rattle.sal_probs.specs.Probabilities.{no_updates};

/// New probabilities, each where the header has one.
#[derive(Drop)]
pub struct Updates {
    /// Coefficient probabilities by type, band, context and place (RFC 6386, section 13.4).
    pub coefficients: [Option<u8>; 1056],
    /// Vector probabilities, 19 of the row and then 19 of the column (section 17.2).
    pub vectors: [Option<u8>; 38],
    /// The four probabilities of the Y mode (section 16.2).
    pub y: Option<[u8; 4]>,
    /// The three probabilities of the chroma mode (section 16.2).
    pub chroma: Option<[u8; 3]>,
}

impl Updates {
    /// No new probability.
    #[tactic(auto, unfolding(crate::specs::Probabilities::no_updates))]
    pub fn none() -> Updates
        ensures { result ≡ no_updates }
    {
        Updates {
            coefficients: [None; 1056],
            vectors: [None; 38],
            y: None,
            chroma: None,
        }
    }
}
