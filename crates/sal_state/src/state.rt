//! States.

ghost use Rattle.std.specs.Prelude.{◌≡◌, ◌++◌, ◌*◌, ◌<◌, ℕ, List, All, IfOk, IfSome, Some, None, length};
ghost use Rattle.std.specs.Arc.{arc_value};
ghost use Rattle.std.specs.Option.{option_copied};
ghost use Rattle.sal_base.specs.Pictures.{blocks_of};
ghost use Rattle.sal_state.specs.States.{initial_kept, initial_state, AreReferences, IsState};
ghost use Rattle.sha2.specs.Sha256.{sha256};
ghost use Rattle.sha2.specs.Hashers.{Holds256};
ghost use Rattle.sal_state.specs.Name.{name_of};
ghost use Rattle.sal_state.specs.Digest.{digest_of, state_bytes, size_bytes, probability_bytes, segment_bytes, delta_bytes, map_bytes, reference_bytes};

use crate::bytes::{bias_bytes, mode_byte, signed_bytes, two_bytes};
use crate::reference::Reference;
use sal_base::{Bytes, Memory, Name};
use sal_header::Kept;
use sal_probs::Probs;
use sha2::{Digest, Sha256};
use std::alloc::Global;
use std::marker::Model;
use std::sync::Arc;

/// The size of a state's pictures, in samples of luma, and its three references.
#[derive(Drop)]
pub struct References {
    /// Samples of luma in a row, from 1 to 1,280.
    pub width: u16,
    /// Rows of luma, from 1 to 720.
    pub height: u16,
    /// What most inter frames are predicted from: the last picture that replaced it.
    pub last: Arc<Reference>,
    /// The golden reference, which an inter frame refreshes or makes a copy of another.
    pub golden: Arc<Reference>,
    /// The alternate reference, which goes by the same rules.
    pub alt: Arc<Reference>,
}

impl Model for References {
    ghost use Rattle.std.specs.Arc.{arc_value};
    ghost use Rattle.sal_state.specs.States.{References as ReferencesData};

    ghost Value = { ReferencesData };

    ghost view = { λ r. record { width = r.width; height = r.height; last = arc_value r.last; golden = arc_value r.golden; alt = arc_value r.alt } };
}

/// What a frame is decoded from. Contracts see it as its data, each reference as its planes, whoever shares them.
#[derive(Drop)]
pub struct State {
    kept: Kept,
    references: Option<References>,
}

impl Model for State {
    ghost use Rattle.sal_state.specs.States.{StateData, IsState};

    ghost Value = { StateData };

    ghost view = { λ s. record { kept = s.kept; references = s.references } };

    ghost invariant = { λ s. IsState (record { kept = s.kept; references = s.references }) };
}

impl State {
    /// The state before any frame.
    #[tactic(auto, unfolding(crate::specs::States::initial_state, crate::specs::States::initial_kept))]
    pub fn initial(alloc: Global) -> Result<State, Memory>
        ensures { IfOk result (λ s. s ≡ initial_state) }
    {
        let kept = Kept {
            absolute: false,
            quantisers: [0; 4],
            levels: [0; 4],
            ref_deltas: [0; 4],
            mode_deltas: [0; 4],
            bias_golden: false,
            bias_alt: false,
            map: Bytes::new(alloc),
            probs: Probs::initial(alloc)?,
        };
        Ok(State {
            kept,
            references: None,
        })
    }

    /// A state after some frame.
    pub fn new(kept: Kept, references: References) -> State
        requires references { AreReferences references }
        requires map { length kept.map ≡ blocks_of references.width * blocks_of references.height }
        requires segments { All (λ segment. segment < 4) kept.map }
        ensures { result ≡ record { kept = kept; references = Some references } }
    {
        State {
            kept,
            references: Some(references),
        }
    }

    /// What later headers and macroblocks are read over; before the first key frame what a key frame begins with.
    pub fn kept(&self) -> &Kept
        ensures kept { result.now ≡ self.now.kept }
        ensures first { self.now.references ≡ None → result.now ≡ initial_kept }
        ensures segments { All (λ segment. segment < 4) result.now.map }
        ensures map { IfSome self.now.references (λ r. length result.now.map ≡ blocks_of r.width * blocks_of r.height) }
    {
        &self.kept
    }

    /// The size and the references; none before the first key frame.
    pub fn references(&self) -> Option<&References>
        ensures references { option_copied result ≡ self.now.references }
        ensures whole { IfSome self.now.references AreReferences }
    {
        self.references.as_ref()
    }

    /// What holds of each state. It does nothing: it lends that to a proof.
    pub fn is_state(&self)
        ensures { IsState self.now }
    {
        let _kept = &self.kept;
    }

    /// SHA-256 over the size, the kept data and the references' digests; zeros before the first key frame.
    #[tactic(auto, unfolding(crate::specs::Digest::digest_of))]
    pub fn digest(&self) -> [u8; 32]
        ensures { result ≡ digest_of self.now }
    {
        match &self.references {
            Some(references) => digest_with(&self.kept, references),
            None => [0; 32],
        }
    }

    /// The digest's first 8 bytes and 8 zeros.
    pub fn name(&self) -> Name
        ensures { result.0 ≡ name_of self.now }
    {
        let digest = self.digest();
        let mut name = [0u8; 16];
        name[..8].copy_from_slice(&digest[..8]);
        Name(name)
    }
}

// The digest of a state with references.
fn digest_with(kept: &Kept, references: &References) -> [u8; 32]
    ensures { result ≡ sha256 (state_bytes kept.now references.now) }
{
    let mut hasher = Sha256::new();
    take_size(&mut hasher, references);
    take_probabilities(&mut hasher, &kept.probs);
    take_segments(&mut hasher, kept);
    take_deltas(&mut hasher, kept);
    take_map(&mut hasher, kept);
    take_references(&mut hasher, references);
    hasher.finalize()
}

// Adds the size of pictures to what is hashed.
#[tactic(auto, using(std::proofs::Common::append_assoc))]
fn take_size(hasher: &mut Sha256, references: &References)
    ensures { (m : List ℕ) → Holds256 hasher.old m → Holds256 hasher.new (m ++ size_bytes references.now) }
{
    hasher.update(two_bytes(references.width).as_slice());
    hasher.update(two_bytes(references.height).as_slice());
}

// Adds the probabilities.
#[tactic(auto, using(std::proofs::Common::append_assoc))]
fn take_probabilities(hasher: &mut Sha256, probs: &Probs)
    ensures { (m : List ℕ) → Holds256 hasher.old m → Holds256 hasher.new (m ++ probability_bytes probs.now) }
{
    hasher.update(probs.coefficients());
    hasher.update(probs.vectors());
    hasher.update(probs.y());
    hasher.update(probs.chroma());
}

// Adds what is kept of segments.
#[tactic(auto, using(std::proofs::Common::append_assoc))]
fn take_segments(hasher: &mut Sha256, kept: &Kept)
    ensures { (m : List ℕ) → Holds256 hasher.old m → Holds256 hasher.new (m ++ segment_bytes kept.now) }
{
    hasher.update(mode_byte(kept).as_slice());
    hasher.update(signed_bytes(&kept.quantisers).as_slice());
    hasher.update(signed_bytes(&kept.levels).as_slice());
}

// Adds the filter's deltas.
#[tactic(auto, using(std::proofs::Common::append_assoc))]
fn take_deltas(hasher: &mut Sha256, kept: &Kept)
    ensures { (m : List ℕ) → Holds256 hasher.old m → Holds256 hasher.new (m ++ delta_bytes kept.now) }
{
    hasher.update(signed_bytes(&kept.ref_deltas).as_slice());
    hasher.update(signed_bytes(&kept.mode_deltas).as_slice());
}

// Adds the sign biases and the segment map.
#[tactic(auto, using(std::proofs::Common::append_assoc))]
fn take_map(hasher: &mut Sha256, kept: &Kept)
    ensures { (m : List ℕ) → Holds256 hasher.old m → Holds256 hasher.new (m ++ map_bytes kept.now) }
{
    hasher.update(bias_bytes(kept).as_slice());
    hasher.update(kept.map.as_slice());
}

// Adds the digests of the references.
#[tactic(auto, using(std::proofs::Common::append_assoc))]
fn take_references(hasher: &mut Sha256, references: &References)
    ensures { (m : List ℕ) → Holds256 hasher.old m → Holds256 hasher.new (m ++ reference_bytes references.now) }
{
    hasher.update(references.last.digest().as_slice());
    hasher.update(references.golden.digest().as_slice());
    hasher.update(references.alt.digest().as_slice());
}
