//! A picture that later frames are predicted from.

ghost use Rattle.std.specs.Prelude.{◌≡◌, ◌++◌, IfOk};
ghost use Rattle.std.specs.Arc.{arc_value};
ghost use Rattle.sal_state.specs.States.{AreWhole};
ghost use Rattle.sal_state.specs.Digest.{planes_digest};

use sal_base::{Memory, Planes};
use sha2::{Digest, Sha256};
use std::alloc::Global;
use std::marker::Model;
use std::sync::Arc;

/// Planes of whole macroblocks with the digest of their samples. Contracts see it as the planes.
#[derive(Drop)]
pub struct Reference {
    planes: Planes,
    digest: [u8; 32],
}

impl Model for Reference {
    ghost use Rattle.std.specs.Prelude.{◌≡◌};
    ghost use Rattle.sal_base.specs.declared.picture.Planes.{Planes as PlanesData};
    ghost use Rattle.sal_state.specs.States.{AreWhole};
    ghost use Rattle.sal_state.specs.Digest.{planes_digest};

    ghost Value = { PlanesData };

    ghost view = { λ r. r.planes };

    ghost invariant = { λ r. (r.digest ≡ planes_digest r.planes) × AreWhole r.planes };
}

impl Reference {
    /// A reference of these planes, to be shared.
    pub fn new(alloc: Global, planes: Planes) -> Result<Arc<Reference>, Memory>
        requires { AreWhole planes }
        ensures { IfOk result (λ r. arc_value r ≡ planes) }
    {
        let digest = digest_of(&planes);
        Ok(Arc::new(alloc, Reference { planes, digest })?)
    }

    /// The planes.
    pub fn planes(&self) -> &Planes
        ensures { result.now ≡ self.now }
    {
        &self.planes
    }

    /// The digest of the samples.
    pub fn digest(&self) -> &[u8; 32]
        ensures { result.now ≡ planes_digest self.now }
    {
        &self.digest
    }
}

// The digest of all samples, Y, U and V.
#[tactic(auto, using(std::proofs::Common::append_assoc), unfolding(crate::specs::Digest::planes_digest))]
fn digest_of(planes: &Planes) -> [u8; 32]
    ensures { result ≡ planes_digest planes.now }
{
    let mut hasher = Sha256::new();
    hasher.update(planes.y.samples.as_slice());
    hasher.update(planes.u.samples.as_slice());
    hasher.update(planes.v.samples.as_slice());
    hasher.finalize()
}
