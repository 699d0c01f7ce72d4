//! A job: one encoding of a picture, to be handed out.

ghost use Rattle.std.specs.Prelude.{◌≡◌, false};
ghost use Rattle.std.specs.Arc.{arc_value};
ghost use Rattle.sal_codec.specs.Coding.{MayEncode};
ghost use Rattle.sal_chain.specs.Held.{name_in};
ghost use Rattle.sal_sender.specs.JobWork.{JobWork, IsOutcome};

use crate::choice::JobRole;
use crate::outcome::Outcome;
use crate::report::Report;
use sal_base::{Encoding, Kind, Name, Picture};
use sal_codec::Codec;
use std::alloc::Global;
use std::marker::Model;
use std::sync::Arc;

// What stands for the digest of a frame's state where there is no frame.
const NO_DIGEST: [u8; 32] = [0; 32];

/// A picture that is to be encoded from a state. It owns shares of both, so that it runs anywhere.
#[derive(Drop)]
pub struct Job<C: Codec> {
    id: u32,
    picture: u32,
    role: JobRole,
    q: u8,
    kind: Kind,
    source: Arc<C::State>,
    source_name: Name,
    samples: Arc<Picture>,
}

impl<C: Codec> Model for Job<C> {
    ghost use Rattle.std.specs.Prelude.{◌≡◌};
    ghost use Rattle.std.specs.Arc.{arc_value};
    ghost use Rattle.sal_codec.specs.Coding.{MayEncode};
    ghost use Rattle.sal_chain.specs.Held.{name_in};
    ghost use Rattle.sal_sender.specs.JobWork.{JobWork};

    ghost Value = { JobWork C.State };

    ghost view = { λ j. record { id = j.id; picture = j.picture; role = j.role; q = j.q; kind = j.kind; source = arc_value j.source; samples = arc_value j.samples } };

    ghost invariant = { λ j. MayEncode C.coding (arc_value j.source) (arc_value j.samples) j.q j.kind × (j.source_name.0 ≡ name_in C.coding (arc_value j.source)) };
}

impl<C: Codec> Job<C> {
    /// A job that isn't handed out yet.
    pub(crate) fn new(
        id: u32,
        picture: u32,
        role: JobRole,
        q: u8,
        kind: Kind,
        source: Arc<C::State>,
        source_name: Name,
        samples: Arc<Picture>,
    ) -> Job<C>
        requires fits { MayEncode C.coding (arc_value source) (arc_value samples) q kind }
        requires named { source_name.0 ≡ name_in C.coding (arc_value source) }
        ensures { result ≡ record { id = id; picture = picture; role = role; q = q; kind = kind; source = arc_value source; samples = arc_value samples } }
    {
        Job {
            id,
            picture,
            role,
            q,
            kind,
            source,
            source_name,
            samples,
        }
    }

    /// The job's id, from 1, rising over the session.
    pub fn id(&self) -> u32
        ensures { result ≡ self.now.id }
    {
        self.id
    }

    /// The picture number, from 1.
    pub fn picture(&self) -> u32
        ensures { result ≡ self.now.picture }
    {
        self.picture
    }

    /// What it is for.
    pub fn role(&self) -> JobRole
        ensures { result ≡ self.now.role }
    {
        self.role
    }

    /// The quantiser index, 0 to 127.
    pub fn q(&self) -> u8
        ensures { result ≡ self.now.q }
    {
        self.q
    }

    /// Whether it makes a key frame.
    pub fn kind(&self) -> Kind
        ensures { result ≡ self.now.kind }
    {
        self.kind
    }

    /// The name of the state that the picture is encoded from.
    pub(crate) fn source_name(&self) -> Name
        ensures named { result.0 ≡ name_in C.coding self.now.source }
        ensures may { MayEncode C.coding self.now.source self.now.samples self.now.q self.now.kind }
    {
        self.source_name
    }

    /// Encodes the picture. This is the only maker of a report. Want of memory is reported as such.
    pub fn run(self, alloc: Global, codec: &C) -> Report<C>
        ensures { result.work ≡ self }
    {
        let encoded = codec.encode(alloc, &self.source, &self.samples, self.q, self.kind);
        match encoded {
            Ok(
                Encoding::Frame {
                    bytes,
                    target,
                    recon,
                },
            ) => {
                let digest = codec.digest(&target);
                match Arc::new(alloc, target) {
                    Ok(target) => Report::new(self, digest, Outcome::Frame(bytes, target, recon)),
                    Err(_) => Report::new(self, NO_DIGEST, Outcome::NoMemory),
                }
            }
            Ok(Encoding::Oversize { first }) => Report::new(
                self,
                NO_DIGEST,
                Outcome::Oversize(first),
            ),
            Err(_) => Report::new(self, NO_DIGEST, Outcome::NoMemory),
        }
    }
}
