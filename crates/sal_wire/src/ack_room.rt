//! Room for an acknowledgement, made before it is known what it says.

ghost use Rattle.std.specs.Prelude.{◌≡◌, ◌≤◌, ◌+◌, ◌*◌, [], length, vec_capacity};
ghost use Rattle.sal_wire.specs.Layout.{ack_bytes};

use crate::datagram::Ack;
use crate::layout::MAX_ACK;
use crate::writing::put_ack;
use sal_base::{Bytes, Memory};
use std::alloc::Global;
use std::marker::Model;

/// Room for the bytes of one acknowledgement, whatever it says, so that writing it can't fail.
#[derive(Drop)]
pub struct AckRoom {
    bytes: Vec<u8>,
}

impl Model for AckRoom {
    ghost use Rattle.std.specs.Prelude.{◌≡◌, ◌≤◌, [], vec_capacity};
    ghost use Rattle.sal_wire.specs.declared.layout.TheConstants.{MAX_ACK};

    ghost Value = { Unit {0} };

    ghost view = { λ r. tt };

    ghost invariant = { λ r. (r.bytes.items ≡ []) × (MAX_ACK ≤ vec_capacity r.bytes) };
}

impl AckRoom {
    /// Room for one acknowledgement.
    pub fn new(alloc: Global) -> Result<AckRoom, Memory> {
        Ok(AckRoom {
            bytes: Vec::with_capacity(alloc, MAX_ACK)?,
        })
    }

    /// The bytes of an acknowledgement, as `write` gives them; it takes no memory.
    pub fn write(self, ack: &Ack) -> Bytes
        ensures { result ≡ ack_bytes ack.now }
    {
        let mut out = self.bytes;
        put_ack(&mut out, ack);
        Bytes::from_vec(out)
    }
}
