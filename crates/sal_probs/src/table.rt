//! The probabilities of a state.

ghost use Rattle.std.specs.Prelude.{◌≡◌, Bool, IfOk, OnErr, length, unwrap_or};
ghost use Rattle.sal_probs.specs.Probabilities.{Table, initial_table, updated, base, used, kept};

use crate::replace::replace;
use crate::updates::Updates;
use sal_base::{Bytes, Memory};
use sal_tables::{
    default_coefficients, default_vectors, inter_chroma_probabilities, inter_y_probabilities,
};
use std::alloc::Global;
use std::marker::Model;

/// The probabilities that frames are read with: 1,056 of coefficients, 38 of vectors, four of the Y mode and three of the chroma mode.
#[derive(Drop)]
pub struct Probs {
    coefficients: Bytes,
    vectors: [u8; 38],
    y: [u8; 4],
    chroma: [u8; 3],
}

impl Model for Probs {
    ghost use Rattle.std.specs.Prelude.{◌≡◌, length};
    ghost use Rattle.sal_probs.specs.Probabilities.{Table};

    ghost Value = { Table };

    ghost view = { λ p. record { coefficients = p.coefficients; vectors = p.vectors; y = p.y; chroma = p.chroma } };

    ghost invariant = { λ p. (length p.coefficients ≡ 1056) × (length p.vectors ≡ 38) × (length p.y ≡ 4) × (length p.chroma ≡ 3) };
}

/// Probabilities that were laid aside for the time of one frame.
#[derive(Drop)]
pub struct Saved {
    probs: Probs,
}

impl Model for Saved {
    ghost use Rattle.sal_probs.specs.Probabilities.{Table};

    ghost Value = { Table };

    ghost view = { λ s. s.probs };
}

impl Probs {
    /// The defaults, which a key frame begins with (RFC 6386, sections 13.5, 16.2 and 17.2).
    #[tactic(auto, unfolding(crate::specs::Probabilities::initial_table))]
    pub fn initial(alloc: Global) -> Result<Probs, Memory>
        ensures { IfOk result (λ p. p ≡ initial_table) }
    {
        let coefficients = Bytes::from_slice(alloc, default_coefficients())?;
        Ok(Probs {
            coefficients,
            vectors: *default_vectors(),
            y: *inter_y_probabilities(),
            chroma: *inter_chroma_probabilities(),
        })
    }

    /// The same probabilities once more.
    pub fn copy(&self, alloc: Global) -> Result<Probs, Memory>
        ensures { IfOk result (λ p. p ≡ self.now) }
    {
        let coefficients = Bytes::from_slice(alloc, self.coefficients.as_slice())?;
        Ok(Probs {
            coefficients,
            vectors: self.vectors,
            y: self.y,
            chroma: self.chroma,
        })
    }

    /// What a frame's updates are made on: the defaults in a key frame, else these (RFC 6386, section 9.11).
    pub fn base(&self, alloc: Global, key: bool) -> Result<Probs, Memory>
        ensures { IfOk result (λ p. p ≡ base key self.now) }
    {
        if key {
            Probs::initial(alloc)
        } else {
            self.copy(alloc)
        }
    }

    /// Makes the updates of a frame's header.
    pub fn apply(&mut self, updates: &Updates)
        ensures { self.new ≡ updated self.old updates.now }
    {
        replace(self.coefficients.as_mut_slice(), &updates.coefficients);
        replace(&mut self.vectors, &updates.vectors);
        self.y = updates.y.unwrap_or(self.y);
        self.chroma = updates.chroma.unwrap_or(self.chroma);
    }

    /// These probabilities, laid aside.
    pub fn saved(&self, alloc: Global) -> Result<Saved, Memory>
        ensures { IfOk result (λ s. s ≡ self.now) }
    {
        Ok(Saved {
            probs: self.copy(alloc)?,
        })
    }

    /// The probabilities that were laid aside.
    pub fn restored(saved: Saved) -> Probs
        ensures { result ≡ saved }
    {
        saved.probs
    }

    /// Makes the updates of a frame's header on its base, which is laid aside where they serve this frame only. Want of memory changes nothing.
    pub fn begin_frame(
        &mut self,
        alloc: Global,
        updates: &Updates,
        refresh_entropy: bool,
    ) -> Result<Option<Saved>, Memory>
        ensures used { IfOk result (λ s. (key : Bool) (old : Table) → self.old ≡ base key old → self.new ≡ used key old updates.now) }
        ensures kept { IfOk result (λ s. (key : Bool) (old : Table) → self.old ≡ base key old → unwrap_or s self.new ≡ kept key refresh_entropy old updates.now) }
        ensures unchanged { OnErr result (self.new ≡ self.old) }
    {
        let saved = if refresh_entropy {
            None
        } else {
            Some(self.saved(alloc)?)
        };
        self.apply(updates);
        Ok(saved)
    }

    /// What the next state has after a frame that was read with these probabilities.
    pub fn end_frame(self, saved: Option<Saved>) -> Probs
        ensures { result ≡ unwrap_or saved self }
    {
        match saved {
            Some(saved) => Probs::restored(saved),
            None => self,
        }
    }

    /// The coefficient probabilities, by type, band, context and place (RFC 6386, section 13.5).
    pub fn coefficients(&self) -> &[u8]
        ensures value { result.now ≡ self.now.coefficients }
        ensures length { length result.now ≡ 1056 }
    {
        self.coefficients.as_slice()
    }

    /// The vector probabilities, 19 of the row and then 19 of the column (section 17.2).
    pub fn vectors(&self) -> &[u8]
        ensures value { result.now ≡ self.now.vectors }
        ensures length { length result.now ≡ 38 }
    {
        &self.vectors
    }

    /// The probabilities of the Y mode in an inter frame (section 16.2).
    pub fn y(&self) -> &[u8]
        ensures value { result.now ≡ self.now.y }
        ensures length { length result.now ≡ 4 }
    {
        &self.y
    }

    /// The probabilities of the chroma mode in an inter frame (section 16.2).
    pub fn chroma(&self) -> &[u8]
        ensures value { result.now ≡ self.now.chroma }
        ensures length { length result.now ≡ 3 }
    {
        &self.chroma
    }
}
