//! Residues added to predictions (RFC 6386, section 14.5).

ghost use Rattle.std.specs.Prelude.{◌≡◌, ◌<◌, ◌≤◌, ◌+◌, ◌*◌, ◌/◌, ◌%◌, ℕ, pos, length, slice_index, slice_index_or};
ghost use Rattle.sal_frame.specs.Built.{sum_cut};
ghost use Rattle.sal_frame.specs.Residues.{residue_at};

// A prediction and a residue, cut off at 0 and at 255.
#[inline]
fn sum_cut(prediction: u8, residue: i32) -> u8
    ensures { result ≡ sum_cut prediction residue }
{
    // Residues beyond these lead to the same samples.
    (prediction as i32 + residue.clamp(-255, 255)).clamp(0, 255) as u8
}

// Adds residues to a row of samples in a square that is so many blocks wide.
#[inline]
fn add_row(line: &mut [u8], residues: &[[i32; 16]], many: usize, row: usize)
    requires many { (1 ≤ many) × (many ≤ 4) }
    requires residues { length residues.now ≡ many * many }
    requires line { length line.old ≡ 4 * many }
    requires row { row < 4 * many }
    ensures { (k : ℕ) → k < 4 * many → slice_index line.new k ≡ sum_cut (slice_index line.old k) (residue_at many residues.now row k) }
{
    for (column, sample) in line.iter_mut().enumerate() {
        let block = &residues[many * (row / 4) + column / 4];
        *sample = sum_cut(*sample, block[4 * (row % 4) + column % 4]);
    }
}

/// Adds the residues of a macroblock to its luma samples.
pub(crate) fn add_luma(samples: &mut [u8; 256], residues: &[[i32; 16]; 16])
    ensures { (k : ℕ) → k < 256 → slice_index samples.new k ≡ sum_cut (slice_index samples.old k) (residue_at 4 residues.now (k / 16) (k % 16)) }
{
    for row in 0..16usize {
        add_row(&mut samples[16 * row..16 * row + 16], residues, 4, row);
    }
}

/// Adds the residues of a macroblock to its samples in a chroma plane.
pub(crate) fn add_chroma(samples: &mut [u8; 64], residues: &[[i32; 16]; 4])
    ensures { (k : ℕ) → k < 64 → slice_index samples.new k ≡ sum_cut (slice_index samples.old k) (residue_at 2 residues.now (k / 8) (k % 8)) }
{
    for row in 0..8usize {
        add_row(&mut samples[8 * row..8 * row + 8], residues, 2, row);
    }
}

/// Adds the residues of a subblock to its samples.
pub(crate) fn add_sub(samples: &mut [u8; 16], residue: &[i32; 16])
    ensures { (k : ℕ) → k < 16 → slice_index samples.new k ≡ sum_cut (slice_index samples.old k) (slice_index_or residue.now k (pos 0)) }
{
    for (k, sample) in samples.iter_mut().enumerate() {
        *sample = sum_cut(*sample, residue[k]);
    }
}
