//! Entries that are replaced by new ones.

ghost use Rattle.std.specs.Prelude.{◌≡◌, length};
ghost use Rattle.sal_probs.specs.Probabilities.{replaced};

// Each value by its update where there is one.
pub(crate) fn replace(values: &mut [u8], updates: &[Option<u8>])
    requires { length values.old ≡ length updates.now }
    ensures { values.new ≡ replaced values.old updates.now }
{
    for i in 0..values.len() {
        values[i] = updates[i].unwrap_or(values[i]);
    }
}
