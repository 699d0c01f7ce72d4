//! Samples less the source's, and with them again, modulo 256.

ghost use Rattle.std.specs.Prelude.{◌≡◌, ◌++◌, length, OnOk};
ghost use Rattle.sal_codec.specs.Plain.{differences, sums};

use std::alloc::AllocError;

// How many samples are copied before the source's are taken from them: few enough that they are still in the nearest
// cache then.
const STRETCH: usize = 8192;

/// Takes from each sample the source's at its place.
fn subtract(samples: &mut [u8], source: &[u8])
    requires { length samples.old ≡ length source.now }
    ensures { samples.new ≡ differences samples.old source.now }
{
    for (at, sample) in samples.iter_mut().enumerate() {
        *sample = sample.wrapping_sub(source[at]);
    }
}

/// Adds to each sample the source's at its place.
fn add(samples: &mut [u8], source: &[u8])
    requires { length samples.old ≡ length source.now }
    ensures { samples.new ≡ sums samples.old source.now }
{
    for (at, sample) in samples.iter_mut().enumerate() {
        *sample = sample.wrapping_add(source[at]);
    }
}

/// Adds a stretch of samples less the source's at the end.
fn push_less(out: &mut Vec<u8>, samples: &[u8], source: &[u8]) -> Result<(), AllocError>
    requires { length samples.now ≡ length source.now }
    ensures { OnOk result (out.new.items ≡ out.old.items ++ differences samples.now source.now) }
{
    let start = out.len();
    out.extend_from_slice(samples)?;
    subtract(&mut out[start..], source);
    Ok(())
}

/// Adds a stretch of samples with the source's at the end.
fn push_plus(out: &mut Vec<u8>, samples: &[u8], source: &[u8]) -> Result<(), AllocError>
    requires { length samples.now ≡ length source.now }
    ensures { OnOk result (out.new.items ≡ out.old.items ++ sums samples.now source.now) }
{
    let start = out.len();
    out.extend_from_slice(samples)?;
    add(&mut out[start..], source);
    Ok(())
}

/// Adds samples less the source's at the end.
pub(crate) fn push_differences(
    out: &mut Vec<u8>,
    samples: &[u8],
    source: &[u8],
) -> Result<(), AllocError>
    requires { length samples.now ≡ length source.now }
    ensures { OnOk result (out.new.items ≡ out.old.items ++ differences samples.now source.now) }
{
    let mut at = 0;
    while at < samples.len() {
        let end = samples.len().min(at + STRETCH);
        push_less(out, &samples[at..end], &source[at..end])?;
        at = end;
    }
    Ok(())
}

/// Adds samples with the source's at the end.
pub(crate) fn push_sums(out: &mut Vec<u8>, samples: &[u8], source: &[u8]) -> Result<(), AllocError>
    requires { length samples.now ≡ length source.now }
    ensures { OnOk result (out.new.items ≡ out.old.items ++ sums samples.now source.now) }
{
    let mut at = 0;
    while at < samples.len() {
        let end = samples.len().min(at + STRETCH);
        push_plus(out, &samples[at..end], &source[at..end])?;
        at = end;
    }
    Ok(())
}
