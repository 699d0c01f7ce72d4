//! The token partition and the unfiltered planes of a plan, macroblock by macroblock in raster order (RFC 6386, sections 13 and 14).

ghost use Rattle.std.specs.Prelude.{◌≡◌, ◌<◌, ℕ, IfOk};
ghost use Rattle.sal_base.specs.Samples.{listed};
ghost use Rattle.sal_transform.specs.Factors.{Factors as FactorsData};
ghost use Rattle.sal_encode.specs.Plans.{IsPlan};
ghost use Rattle.sal_encode.specs.FrameBytes.{probs_of};
ghost use Rattle.sal_encode.specs.Standing.{IsBuilt};

use crate::plan::Plan;
use crate::tokens::Tokens;
use sal_base::{Bytes, Memory, Planes};
use sal_filter::MbInfo;
use sal_frame::{Macroblock, blanks, blocks_of, build, frame_factors, info_of};
use sal_probs::Probs;
use sal_state::State;
use sal_transform::Factors;
use std::alloc::Global;

/// What the macroblocks of a plan are written as and built into.
#[derive(Drop)]
pub(crate) struct Built {
    /// The token partition.
    pub(crate) tokens: Bytes,
    /// The unfiltered planes.
    pub(crate) planes: Planes,
    /// What the loop filter needs of the macroblocks.
    pub(crate) infos: Vec<MbInfo>,
}

// The factors of a segment, out of those of all four.
fn factors_in(factors: &[Factors; 4], segment: u8) -> &Factors
    requires { segment < 4 }
    ensures { (f : ℕ → FactorsData) → factors.now ≡ listed 4 f → result.now ≡ f segment }
{
    &factors[segment as usize]
}

/// Writes the tokens of a plan's macroblocks, and builds them into planes.
pub(crate) fn build_plan(
    alloc: Global,
    state: &State,
    width: u16,
    height: u16,
    plan: &Plan,
    probs: &Probs,
) -> Result<Built, Memory>
    requires plan { IsPlan state.now (width, height) plan.now }
    requires probs { probs.now ≡ probs_of state.now plan.now }
    ensures { IfOk result (λ b. IsBuilt state.now (width, height) plan.now b) }
{
    let columns = blocks_of(width);
    let references = state.references();
    let factors = frame_factors(&plan.header);
    let modes = plan.modes.as_slice();
    let levels = plan.levels.as_slice();
    let mut tokens = Tokens::begin(alloc, columns)?;
    let mut planes = blanks(alloc, columns, blocks_of(height))?;
    let mut infos = Vec::new(alloc);
    infos.reserve(modes.len())?;
    for k in 0..modes.len() {
        let column = k % columns;
        let row = k / columns;
        let mode = &modes[k];
        let coefficients = &levels[k];
        let has_coefficients = tokens.write(probs, mode, coefficients, column)?;
        let block = Macroblock::new(mode, coefficients, has_coefficients);
        build(
            &mut planes,
            references,
            &block,
            factors_in(&factors, mode.segment),
            column as u16,
            row as u16,
        );
        infos.push(info_of(&block))?;
    }
    let tokens = tokens.finish()?;
    Ok(Built {
        tokens,
        planes,
        infos,
    })
}
