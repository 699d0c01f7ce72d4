//! Dequantisation factors (RFC 6386, sections 9.6 and 14.1).

ghost use Rattle.std.specs.Prelude.{◌≡◌, ◌<◌, ◌≤◌};
ghost use Rattle.sal_macroblock.specs.Sizes.{Within};
ghost use Rattle.sal_transform.specs.Factors.{index_of, dc_factor, ac_factor, factors_of};

use sal_tables::{ac_steps, dc_steps};
use std::marker::Model;

/// What coefficients are multiplied by: for luma, Y2 and chroma the factor of a block's first coefficient and that of the others. Each is
/// from 1 to 440.
#[derive(Debug, Drop)]
pub struct Factors {
    /// For the first coefficient of a luma block without Y2.
    pub y_dc: u16,
    /// For the other coefficients of a luma block.
    pub y_ac: u16,
    /// For the first coefficient of a Y2 block.
    pub y2_dc: u16,
    /// For the other coefficients of a Y2 block.
    pub y2_ac: u16,
    /// For the first coefficient of a chroma block.
    pub uv_dc: u16,
    /// For the other coefficients of a chroma block.
    pub uv_ac: u16,
}

impl Model for Factors {
    ghost use Rattle.sal_transform.specs.Factors.{Factors as SixFactors};
    ghost use Rattle.sal_transform.specs.Small.{AreFactors};

    ghost Value = { SixFactors };

    ghost view = { λ s. record { y_dc = s.y_dc; y_ac = s.y_ac; y2_dc = s.y2_dc; y2_ac = s.y2_ac; uv_dc = s.uv_dc; uv_ac = s.uv_ac } };

    ghost invariant = { λ s. AreFactors (record { y_dc = s.y_dc; y_ac = s.y_ac; y2_dc = s.y2_dc; y2_ac = s.y2_ac; uv_dc = s.uv_dc; uv_ac = s.uv_ac }) };
}

/// A quantiser's index, cut off at 0 and at 127.
pub fn cut_off(index: i32) -> u8
    requires { Within 1000 index }
    ensures value { result ≡ index_of index }
    ensures small { result ≤ 127 }
{
    index.clamp(0, 127) as u8
}

fn dc_factor(index: u8, delta: i8) -> u16
    ensures value { result ≡ dc_factor index delta }
    ensures some { 1 ≤ result }
    ensures small { result ≤ 157 }
{
    dc_steps()[cut_off(index as i32 + delta as i32) as usize]
}

fn ac_factor(index: u8, delta: i8) -> u16
    ensures value { result ≡ ac_factor index delta }
    ensures some { 1 ≤ result }
    ensures small { result ≤ 284 }
{
    ac_steps()[cut_off(index as i32 + delta as i32) as usize]
}

impl Factors {
    /// The factors of a quantiser's index and its five deltas.
    #[tactic(auto, unfolding(crate::specs::Factors::factors_of))]
    pub fn new(index: u8, y_dc: i8, y2_dc: i8, y2_ac: i8, uv_dc: i8, uv_ac: i8) -> Factors
        ensures { result ≡ factors_of index y_dc y2_dc y2_ac uv_dc uv_ac }
    {
        Factors {
            y_dc: dc_factor(index, y_dc),
            y_ac: ac_factor(index, 0),
            y2_dc: 2 * dc_factor(index, y2_dc),
            y2_ac: (ac_factor(index, y2_ac) as u32 * 155 / 100).max(8) as u16,
            uv_dc: dc_factor(index, uv_dc).min(132),
            uv_ac: ac_factor(index, uv_ac),
        }
    }
}
