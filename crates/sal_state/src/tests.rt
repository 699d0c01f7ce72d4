//! Digests of states, which an independent program gave, and that threads share states.

ghost use Rattle.std.specs.Prelude.{◌<◌, IfOk};
ghost use Rattle.std.specs.Arc.{arc_value};
ghost use Rattle.sal_base.specs.Picture.{IsPlane};
ghost use Rattle.sal_state.specs.States.{HasBlocks};

use crate::{Reference, References, State};
use sal_base::{Bytes, Memory, Name, Plane, Planes};
use sal_header::Kept;
use sal_probs::Probs;
use std::alloc::Global;
use std::sync::Arc;
use std::test::Fail;

fn flat(alloc: Global, side: u16, value: u8) -> Result<Plane, Memory>
    ensures { IfOk result (IsPlane side side) }
{
    let samples = Bytes::repeat(alloc, value, side as usize * side as usize)?;
    Ok(Plane {
        width: side,
        height: side,
        samples,
    })
}

/// A reference of one macroblock with three flat planes.
fn reference(alloc: Global, value: u8) -> Result<Arc<Reference>, Memory>
    requires { value < 200 }
    ensures { IfOk result (λ r. HasBlocks 1 1 (arc_value r)) }
{
    let planes = Planes {
        y: flat(alloc, 16, value)?,
        u: flat(alloc, 8, value + 1)?,
        v: flat(alloc, 8, value + 2)?,
    };
    Reference::new(alloc, planes)
}

fn some_state(alloc: Global) -> Result<State, Memory> {
    let kept = Kept {
        absolute: true,
        quantisers: [127, -127, 0, -1],
        levels: [1, 2, -63, 63],
        ref_deltas: [-2, 3, 4, 5],
        mode_deltas: [6, 7, 8, -9],
        bias_golden: false,
        bias_alt: true,
        map: Bytes::repeat(alloc, 3, 1)?,
        probs: Probs::initial(alloc)?,
    };
    let references = References {
        width: 16,
        height: 9,
        last: reference(alloc, 10)?,
        golden: reference(alloc, 20)?,
        alt: reference(alloc, 30)?,
    };
    Ok(State::new(kept, references))
}

#[test]
fn states_have_their_digests(rt: HostRuntime) -> Result<(), Fail> {
    let initial = State::initial(rt.alloc()).ok();
    assert_eq!(rt; initial.as_ref().map(|s| s.digest()), Some([0u8; 32]));
    assert_eq!(rt; initial.as_ref().map(|s| s.name()), Some(Name::ZERO));
    let state = some_state(rt.alloc()).ok();
    let digest = [
        0x70, 0x16, 0x97, 0xa9, 0x0b, 0xab, 0xa3, 0x85, 0x94, 0x3f, 0xb4, 0xa5, 0xcf, 0xca, 0x7d,
        0xbf, 0x51, 0x59, 0xe4, 0x21, 0xc2, 0x6a, 0xec, 0xf7, 0x17, 0x65, 0x6e, 0x58, 0x8a, 0x7d,
        0xf0, 0xf7,
    ];
    assert_eq!(rt; state.as_ref().map(|s| s.digest()), Some(digest));
    let name = [
        0x70, 0x16, 0x97, 0xa9, 0x0b, 0xab, 0xa3, 0x85, 0, 0, 0, 0, 0, 0, 0, 0,
    ];
    assert_eq!(rt; state.as_ref().map(|s| s.name()), Some(Name(name)));
    Ok(())
}

/// Takes only what threads may share.
fn is_shared<T: Send + Sync>() {}

#[test]
fn threads_share_states() {
    is_shared::<State>();
    is_shared::<Reference>();
}
