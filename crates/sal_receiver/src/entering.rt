//! What the receiver does with the parts that it keeps.

ghost use Rattle.std.specs.Prelude.{◌≡◌, ◌<◌, ◌≤◌, ◌&&◌, length, map, find, nat_le, vec_len, vec_capacity, IfOk};
ghost use Rattle.std.specs.Option.{option_map};
ghost use Rattle.std.specs.Arc.{arc_value};
ghost use Rattle.sal_base.specs.Names.{same};
ghost use Rattle.sal_wire.specs.Fields.{fields_of};
ghost use Rattle.sal_chain.specs.Held.{with_number, not_below};
ghost use Rattle.sal_receiver.specs.Held.{state_among};
ghost use Rattle.sal_receiver.specs.Pending.{frame_unshared};
ghost use Rattle.sal_receiver.specs.Machine.{entered, new_pending};

use crate::pending_frame::{PendingFrame, Stage};
use crate::pending_frames::put;
use sal_base::{Bytes, Memory, Name};
use sal_chain::Store;
use sal_codec::Codec;
use sal_reasm::Offered;
use sal_wire::Fragment;
use std::sync::Arc;

// The first number from the floor on that has this name.
fn first_label(labels: &[(u32, Name)], floor: u32, name: &Name) -> Option<u32>
    ensures { result ≡ option_map (λ l. l.0) (find (λ l. nat_le floor l.0 && same l.1.0 name.now.0) labels.now) }
{
    labels
        .iter()
        .find(|l| floor <= l.0 && l.1 == *name)
        .map(|l| l.0)
}

// A share of the state of this number.
fn share_at<C: Codec>(store: &Store<C>, number: u32) -> Result<Option<Arc<C::State>>, Memory>
    ensures { IfOk result (λ o. option_map arc_value o ≡ option_map (λ k. k.state) (with_number number store.now.kept)) }
{
    match store.get(number) {
        Some((_, state)) => Ok(Some(Arc::try_clone(state)?)),
        None => Ok(None),
    }
}

/// A share of the state of this name, if one is held from the floor on.
pub(crate) fn share_of<C: Codec>(
    store: &Store<C>,
    initial: &Arc<C::State>,
    floor: u32,
    name: Name,
) -> Result<Option<Arc<C::State>>, Memory>
    ensures { IfOk result (λ o. option_map arc_value o ≡ state_among (arc_value initial.now) name.0 (not_below floor store.now.kept)) }
{
    if name == Name::ZERO {
        return Ok(Some(Arc::try_clone(initial)?));
    }
    let labels = store.held();
    match first_label(labels.as_slice(), floor, &name) {
        Some(number) => share_at(store, number),
        None => Ok(None),
    }
}

// A frame that is complete now, with its source where that is held.
fn complete<S: Drop>(
    fragment: &Fragment,
    bytes: Bytes,
    source: Option<Arc<S>>,
) -> PendingFrame<Arc<S>>
    ensures { frame_unshared result ≡ new_pending (fields_of fragment.now) (option_map arc_value source) bytes }
{
    let stage = match source {
        Some(source) => Stage::Ready(source, bytes),
        None => Stage::Complete(bytes),
    };
    PendingFrame {
        number: fragment.number,
        source: fragment.source,
        target: fragment.target,
        stage,
    }
}

/// Adds the fragment's frame, where it is complete now.
pub(crate) fn add<S: Drop>(
    frames: &mut Vec<PendingFrame<Arc<S>>>,
    offered: Offered,
    fragment: &Fragment,
    source: Option<Arc<S>>,
)
    requires { vec_len frames.old < vec_capacity frames.old }
    ensures { map frame_unshared frames.new.items ≡ entered offered (fields_of fragment.now) (option_map arc_value source) (map frame_unshared frames.old.items) }
{
    if let Offered::Complete(bytes) = offered {
        put(frames, complete(fragment, bytes, source));
    }
}
