//! Shares of one state.

ghost use Rattle.std.specs.Prelude.{◌≡◌, ◌<◌, ◌-◌, length, IfOk};
ghost use Rattle.std.specs.Arc.{arc_value};
ghost use Rattle.sal_base.specs.declared.limits.TheConstants.{WINDOW};
ghost use Rattle.sal_receiver.specs.Shared.{AreOf};

use sal_base::{Memory, WINDOW};
use std::alloc::Global;
use std::marker::Model;
use std::sync::Arc;

// How many shares there are besides the first one: one for each other number of the window.
const OTHERS: usize = WINDOW as usize - 1;

/// Shares of one state, one for each of the `WINDOW` numbers: one to be kept, and the others for frames that wait for it.
#[derive(Drop)]
pub struct Shares<S> {
    first: Arc<S>,
    others: Vec<Arc<S>>,
}

impl<S> Model for Shares<S> {
    ghost use Rattle.std.specs.Prelude.{length};
    ghost use Rattle.std.specs.Arc.{arc_value};
    ghost use Rattle.sal_receiver.specs.Shared.{Shared, AreOf};

    ghost Value = { Shared S };

    ghost view = { λ s. record { state = arc_value s.first; others = length s.others.items } };

    ghost invariant = { λ s. AreOf (arc_value s.first) s.others.items };
}

impl<S: Drop> Shares<S> {
    /// A share of a state for each number of the window.
    pub(crate) fn new(alloc: Global, state: S) -> Result<Shares<S>, Memory>
        ensures { IfOk result (λ s. s ≡ record { state = state; others = WINDOW - 1 }) }
    {
        let first = Arc::new(alloc, state)?;
        let others = copies(alloc, &first)?;
        Ok(Shares { first, others })
    }

    /// Takes one share besides the first.
    pub(crate) fn take(&mut self) -> Arc<S>
        requires { 0 < self.old.others }
        ensures share { arc_value result ≡ self.old.state }
        ensures left { self.new ≡ record self.old { others = self.old.others - 1 } }
    {
        self.others.pop().unwrap()
    }

    /// The first share; the others are let go.
    pub(crate) fn into_first(self) -> Arc<S>
        ensures { arc_value result ≡ self.state }
    {
        self.first
    }
}

// The shares besides the first one.
#[tactic(auto, using(crate::proofs::ShareLemmas::are_push))]
fn copies<S: Drop>(alloc: Global, first: &Arc<S>) -> Result<Vec<Arc<S>>, Memory>
    ensures count { IfOk result (λ v. length v.items ≡ WINDOW - 1) }
    ensures same { IfOk result (λ v. AreOf (arc_value first.now) v.items) }
{
    let mut others = Vec::new(alloc);
    for _ in 0..OTHERS {
        others.push(Arc::try_clone(first)?)?;
    }
    Ok(others)
}
