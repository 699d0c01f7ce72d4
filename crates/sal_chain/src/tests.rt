use super::*;
use sal_base::Name;
use sal_codec::{Codec, Plain, PlainState};
use std::alloc::Global;
use std::sync::Arc;
use std::test::Fail;

const LEFT: Name = Name([1, 2, 3, 4, 5, 6, 7, 8, 0, 0, 0, 0, 0, 0, 0, 0]);

const RIGHT: Name = Name([8, 7, 6, 5, 4, 3, 2, 1, 0, 0, 0, 0, 0, 0, 0, 0]);

// A share of a state.
fn share(alloc: Global) -> Option<Arc<PlainState>> {
    let Ok(state) = Plain.initial(alloc) else {
        return None;
    };
    Arc::new(alloc, state).ok()
}

#[test]
fn numbers_and_names(rt: HostRuntime) -> Result<(), Fail> {
    let alloc = rt.alloc();
    let Some(state) = share(alloc) else {
        panic!(rt; "no state");
    };
    let Ok(mut store) = Store::<Plain>::new(alloc) else {
        panic!(rt; "no store");
    };
    store.add(5, LEFT, Arc::try_clone(&state)?);
    store.add(2, RIGHT, Arc::try_clone(&state)?);
    store.add(9, LEFT, Arc::try_clone(&state)?);
    assert_eq!(rt;
        store.held().as_slice(),
        [(2, RIGHT), (5, LEFT), (9, LEFT)].as_slice()
    );
    assert_eq!(rt; number_of(&store, LEFT), Some(5));
    assert_eq!(rt; number_of(&store, Name::ZERO), None);
    assert_eq!(rt; name_at(&store, 2), Some(RIGHT));
    assert_eq!(rt; name_at(&store, 3), None);
    store.raise_floor(6);
    assert_eq!(rt; store.held().as_slice(), [(9, LEFT)].as_slice());
    assert_eq!(rt; number_of(&store, LEFT), Some(9));
    store.raise_floor(4);
    store.add(21, RIGHT, state);
    assert_eq!(rt;
        store.held().as_slice(),
        [(9, LEFT), (21, RIGHT)].as_slice()
    );
    Ok(())
}

fn number_of(store: &Store<Plain>, name: Name) -> Option<u32> {
    match store.find(name) {
        Some((number, _)) => Some(number),
        None => None,
    }
}

fn name_at(store: &Store<Plain>, number: u32) -> Option<Name> {
    match store.get(number) {
        Some((name, _)) => Some(name),
        None => None,
    }
}
