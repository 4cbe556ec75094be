//! The store as its callers use it.
use crate::Chunks;
use std::alloc::{AllocError, Global};

// How many of so many puts are taken.
fn taken(store: &mut Chunks<u32>, puts: u32) -> u32 {
    let mut count = 0u32;
    for value in 0..puts {
        if store.put(value).is_ok() {
            count = count.wrapping_add(1);
        }
    }
    count
}

// No slot is vacant, and a put gives its value back.
fn is_full(store: &mut Chunks<u32>) -> bool {
    let left = store.vacant();
    match store.put(5) {
        Ok(_) => false,
        Err(back) => back == 5 && left == 0,
    }
}

// A value is put, changed and taken, and its slot is filled again.
fn fills_again(store: &mut Chunks<u32>) -> bool {
    match store.put(7) {
        Ok(slot) => {
            let before = *store.get(slot);
            *store.get_mut(slot) = 8;
            let changed = *store.get(slot);
            let was = store.take(slot);
            before == 7 && changed == 8 && was == 8 && store.put(9).is_ok()
        }
        Err(_) => false,
    }
}

// Of one chunk: how many slots, how many puts of 1,023 are taken, and whether the last slot is filled, emptied and
// filled again, and the store is full then.
fn one_chunk(alloc: Global) -> Result<(usize, u32, bool, bool), AllocError> {
    let mut store = Chunks::new(alloc);
    store.add_chunk()?;
    let slots = store.vacant();
    let count = taken(&mut store, 1023);
    let again = fills_again(&mut store);
    let full = is_full(&mut store);
    Ok((slots, count, again, full))
}

#[test]
fn a_chunk_has_room_for_1024_values(rt: HostRuntime) {
    let mut empty: Chunks<u32> = Chunks::new(rt.alloc());
    assert!(rt; is_full(&mut empty));
    assert_eq!(rt; empty.len(), 0);
    match one_chunk(rt.alloc()) {
        Ok((slots, count, again, full)) => {
            assert_eq!(rt; slots, 1024);
            assert_eq!(rt; count, 1023);
            assert!(rt; again);
            assert!(rt; full);
        }
        Err(_) => assert!(rt; false),
    }
}
