//! Locks that are held for one short call.

use std::hint::spin_loop;
use std::sync::{Mutex, MutexGuard, Wait};

/// How often a thread tries a held lock before it sleeps until the lock is free.
const TRIES: u32 = 16;

/// How many pauses it makes after the first try.
const FIRST_PAUSES: u32 = 16;

/// How many pauses it makes at most after a later try.
const MOST_PAUSES: u32 = 256;

/// Makes so many pauses. (It isn't inlined, since each caller of `lock_briefly` would unroll a copy.)
#[inline(never)]
fn pause(count: u32) {
    for _ in 0..count {
        spin_loop();
    }
}

/// Takes a lock that others hold for one call each. It first tries for a while, even if other
/// threads sleep waiting for the lock: most calls take less time than a thread needs to fall asleep
/// and be woken. It waits twice as long after each try, up to `MOST_PAUSES`, since each try takes
/// the lock's word away from the thread that is about to release the lock.
pub(crate) fn lock_briefly<'a, R: Wait, T>(mutex: &'a Mutex<T>, rt: &R) -> MutexGuard<'a, T> {
    let mut pauses = FIRST_PAUSES;
    for _ in 0..TRIES {
        if let Some(guard) = mutex.try_lock() {
            return guard;
        }
        pause(pauses);
        pauses = pauses.saturating_mul(2).min(MOST_PAUSES);
    }
    mutex.lock(rt)
}
