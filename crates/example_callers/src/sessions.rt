//! Sessions of users, in a cache of bounded size.
ghost use Rattle.std.specs.Prelude.{◌≡◌, IfErr, IfOk, IsSome, None, OnErr, true};
ghost use Rattle.collections.specs.Changes.{Stays};
ghost use Rattle.collections.specs.Maps.{get, map_of};
ghost use Rattle.collections.specs.Orders.{IsTouched};
ghost use Rattle.example_callers.specs.Sessions.{HasSession};

use bucket_table::key_hash::KeyHash;
use collections::hash_cache::{HashCache, NotInserted};

/// Touches the session of a user, or inserts a fresh one if the user has none. Returns the session
/// that was evicted for the fresh one, if any, with its user.
///
/// # Errors
///
/// Allocation failure: the fresh session is returned, and the cache keeps the same sessions.
///
/// O(1) expected, plus any resize.
pub fn session_for<U: Eq + Drop, S: Drop, H: KeyHash<U>>(
    cache: &mut HashCache<U, S, H>,
    user: U,
    fresh: S,
) -> Result<Option<(U, S)>, S>
    ensures session { IfOk result (λ gone. HasSession U.eq user fresh gone (map_of cache.old)
        (map_of cache.new)) }
    ensures touched { IsSome (get U.eq (map_of cache.old) user)
        → IsTouched U.eq (U.eq user) true cache.old cache.new }

    // An allocation failure returns the fresh session and changes nothing; it can't happen for a
    // user who has a session.
    ensures session_returned { IfErr result (λ back. back ≡ fresh) }
    ensures absent { OnErr result (get U.eq (map_of cache.old) user ≡ None) }
    ensures unchanged { OnErr result (Stays U.eq (map_of cache.old) (map_of cache.new)) }
{
    if cache.get(&user).is_some() {
        return Ok(None);
    }
    match cache.put(user, fresh) {
        Ok(gone) => Ok(gone),
        Err(NotInserted::Present(_user, back) | NotInserted::Memory(_user, back)) => Err(back),
    }
}
