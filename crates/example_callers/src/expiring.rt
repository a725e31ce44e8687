//! Removing an expired session from a map.
ghost use Rattle.std.specs.Prelude.{◌≡◌, ◌↔◌, ◌++◌, ◌∷◌, ◌<◌, ◌≤◌, IfNone, IfSome, IsTrue, List, ℕ};
ghost use Rattle.std.specs.List.{All};

use collections::hash_map::HashMap;

/// Removes a session that has ended before a time, the first in the order of the view, and returns
/// it with its end; `None` if none has ended. The other sessions stay.
///
/// Never fails. O(slots).
pub fn take_expired(sessions: &mut HashMap<u64, u64>, time: u64) -> Option<(u64, u64)>
    ensures taken { IfSome result (λ session. (session.1 < time)
        × ((front behind : List (ℕ × ℕ))
        × (sessions.old.entries ≡ front ++ session ∷ behind)
        × (sessions.new.entries ≡ front ++ behind))) }
    ensures none { IfNone result (All (λ session. time ≤ session.1) sessions.old.entries
        × (sessions.new.entries ≡ sessions.old.entries)) }
{
    let mut expired = sessions.extract_if(
        move |_session: &u64, end: &mut u64|
            ensures { (IsTrue result ↔ end.old < time) × (end.new ≡ end.old) }
        { *end < time },
    );
    expired.next()
}
