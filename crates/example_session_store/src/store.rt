//! Sessions under tokens, in a cache of bounded size. A session expires at its deadline, which each
//! use extends.
//!
//! A clause sees a store as the function from a token to its session, `session_at`; `alive_at` is
//! the same without the sessions that have expired. Times are numbers that the caller passes.
ghost use Rattle.std.specs.Prelude.{◌≡◌, ℕ, nat_eq, not, None, IfErr, IfOk, OnErr};
ghost use Rattle.std.specs.Option.{option_copied};
ghost use Rattle.collections.specs.Maps.{IsUnique, map_of};
ghost use Rattle.example_session_store.specs.Sessions.{alive_at, Becomes, deadline_at, expired_len};
ghost use Rattle.example_session_store.specs.Sessions.{has_expired, IsForCause, len_of, LogsIn};
ghost use Rattle.example_session_store.specs.Sessions.{Renews, session_at, sessions_with};

use collections::DefaultHash;
use collections::hash_cache::{HashCache, NotInserted};
use std::alloc::Global;

/// A session.
#[derive(Debug, Drop)]
pub struct Session {
    /// The user whose session it is.
    pub user: String,
    /// The time at which it expires.
    pub deadline: u64,
}

impl Session {
    fn has_expired(&self, now: u64) -> bool
        ensures { result ≡ has_expired now self.now }
    {
        self.deadline <= now
    }
}

/// Why a session wasn't made.
#[derive(Clone, Copy, Debug, PartialEq, Eq)]
pub enum NotLoggedIn {
    /// The token has a session, which may have expired.
    Taken,
    /// Allocation failed.
    NoMemory,
}

/// Sessions under tokens.
#[derive(Drop)]
pub struct Store {
    sessions: HashCache<u64, Session>,
    lifetime: u64,
}

impl Store {
    /// Returns an empty store of `slots` slots, 64 or the next power of two, whose sessions last
    /// for `lifetime` after each use. Allocates nothing.
    pub fn new(alloc: Global, slots: usize, lifetime: u64) -> Self
        ensures empty { (token : ℕ) → session_at result token ≡ None }
        ensures lifetime { result.lifetime ≡ lifetime }
    {
        Store {
            sessions: HashCache::with_size(alloc, DefaultHash::default(), slots),
            lifetime,
        }
    }

    /// Returns the number of sessions, including those that have expired. O(1).
    pub fn len(&self) -> usize
        ensures { result ≡ len_of self.now }
    {
        self.sessions.len()
    }

    /// Makes a session, and returns the one that was evicted for it, if any, with its token. On an
    /// error no session changes. O(1) expected, plus any resize.
    pub fn login(
        &mut self,
        token: u64,
        user: String,
        now: u64,
    ) -> Result<Option<(u64, Session)>, NotLoggedIn>
        ensures logged_in { IfOk result (λ evicted. LogsIn token
            (record { user = user; deadline = deadline_at self.old now }) evicted
            self.old self.new) }
        ensures cause { IfErr result (IsForCause (session_at self.old token)) }
        ensures unchanged { OnErr result (Becomes (session_at self.old) self.old self.new) }
    {
        let deadline = self.deadline(now);
        match self.sessions.put(token, Session { user, deadline }) {
            Ok(evicted) => Ok(evicted),
            Err(NotInserted::Present(_token, _session)) => Err(NotLoggedIn::Taken),
            Err(NotInserted::Memory(_token, _session)) => Err(NotLoggedIn::NoMemory),
        }
    }

    /// Returns the session of a token, unless it has expired. O(1) expected.
    pub fn find(&self, token: u64, now: u64) -> Option<&Session>
        ensures { option_copied result ≡ alive_at self.now now token }
    {
        let session = self.sessions.peek(&token)?;
        if session.has_expired(now) {
            return None;
        }
        Some(session)
    }

    /// Extends the deadline of a session that hasn't expired, and returns the new one. The session
    /// is then the last of its bucket to be evicted. O(1) expected.
    pub fn touch(&mut self, token: u64, now: u64) -> Option<u64>
        ensures { Renews token now result self.old self.new }
    {
        let deadline = self.deadline(now);
        let session = self.sessions.get_mut(&token)?;
        if session.has_expired(now) {
            return None;
        }
        session.deadline = deadline;
        Some(deadline)
    }

    /// Removes the session of a token, and returns it, also if it has expired. O(1) expected, plus
    /// any resize.
    pub fn logout(&mut self, token: u64) -> Option<Session>
        ensures session { result ≡ session_at self.old token }
        ensures gone { Becomes (sessions_with token None (session_at self.old)) self.old self.new }
    {
        match self.sessions.remove(&token) {
            Some((_token, session)) => Some(session),
            None => None,
        }
    }

    /// Drops the sessions that have expired, and returns how many there were. O(slots).
    pub fn expire(&mut self, now: u64) -> usize
        ensures left { Becomes (alive_at self.old now) self.old self.new }
        ensures dropped { result ≡ expired_len self.old now }
    {
        let dropped = self.expired_len(now);
        self.sessions.retain(
            &mut move |_token: &u64, session: &mut Session|
                ensures { (result ≡ not (has_expired now session.old))
                    × (session.new ≡ session.old) }
            { !session.has_expired(now) },
        );
        dropped
    }

    fn expired_len(&self, now: u64) -> usize
        ensures len { result ≡ expired_len self.now now }
        ensures unique { IsUnique nat_eq (map_of self.now.sessions) }
    {
        let mut expired = 0usize;
        for (_token, session) in self.sessions.iter() {
            if session.has_expired(now) {
                expired = expired.saturating_add(1);
            }
        }
        expired
    }

    /// Returns the deadline of a session that is used at a time.
    pub fn deadline(&self, now: u64) -> u64
        ensures { result ≡ deadline_at self.now now }
    {
        now.saturating_add(self.lifetime)
    }
}
