//! Calls of a function with a pair that a table lends, and the fact that it may always be called.
ghost use Rattle.std.specs.Prelude.{◌≡◌, true};
ghost use Rattle.collections.specs.Changes.{Calls};

/// Calls a function with a pair, and returns `true`.
pub(crate) fn called_with<K, V, F: FnMut(&K, &mut V)>(f: &mut F, key: &K, value: &mut V) -> bool
    requires { F.IsAlwaysCallable f.old }
    ensures { (result ≡ true) × Calls (λ own before after. F.step f.old own before tt after f.new)
        key.now value.old value.new }
{
    f(key, value);
    true
}

/// States that a function of a key and a mutable value may always be called. Does nothing at run
/// time.
pub(crate) fn fact_asks<K, V, F: FnMut(&K, &mut V) -> bool>(f: &F)
    requires callable { F.IsAlwaysCallable f.now }
    ensures { F.IsAlwaysCallable f.now }
{
    let _ = f;
}

/// States that a function of pairs may always be called. Does nothing at run time.
pub(crate) fn fact_visits<K, V, F: FnMut(&K, &V)>(f: &F)
    requires callable { F.IsAlwaysCallable f.now }
    ensures { F.IsAlwaysCallable f.now }
{
    let _ = f;
}
