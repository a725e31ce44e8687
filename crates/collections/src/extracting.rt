//! What the extractions of a map and of a set share: an extraction holds the arrays, and puts them
//! back when it ends.
ghost use Rattle.std.specs.Prelude.{◌≡◌};

/// A part that was taken out of a collection and is put back into it.
pub trait PutBack<M> {
    /// States that it may be put back into the collection.
    ghost fits: { M → Self → Type 0 };

    /// The collection after it is put back.
    ghost after: { M → Self → M };

    /// Puts it back.
    fn put_back(&mut self, to: &mut M)
        requires { ∥ fits to.old self.old ∥₁ }
        ensures put { to.new ≡ after to.old self.old }
        ensures still { ∥ fits to.new self.old ∥₁ };
}

/// An iterator that removes what a function picks from a collection. std: `ExtractIf`.
pub struct Extraction<'a, M, F, T: PutBack<M>> {
    pub(crate) from: &'a mut M,
    pub(crate) taken: T,
    pub(crate) test: F,
    ghost fits: { ∥ T.fits from.now taken ∥₁ },
}

impl<'a, M, F: Drop, T: PutBack<M> + Drop> Drop for Extraction<'a, M, F, T> {
    fn drop(self)
        ensures { self.exit.0.now ≡ T.after self.entry.from.now self.entry.taken }
    {
        let Extraction {
            from,
            mut taken,
            test,
        } = self;
        taken.put_back(from);
        drop(taken);
        drop(test);
    }
}
