//! A history of entries that exists only in the proofs. Its tokens take no bytes, and their functions do nothing at run time.

ghost use Rattle.std.specs.Prelude.{◌≡◌, ℕ, List, [], ◌∷◌, ◌++◌};
ghost use base.Stored.{coded_list};
ghost use Rattle.sled_shared.specs.History.{HasAll, Writes, line_coded, written_by, history_owns, pen_owns};

use std::marker::{Model, PhantomData, Send};

/// The history. Its owner can write to it.
pub struct History<E> {
    marker: PhantomData<E>,
    pub ghost name: { ℕ },
    pub ghost log: { List (ℕ × E) } by { coded_list (line_coded E.code) },
}

impl<E> Model for History<E> {
    ghost also_owns = { λ h. history_owns E.row.coded.code h.name h.log };
}

/// A writer's number, and what it has seen of the history.
pub struct Pen<E> {
    marker: PhantomData<E>,
    pub ghost of: { ℕ },
    pub ghost number: { ℕ },
    pub ghost seen: { List (ℕ × E) } by { coded_list (line_coded E.code) },
}

impl<E> Model for Pen<E> {
    ghost also_owns = { λ p. pen_owns E.row.coded.code p.of p.number p.seen };
}

impl<E> History<E> {
    /// Makes a history with no entry.
    pub fn new() -> History<E>
        ensures { result.log ≡ [] }
    {
        History {
            marker: PhantomData,
        }
    }

    /// Makes one more pen, which has written nothing and has seen all entries so far.
    pub fn pen(&mut self) -> Pen<E>
        ensures { (self.new ≡ self.old) × (result.of ≡ self.old.name) × (result.seen ≡ self.old.log) × (written_by result.number self.old.log ≡ []) }
    {
        Pen {
            marker: PhantomData,
        }
    }

    /// Writes an entry. The pen has seen the whole history then.
    pub fn enter(&mut self, pen: &mut Pen<E>, entry: &E)
        requires { pen.old.of ≡ self.old.name }
        ensures { (self.new.name ≡ self.old.name) × (pen.new.of ≡ pen.old.of) × (pen.new.number ≡ pen.old.number) × (self.new.log ≡ self.old.log ++ (pen.old.number, entry.now) ∷ []) × (pen.new.seen ≡ self.new.log) × Writes pen.old.number pen.old.seen entry.now pen.new.seen }
    {}

    /// Changes nothing, and shows that the pen has seen a prefix of the history, with all entries that it wrote.
    pub fn audit(&mut self, pen: &mut Pen<E>)
        requires { pen.old.of ≡ self.old.name }
        ensures { (self.new ≡ self.old) × (pen.new ≡ pen.old) × HasAll pen.old.number pen.old.seen self.old.log }
    {}
}

impl<E> Drop for History<E> {
    fn drop(self) {
        let Self { marker: _ } = self;
    }
}

impl<E> Drop for Pen<E> {
    fn drop(self) {
        let Self { marker: _ } = self;
    }
}

unsafe impl<E> Send for History<E> {}

unsafe impl<E> Send for Pen<E> {}
