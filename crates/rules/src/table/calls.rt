// A table is made empty, and filled from the front.
ghost use Rattle.std.specs.Prelude.{Option, ◌+◌, ◌≡◌, ◌<◌, ◌≤◌, [], ◌∷◌, ◌++◌, length, nat_le, slice_set};
ghost use Rattle.std.specs.List.{filter_map};
ghost use Rattle.rules.specs.Register.{Computes};

use super::Table;

impl<T: Copy, const N: usize> Table<T, N> {
    // A table with nothing in it; `blank` stands where nothing is filled in.
    pub fn new(blank: T) -> Self
        ensures { result ≡ [] }
    {
        Table {
            all: [blank; N],
            count: 0,
        }
    }

    pub fn as_slice(&self) -> &[T]
        ensures value { result.now ≡ self.now }
        ensures bound { length result.now ≤ N }
    {
        &self.all[..self.count]
    }

    pub fn len(&self) -> usize
        ensures value { result ≡ length self.now }
        ensures bound { result ≤ N }
    {
        self.count
    }

    pub fn is_full(&self) -> bool
        ensures { result ≡ nat_le N (length self.now) }
    {
        self.len() >= N
    }

    // One record more, behind the others.
    pub fn push(&mut self, x: T)
        requires { length self.old < N }
        ensures { self.new ≡ self.old ++ (x ∷ []) }
    {
        self.all[self.count] = x;
        self.count += 1;
    }

    // What `f` makes of each item in turn, behind the others; an item of which it makes nothing is left out.
    pub fn extend_with<U: Copy, F: Fn(U) -> Option<T>>(&mut self, items: &[U], f: F)
        requires callable { F.IsAlwaysCallable f }
        requires room { length self.old + length items.now ≤ N }
        ensures added { (g : U → Option T) → Computes (F.post f) g → self.new ≡ self.old ++ filter_map g items.now }
        ensures bound { length self.new ≤ length self.old + length items.now }
    {
        for item in items {
            if let Some(x) = f(*item) {
                self.push(x);
            }
        }
    }

    // Another record in the place of the one at k; nothing past the last.
    pub fn set(&mut self, k: usize, x: T)
        ensures { self.new ≡ slice_set self.old k x }
    {
        // By index: of what `get_mut` lends out of a slice, a proof knows the length alone.
        if k < self.count {
            self.all[k] = x;
        }
    }
}
