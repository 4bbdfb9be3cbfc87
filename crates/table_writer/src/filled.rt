// A list under way in a place of its own, which has room for N items: those that are in it stand at the front.
ghost use Rattle.std.specs.Prelude.{◌≡◌, ◌+◌, ◌<◌, ◌≤◌, List, [], ◌∷◌, ◌++◌, length, take, slice_set};

use std::marker::Model;

#[derive(Drop)]
pub struct Filled<T, const N: usize> {
    items: [T; N],
    count: usize,
}

impl<T, const N: usize> Model for Filled<T, N> {
    ghost Value = { List T };

    ghost view = { λ l. take l.count l.items };

    ghost invariant = { λ l. (l.count ≤ N) × (length l.items ≡ N) };
}

impl<T: Copy, const N: usize> Filled<T, N> {
    // Nothing is in it yet.
    pub fn new(blank: T) -> Filled<T, N>
        ensures { result ≡ [] }
    {
        Filled {
            items: [blank; N],
            count: 0,
        }
    }

    pub fn len(&self) -> usize
        ensures { result ≡ length self.now }
    {
        self.count
    }

    pub fn as_slice(&self) -> &[T]
        ensures { result.now ≡ self.now }
    {
        &self.items[..self.count]
    }

    pub fn push(&mut self, x: T)
        requires { length self.old < N }
        ensures { self.new ≡ self.old ++ x ∷ [] }
    {
        self.items[self.count] = x;
        self.count += 1;
    }

    pub fn extend(&mut self, xs: &[T])
        requires { length self.old + length xs.now ≤ N }
        ensures { self.new ≡ self.old ++ xs.now }
    {
        let end = self.count + xs.len();
        let items = &mut self.items[..];
        items[self.count..end].copy_from_slice(xs);
        self.count = end;
    }

    // As many items more, whatever stands in their places.
    pub fn grow(&mut self, count: usize)
        requires { length self.old + count ≤ N }
        ensures front { take (length self.old) self.new ≡ self.old }
        ensures len { length self.new ≡ length self.old + count }
    {
        self.count += count;
    }

    pub fn set(&mut self, k: usize, x: T)
        requires { k < length self.old }
        ensures { self.new ≡ slice_set self.old k x }
    {
        let items = &mut self.items[..];
        items[k] = x;
    }
}
