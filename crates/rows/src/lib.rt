// Rows in memory of a fixed size: an array and how many of its first places count. No heap is used.

#![tactic(auto)]

ghost use Rattle.std.specs.Prelude.{◌≡◌, ◌≤◌, ◌<◌, ◌+◌, ◌++◌, ◌∷◌, [], ℕ, length, take, drop, ⊤};

use std::alloc::AllocError;

// Up to N rows; what lies behind the count is not part of them.
pub struct Rows<T, const N: usize> {
    pub rows: [T; N],
    pub count: usize,
    ghost inside: { count ≤ N },
    ghost whole: { length rows ≡ N },
}

// A derive leaves out what has a ghost field, so this is written: rows of what can be copied can be copied.
impl<T: Copy, const N: usize> Clone for Rows<T, N> {
    ghost is_clone = { λ s r. r ≡ s };

    ghost is_infallible = { λ _. ⊤ };

    fn clone(&self) -> Result<Rows<T, N>, AllocError> {
        Ok(*self)
    }
}

impl<T: Copy, const N: usize> Copy for Rows<T, N> {}

impl<T: Copy, const N: usize> Rows<T, N> {
    // No rows, with this in every place.
    pub fn new(blank: T) -> Rows<T, N>
        ensures { take result.count result.rows ≡ [] }
    {
        Rows {
            rows: [blank; N],
            count: 0,
        }
    }

    // The rows that count.
    pub fn listed(&self) -> &[T]
        ensures { result.now ≡ take self.now.count self.now.rows }
    {
        &self.rows[..self.count]
    }

    // One row more, behind the others.
    pub fn push(&mut self, row: T)
        requires room { self.old.count < N }
        ensures { take self.new.count self.new.rows ≡ take self.old.count self.old.rows ++ row ∷ [] }
    {
        self.rows[self.count] = row;
        self.count += 1;
    }

    // A row put in at a place, and those from there on one place further.
    pub fn insert(&mut self, at: usize, row: T)
        requires at_in_bounds { at ≤ self.old.count }
        requires room { self.old.count < N }
        ensures { take self.new.count self.new.rows
            ≡ take at self.old.rows ++ row ∷ drop at (take self.old.count self.old.rows) }
    {
        self.rows.copy_within(at..self.count, at + 1);
        self.rows[at] = row;
        self.count += 1;
    }
}
