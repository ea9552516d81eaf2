// At most N things in order, as a table's rows and a sheet's lines are.
ghost use Rattle.std.specs.Prelude.{◌≡◌, [], ◌<◌, ◌≤◌, length, take};
ghost use Rattle.table.specs.Listed.{More};

// No heap is allowed, so a list is an array with its count, and this is the one place for it. What stands beyond the first `len` means nothing.
#[derive(Clone, Copy)]
pub struct AtMost<T, const N: usize> {
    pub items: [T; N],
    pub len: usize,
}

impl<T: Copy, const N: usize> AtMost<T, N> {
    // None yet, and `blank` at every place.
    pub fn new(blank: T) -> AtMost<T, N>
        ensures { (result.len ≡ 0) × (take result.len result.items ≡ []) }
    {
        AtMost {
            items: [blank; N],
            len: 0,
        }
    }

    // One more, or as they are where there is no place left.
    pub fn push(&mut self, item: T)
        ensures { More N self.old.items self.old.len item self.new.items self.new.len }
    {
        if self.len < N {
            self.items[self.len] = item;
            self.len += 1;
        }
    }

    // The same as a new value.
    pub fn with(self, item: T) -> AtMost<T, N>
        ensures { More N self.items self.len item result.items result.len }
    {
        let mut more = self;
        more.push(item);
        more
    }

    pub fn as_slice(&self) -> &[T]
        ensures { result.now ≡ take self.now.len self.now.items }
    {
        // A table that nobody read may have any count, so that the count is at most N is no type invariant.
        &self.items[..self.len.min(N)]
    }
}
