// A table of where things begin: of the items of a shelf, or of the rows of entities.
ghost use Rattle.std.specs.Prelude.{◌≡◌, ◌+◌, ◌^◌, ◌<◌, length, slice_index};

// The k-th of `count` begins at `from` and as much further as the k-th number from `places` on says. Places and no slice of rows: all memory is lent as
// numbers.
#[derive(Clone, Copy, Debug, PartialEq, Eq)]
pub struct Table {
    pub from: usize,
    pub places: usize,
    pub count: usize,
}

impl Table {
    pub fn place(self, store: &[u64], k: usize) -> usize
        requires there { self.places + k < length store.now }
        requires fits { self.from + slice_index store.now (self.places + k) < 2 ^ 64 }
        ensures { result ≡ self.from + slice_index store.now (self.places + k) }
    {
        self.from + store[self.places + k] as usize
    }
}
