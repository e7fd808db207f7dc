// Numbers at places: those of the store come first, those of the work memory behind them.
ghost use Rattle.std.specs.Prelude.{◌≡◌, ◌^◌, ◌<◌, ◌++◌, length, slice_index};

// What is looked at of the memory that is lent: the store, and of the work memory what is made by now.
#[derive(Clone, Copy)]
pub struct Memory<'a> {
    pub store: &'a [u64],
    pub work: &'a [u64],
    ghost small: { length (store.now ++ work.now) < 2 ^ 64 },
}

impl<'a> Memory<'a> {
    pub fn word(&self, at: usize) -> u64
        requires { at < length (self.now.store.now ++ self.now.work.now) }
        ensures { result ≡ slice_index (self.now.store.now ++ self.now.work.now) at }
    {
        let Memory { store, work } = *self;
        if at < store.len() {
            store[at]
        } else {
            work[at - store.len()]
        }
    }
}
