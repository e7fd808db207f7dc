// What sets and records have in common as they are made: numbers that are written into the work memory, and room for them.
ghost use Rattle.std.specs.Prelude.{◌+◌, ◌≤◌, length};
ghost use Rattle.values.specs.Making.{Written, Opened};

// Numbers at a place.
pub(crate) fn lay(work: &mut [u64], at: usize, numbers: &[u64])
    requires { at + length numbers.now ≤ length work.old }
    ensures { Written work.old work.new at numbers.now }
{
    work[at..at + numbers.len()].copy_from_slice(numbers);
}

// Numbers at a place, from where what lies up to the top moves up.
pub(crate) fn open(work: &mut [u64], at: usize, top: usize, numbers: &[u64])
    requires fits { at ≤ top }
    requires room { top + length numbers.now ≤ length work.old }
    ensures { Opened work.old work.new at top numbers.now }
{
    work.copy_within(at..top, at + numbers.len());
    lay(work, at, numbers);
}
