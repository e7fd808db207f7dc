// An iterator over the calls of a file.
ghost use Rattle.std.specs.Prelude.{◌≡◌, ◌-◌, ◌++◌, length, Some, codes, decimal};
ghost use Rattle.std.specs.Iterator.{at_most};
ghost use Rattle.calls_file.specs.Frames.{Steps};

use std::error::Error;
use std::fmt;
use words::first_text;

// The file, and the place in it at which the next call stands: any place, and behind the file there is none.
#[derive(Clone, Copy, Debug)]
pub struct Calls<'a> {
    pub file: &'a [u8],
    pub at: usize,
}

// The place of a call inside which the file ends.
#[derive(Clone, Copy, Debug, PartialEq, Eq)]
pub struct CutOff {
    pub at: usize,
}

impl<'a> Calls<'a> {
    pub fn new(file: &'a [u8]) -> Calls<'a>
        ensures file { result.file.now ≡ file.entry.now }
        ensures beginning { result.at ≡ 0 }
    {
        Calls { file, at: 0 }
    }
}

impl<'a> Iterator for Calls<'a> {
    type Item = Result<&'a [u8], CutOff>;

    ghost next_gives = { λ s r t. Steps s.file.now s.at r t.file.now t.at };

    ghost remaining = { λ s. at_most (length s.file.now - s.at) };

    fn next(&mut self) -> Option<Result<&'a [u8], CutOff>> {
        let at = self.at;
        let rest = self.file.get(at..)?;
        if rest.is_empty() {
            return None;
        }
        let Some((call, _)) = first_text(rest) else {
            self.at = self.file.len();
            return Some(Err(CutOff { at }));
        };
        self.at = at + 8 + call.len();
        Some(Ok(call))
    }
}

impl fmt::Display for CutOff {
    ghost output = { λ cut. Some (codes "ends inside the call at byte " ++ decimal cut.at) };

    fn fmt<W: fmt::Write>(&self, f: &mut fmt::Formatter<W>) -> fmt::Result {
        write!(f, "ends inside the call at byte {}", self.at)
    }
}

impl Error for CutOff {}
