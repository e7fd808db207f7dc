// The calls of a file, one behind another: for each a number of eight bytes, its length, and then its bytes.
#![tactic(auto)]

ghost use Rattle.calls_file.specs.Walk.{Walked};

mod calls;
#[cfg(test)]
mod tests;

pub use calls::{Calls, CutOff};

// Goes through the whole file: how many calls there are, or which one is cut off.
pub fn count_calls(file: &[u8]) -> Result<usize, CutOff>
    ensures { Walked file.now result }
{
    let mut count = 0;
    for call in Calls::new(file) {
        call?;
        count += 1;
    }
    Ok(count)
}
