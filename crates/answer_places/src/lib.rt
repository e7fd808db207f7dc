// Answers, and how one is written as bytes into a lent slice.
#![tactic(auto)]

ghost use Rattle.std.specs.Prelude.{◌^◌, ◌<◌, ◌++◌, length};
ghost use Rattle.spec.specs.Bytes.{encode_answer};
ghost use Rattle.answer_places.specs.Code.{AnswerIn, answer_of};
ghost use Rattle.answers.specs.Put.{Put};
ghost use Rattle.values.specs.Memory.{numbers};

mod cases;
mod pieces;
#[cfg(test)]
mod tests;

pub use answers::{Decision, Refusal, Why};
use answers::{write_all_valid, write_done, write_not_valid, write_refusal};
use cases::write_authorized;
use pieces::HeldText;
use values::Memory;

// So many numbers from a place on, each the place of a policy's id.
// Places and no slice: an id may lie in the store or in the work memory, which are lent as two slices.
#[derive(Clone, Copy, Debug, PartialEq, Eq)]
pub struct Ids {
    pub from: usize,
    pub count: usize,
}

#[derive(Clone, Copy, Debug, PartialEq, Eq)]
pub struct Response {
    pub decision: Decision,
    pub reasons: Ids,
    pub errors: Ids,
}

#[derive(Clone, Copy, Debug, PartialEq, Eq)]
pub enum Answer {
    // why, and of bytes that are no call the place at which they cease to be one
    Refused(Refusal, u64),
    Done,
    AllValid,
    // the place of the id of the first policy that does not check, and why
    // (a place and no slice: an id may lie in the store or in the work memory, which are lent as two slices)
    NotValid(usize, Why),
    // the response, and whether the request, and all entities, fit the schema
    Authorized {
        response: Response,
        request_fits: bool,
        entities_fit: bool,
    },
}

// Writes the answer at the beginning of `out` and says how many bytes it takes, or writes nothing where there is no room.
pub fn write(memory: &Memory<'_>, answer: Answer, out: &mut [u8]) -> Option<usize>
    requires { AnswerIn (numbers memory.now) answer }
    ensures { Put out.old 0 (encode_answer (answer_of (numbers memory.now) answer)) result out.new }
{
    match answer {
        Answer::Refused(refusal, place) => write_refusal(out, refusal, place),
        Answer::Done => write_done(out),
        Answer::AllValid => write_all_valid(out),
        Answer::NotValid(id, why) => {
            let memory = *memory;
            write_not_valid(out, HeldText { memory, id }, why)
        }
        Answer::Authorized {
            response,
            request_fits,
            entities_fit,
        } => write_authorized(memory, response, request_fits, entities_fit, out),
    }
}
