// The engine: from the bytes of a call to the bytes of its answer.
#![tactic(auto)]

ghost use Rattle.std.specs.Prelude.{◌≡◌};
ghost use Rattle.spec.specs.Calls.{refused as any_refused};
ghost use Rattle.spec.specs.Bytes.{encode_answer};
ghost use Rattle.wire.specs.Grammar.{decode};
ghost use Rattle.answers.specs.Code.{refusal_of};
ghost use Rattle.answers.specs.Put.{Put};
ghost use Rattle.engine.specs.Stage.{answer_now};

use answers::{Refusal, write_refusal};
use reader::grammar::CallKind;
use reader::scan::scan;
use schema_order::well_formed;

// Writes the answer at the beginning of `answer` and says how many bytes it takes, or writes nothing where there is no room.
pub fn call(bytes: &[u8], answer: &mut [u8]) -> Option<usize>
    ensures { Put answer.old 0 (encode_answer (answer_now (decode bytes.now))) result answer.new }
{
    let (refusal, place) = refused(bytes);
    write_refusal(answer, refusal, place)
}

// Why the call is not done, and of bytes that are no call the place at which they cease to be one.
// The bytes of an answer hold a place for each refusal, and 0 where it tells nothing.
fn refused(bytes: &[u8]) -> (Refusal, u64)
    ensures { answer_now (decode bytes.now) ≡ any_refused (refusal_of result.0) result.1 }
{
    match scan(bytes) {
        Err(place) => (Refusal::NotACall, place as u64),
        Ok(scanned) if scanned.call == CallKind::SetSchema && !well_formed(bytes) => {
            (Refusal::SchemaNotWellFormed, 0)
        }
        Ok(_) => (Refusal::Inadmissible, 0),
    }
}
