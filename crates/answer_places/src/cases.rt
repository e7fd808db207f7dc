// The answer to a request: it is written at the beginning of `out`, or nothing is written where there is no room.
ghost use Rattle.spec.specs.Calls.{authorized};
ghost use Rattle.spec.specs.Bytes.{encode_answer};
ghost use Rattle.values.specs.Memory.{numbers};
ghost use Rattle.answers.specs.Put.{Put};
ghost use Rattle.answer_places.specs.Code.{response_of, ResponseIn};

use crate::Response;
use crate::pieces::{room_behind, set_ids};
use answers::{put_flags, write_decision};
use values::Memory;

pub(crate) fn write_authorized(
    memory: &Memory<'_>,
    response: Response,
    request_fits: bool,
    entities_fit: bool,
    out: &mut [u8],
) -> Option<usize>
    requires { ResponseIn (numbers memory.now) response }
    ensures { Put out.old 0 (encode_answer (authorized (response_of (numbers memory.now) response) request_fits entities_fit)) result out.new }
{
    let (reasons, errors) = (response.reasons, response.errors);
    let behind_reasons = room_behind(memory, reasons, out.len())?;
    let behind_errors = room_behind(memory, errors, behind_reasons)?;
    // beside the lists: the answer's number, the decision, and what fits
    behind_errors.checked_sub(4)?;
    let begun = write_decision(out, response.decision)?;
    let middle = set_ids(memory, reasons, out, begun);
    let end = set_ids(memory, errors, out, middle);
    put_flags(out, end, request_fits, entities_fit)
}
