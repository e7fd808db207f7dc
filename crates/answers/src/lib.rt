// Answers, written as bytes into a lent slice: whole ones here, and in pieces those that hold lists of ids.
#![tactic(auto)]

ghost use Rattle.std.specs.Prelude.{[], ◌∷◌};
ghost use Rattle.spec.specs.Calls.{refused, done, all_valid, not_valid};
ghost use Rattle.spec.specs.Bytes.{decision_number, encode_answer};
ghost use Rattle.answers.specs.Code.{refusal_of, why_of, decision_of};
ghost use Rattle.answers.specs.Put.{Put};

mod codes;
mod pieces;
#[cfg(test)]
mod tests;
mod texts;

pub use codes::{Decision, Kind, Refusal, UnknownNumber, Why};
pub use pieces::{put_byte, put_end, put_flags, put_item, put_text, put_word};
pub use texts::Text;
use texts::set_text;

// Each writes at the beginning of `out` and says how many bytes it wrote; where there is no room, it writes nothing.

// A refusal, and the place at which the call ceases to be one.
#[tactic(auto, unfolding(spec::specs::Bytes::encode_word))]
pub fn write_refusal(out: &mut [u8], refusal: Refusal, place: u64) -> Option<usize>
    ensures { Put out.old 0 (encode_answer (refused (refusal_of refusal) place)) result out.new }
{
    let (codes, room) = out.split_first_chunk_mut()?;
    *room.first_chunk_mut()? = place.to_be_bytes();
    *codes = [u8::from(Kind::Refused), u8::from(refusal)];
    Some(10)
}

// The answers of one byte: each a line over `put_byte`, and both names are the public interface.

pub fn write_done(out: &mut [u8]) -> Option<usize>
    ensures { Put out.old 0 (encode_answer done) result out.new }
{
    put_byte(out, 0, u8::from(Kind::Done))
}

pub fn write_all_valid(out: &mut [u8]) -> Option<usize>
    ensures { Put out.old 0 (encode_answer all_valid) result out.new }
{
    put_byte(out, 0, u8::from(Kind::AllValid))
}

// The id of the policy that does not check, and why.
#[tactic(auto, unfolding(spec::specs::Bytes::encode_word))]
pub fn write_not_valid<T: Text>(out: &mut [u8], id: T, why: Why) -> Option<usize>
    requires { T.is_text id }
    ensures { Put out.old 0 (encode_answer (not_valid (T.bytes id) (why_of why))) result out.new }
{
    let (kind, room) = out.split_first_mut()?;
    let (text, room) = room.split_at_mut_checked(id.len().checked_add(8)?)?;
    *room.first_mut()? = u8::from(why);
    *kind = u8::from(Kind::NotValid);
    set_text(text, id);
    Some(10 + id.len())
}

// The beginning of an answer to a request; behind it stand the reasons, the errors, and what fits.
pub fn write_decision(out: &mut [u8], decision: Decision) -> Option<usize>
    ensures { Put out.old 0 (4 ∷ (decision_number (decision_of decision) ∷ [])) result out.new }
{
    *out.first_chunk_mut()? = [u8::from(Kind::Authorized), u8::from(decision)];
    Some(2)
}
