// Whether a schema is well-formed, told by the bytes of the call that sets it: nothing is copied, and names are looked up along the bytes.
#![tactic(auto)]

mod actions;
mod entries;
mod known;
mod lists;
mod schema;
mod texts;
mod types;
mod uids;

ghost use Rattle.std.specs.Prelude.{◌≡◌, true};
ghost use Rattle.spec.specs.Validate.{well_formed};
ghost use Rattle.wire.specs.Grammar.{decode};
ghost use Rattle.schema_order.specs.Places.{is_schema, schema_of};

use crate::lists::{Listed, list_end, rises};
use crate::schema::{Schema, TYPES};

// The bytes are those of a call that sets a schema.
pub fn well_formed(bytes: &[u8]) -> bool
    requires { is_schema (decode bytes.now) ≡ true }
    ensures { result ≡ well_formed (schema_of (decode bytes.now)) }
{
    let actions = list_end(bytes, TYPES, Listed::Entries);
    let schema = Schema { bytes, actions };
    let types_rise = rises(bytes, TYPES, Listed::Entries);
    let actions_rise = rises(bytes, actions, Listed::Actions);
    let types_fit = schema.entries_fit();
    (types_rise & actions_rise) & (types_fit & schema.actions_fit())
}

#[cfg(test)]
mod tests {
    use super::*;
    use reader::grammar::CallKind;
    use reader::scan::scan;

    // Whether the bytes are read as a call that sets a schema, and the schema is well-formed.
    fn accepted(bytes: &[u8]) -> bool {
        let Ok(call) = scan(bytes) else {
            return false;
        };
        call.call == CallKind::SetSchema && well_formed(bytes)
    }

    #[test]
    fn an_empty_schema(rt: HostRuntime) {
        assert!(rt; accepted(&[0, 0, 0]));
    }

    // A type T, and an action A::"a" of a T on a T.
    fn one_type_one_action() -> [u8; 59] {
        let mut bytes = [0; 59];
        bytes[1] = 1;
        bytes[9] = 1;
        bytes[10] = b'T';
        bytes[15] = 1;
        bytes[23] = 1;
        bytes[24] = b'A';
        bytes[32] = 1;
        bytes[33] = b'a';
        bytes[34] = 1;
        bytes[42] = 1;
        bytes[43] = b'T';
        bytes[45] = 1;
        bytes[53] = 1;
        bytes[54] = b'T';
        bytes
    }

    #[test]
    fn names_are_known(rt: HostRuntime) {
        let mut bytes = one_type_one_action();
        assert!(rt; accepted(&bytes));
        // the type of an action is known too
        bytes[54] = b'A';
        assert!(rt; accepted(&bytes));
        bytes[54] = b'U';
        assert!(rt; !accepted(&bytes));
    }

    #[test]
    fn an_action_of_a_type_of_entities(rt: HostRuntime) {
        let mut bytes = one_type_one_action();
        bytes[24] = b'T';
        assert!(rt; !accepted(&bytes));
    }

    #[test]
    fn above_itself(rt: HostRuntime) {
        // an action A::"a" of nobody, with one action above it
        let mut bytes = [0; 45];
        bytes[2] = 1;
        bytes[10] = 1;
        bytes[11] = b'A';
        bytes[19] = 1;
        bytes[20] = b'a';
        assert!(rt; accepted(&bytes[..26]));
        bytes[23] = 1;
        bytes[31] = 1;
        bytes[32] = b'A';
        bytes[40] = 1;
        bytes[41] = b'a';
        assert!(rt; !accepted(&bytes));
    }
}
