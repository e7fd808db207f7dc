// The schema in the bytes of a call that sets one.
ghost use Rattle.schema_order.specs.Places.{Stands, stands_prop};

use reader::scan::CALL_START;

// Where the entries of types stand: behind the byte that says what kind of call it is.
pub(crate) const TYPES: usize = CALL_START;

// The bytes of the call, and where the entries of actions stand, behind those of types.
#[derive(Clone, Copy)]
pub(crate) struct Schema<'a> {
    pub bytes: &'a [u8],
    pub actions: usize,
    ghost stands: { Stands bytes.now actions } by { stands_prop bytes.now actions },
}
