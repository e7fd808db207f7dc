// The schema of a store.
ghost use Rattle.store.specs.Sections.{sections, Good};
ghost use Rattle.store.specs.Changes.{SchemaComes, SchemaRoom};

use crate::layout::{HEADER, Header, header_of, reopen};
use shelves::{Extent, Splice};

// Room for a schema's row of so many numbers, in place of the old one. The answer is where the row is to be written.
pub fn room_for_schema(store: &mut [u64], row_length: usize, size: usize) -> usize
    requires good { Good store.old }
    requires comes { SchemaComes (sections store.old) row_length size }
    ensures { SchemaRoom (sections store.old) store.new row_length size result }
{
    let header = header_of(store);
    let old = header.policies - HEADER;
    let after = Header {
        policies: HEADER + row_length,
        entities: header.entities - old + row_length,
        schema_size: size,
        ..header.with(
            Extent {
                numbers: old,
                size: header.schema_size,
            },
            Extent {
                numbers: row_length,
                size,
            },
        )
    };
    let splice = Splice {
        at: HEADER,
        old,
        new: row_length,
    };
    reopen(store, after, splice, header.used);
    HEADER
}
