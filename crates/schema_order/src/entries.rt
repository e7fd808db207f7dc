// Whether the entries of types in the bytes of a schema are well-formed.
ghost use Rattle.std.specs.Prelude.{◌≡◌, drop};
ghost use Rattle.spec.specs.Basics.{all};
ghost use Rattle.spec.specs.Validate.{well_formed_entry};
ghost use Rattle.reader.specs.Ends.{Got};
ghost use Rattle.schema_order.specs.declared.lists.Listed.TheVariants.{Entries};
ghost use Rattle.schema_order.specs.Places.{holds, read_item, list_at};
ghost use Rattle.schema_order.specs.Schemas.{schema_in};

use crate::lists::{Listed, TYPE_HEIGHT, all_items, list_end, rises};
use crate::schema::{Schema, TYPES};
use reader::ends::text_end;

impl Schema<'_> {
    // An entry is a name, the types above it, its attributes, and the type of its tags.
    fn entry_fits(&self, at: usize) -> bool
        requires { Got (read_item Entries (drop at self.now.bytes.now)) }
        ensures { result ≡ holds (well_formed_entry (schema_in self.now)) (read_item Entries (drop at self.now.bytes.now)) }
    {
        let above = text_end(self.bytes, at);
        let attrs = list_end(self.bytes, above, Listed::Names);
        let tags = list_end(self.bytes, attrs, Listed::Attributes(TYPE_HEIGHT));
        let ordered = rises(self.bytes, above, Listed::Names);
        let there = self.all_types(above);
        let fits = self.record_fits(attrs, TYPE_HEIGHT);
        (ordered & there) & (fits & self.tags_fit(tags))
    }

    pub(crate) fn entries_fit(&self) -> bool
        ensures { result ≡ all (well_formed_entry (schema_in self.now)) (list_at Entries self.now.bytes.now 1) }
    {
        all_items(
            self.bytes,
            TYPES,
            Listed::Entries,
            |entry| self.entry_fits(entry),
        )
    }
}
