// Whether types in the bytes of a schema are well-formed: truths may be either, what is named is known, and attributes are in order.
ghost use Rattle.std.specs.Prelude.{◌≡◌, ◌+◌, ◌-◌, ◌&&◌, length, drop, nat_le};
ghost use Rattle.spec.specs.Basics.{all};
ghost use Rattle.spec.specs.Types.{record_of};
ghost use Rattle.spec.specs.Validate.{well_formed_type};
ghost use Rattle.wire.specs.Read.{read_list};
ghost use Rattle.wire.specs.Grammar.{type, read_node, to_types};
ghost use Rattle.reader.specs.Ends.{Got};
ghost use Rattle.schema_order.specs.declared.lists.Listed.TheVariants.{Attributes};
ghost use Rattle.schema_order.specs.Places.{holds, read_item, read_many, type_at, types_at, list_at};
ghost use Rattle.schema_order.specs.Schemas.{schema_in};

use crate::lists::{Listed, all_items, rises};
use crate::schema::Schema;
use reader::ends::{node_end, text_end};
use reader::grammar::Kind;
use reader::scan::PART_HEIGHT;
use reader::value_kind::ValueKind;

impl Schema<'_> {
    #[cycle(attribute_fits_record_fits_type_fits)]
    pub(crate) fn type_fits(&self, at: usize, height: usize) -> bool
        requires { Got (read_node height type (drop at self.now.bytes.now)) }
        ensures { result ≡ well_formed_type (type_at height self.now.bytes.now at) (schema_in self.now) }
    {
        let Ok(kind) = ValueKind::try_from(self.bytes[at]) else {
            unreachable()
        };
        match kind {
            ValueKind::Bool => self.bytes[at + 1] == 0,
            ValueKind::Int | ValueKind::String => true,
            ValueKind::Entity => self.type_known(at + 1),
            ValueKind::Set => self.type_fits(at + 1, height - 1),
            ValueKind::Record => self.record_fits(at + 1, height - 1),
        }
    }

    // The record of the attributes in a list.
    #[cycle(attribute_fits_record_fits_type_fits)]
    pub(crate) fn record_fits(&self, at: usize, height: usize) -> bool
        requires { Got (read_many (Attributes height) (drop at self.now.bytes.now)) }
        ensures { result ≡ well_formed_type (record_of (to_types (list_at (Attributes height) self.now.bytes.now at))) (schema_in self.now) }
    {
        let listed = Listed::Attributes(height);
        let ordered = rises(self.bytes, at, listed);
        let fits = |item: usize| -> bool
            requires { Got (read_item (Attributes height) (drop item self.now.bytes.now)) }
            ensures { result ≡ holds (λ f. well_formed_type f.1.1 (schema_in self.entry.now)) (read_item (Attributes height) (drop item self.entry.now.bytes.now)) }
        { self.attribute_fits(item, height) };
        ordered & all_items(self.bytes, at, listed, fits)
    }

    // The type of an attribute; a byte before its name says whether it is required.
    #[cycle(attribute_fits_record_fits_type_fits)]
    fn attribute_fits(&self, at: usize, height: usize) -> bool
        requires { Got (read_item (Attributes height) (drop at self.now.bytes.now)) }
        ensures { result ≡ holds (λ f. well_formed_type f.1.1 (schema_in self.now)) (read_item (Attributes height) (drop at self.now.bytes.now)) }
    {
        self.type_fits(text_end(self.bytes, at + 1), height)
    }

    // The type of tags, if there is one: not more than one.
    pub(crate) fn tags_fit(&self, at: usize) -> bool
        requires { Got (read_list (read_node 65 type) 0 (drop at self.now.bytes.now)) }
        ensures { result ≡ (nat_le (length (types_at self.now.bytes.now at)) 1 && all (λ t. well_formed_type t (schema_in self.now)) (types_at self.now.bytes.now at)) }
    {
        if self.bytes[at] != 1 {
            return true;
        }
        if self.bytes[node_end(self.bytes, at + 1, Kind::Type, PART_HEIGHT)] == 1 {
            return false;
        }
        self.type_fits(at + 1, PART_HEIGHT)
    }
}
