// The grammar of calls as tables: of which fields each form of each kind of tree is made.
ghost use Rattle.std.specs.Prelude.{◌≡◌, false, map, length, Some, codes};
ghost use Rattle.wire.specs.Grammar.{choices, value_tags, inner_value, value_fields, expr_tags, inner_expr, expr_fields, type_tags, inner_type, type_fields, scope_tags, scope_fields, action_scope_tags, action_scope_fields, call_fields};
ghost use Rattle.reader.specs.Code.{small_of, kind_of, items_of, fields_of, table_of, forms_of, forms_in, parts, call_of, number_of, Tells};

use Field::{List, Node, Part, Pattern, Text, Word};
use std::error::Error;
use std::fmt;

// What a byte tells apart.
#[derive(Clone, Copy)]
pub enum Small {
    Truth,
    Variable,
    Operator,
    BoolType,
    Effect,
    ConditionKind,
}

#[derive(Clone, Copy)]
pub enum Kind {
    Value,
    Expr,
    Type,
    Scope,
    ActionScope,
    Uid,
    Attrs,
    RecordType,
    Condition,
    Entity,
    EntityEntry,
    ActionEntry,
    Request,
}

// What a list is a list of.
#[derive(Clone, Copy)]
pub enum Items {
    Values,
    NamedValues,
    Exprs,
    NamedExprs,
    Types,
    NamedTypes,
    Uids,
    Texts,
    Conditions,
    EntityEntries,
    ActionEntries,
}

// `Part` takes no bytes and counts one in the size.
#[derive(Clone, Copy)]
pub enum Field {
    Part,
    Small(Small),
    Word,
    Text,
    Pattern,
    Node(Kind),
    List(Items),
}

// A form is `inner` if it has trees of its own kind in it, and so is a level of depth.
#[derive(Clone, Copy)]
pub struct Form {
    pub inner: bool,
    pub fields: &'static [Field],
}

// A kind of one form has no byte that tells of which form a tree is.
#[derive(Clone, Copy)]
pub enum Forms {
    Only(&'static [Field]),
    ByTag(&'static [Form]),
}

// The fields that stand in many forms.
const UID: Field = Node(Kind::Uid);

const ATTRS: Field = Node(Kind::Attrs);

const EXPR: Field = Node(Kind::Expr);

const TYPE: Field = Node(Kind::Type);

const VALUE: Field = Node(Kind::Value);

const SCOPE: Field = Node(Kind::Scope);

const RECORD_TYPE: Field = Node(Kind::RecordType);

const TRUTH: Field = Field::Small(Small::Truth);

macro_rules! leaf {
    ($($field:expr),*) => { Form { inner: false, fields: &[$($field),*] } };
}

macro_rules! inner {
    ($($field:expr),*) => { Form { inner: true, fields: &[$($field),*] } };
}

pub fn choices_of(small: Small) -> u8
    ensures { result ≡ length (choices (small_of small)) }
{
    match small {
        Small::Truth => 2,
        Small::Variable => 4,
        Small::Operator => 12,
        Small::BoolType => 3,
        Small::Effect => 2,
        Small::ConditionKind => 2,
    }
}

// The fields of an element of a list. No list stands in one but inside a node.
pub fn item_fields(items: Items) -> &'static [Field]
    ensures is { fields_of result.now ≡ items_of items }
    ensures paid { parts (fields_of result.now) ≡ 0 }
{
    match items {
        Items::Values => &[VALUE],
        Items::NamedValues => &[Text, VALUE],
        Items::Exprs => &[EXPR],
        Items::NamedExprs => &[Text, EXPR],
        Items::Types => &[TYPE],
        Items::NamedTypes => &[TRUTH, Text, TYPE],
        Items::Uids => &[UID],
        Items::Texts => &[Text],
        Items::Conditions => &[Node(Kind::Condition)],
        Items::EntityEntries => &[Node(Kind::EntityEntry)],
        Items::ActionEntries => &[Node(Kind::ActionEntry)],
    }
}

fn value_forms() -> &'static [Form]
    ensures { table_of result.now ≡ map (λ g. (inner_value g, value_fields g)) value_tags }
{
    &[
        leaf!(Part, TRUTH),
        leaf!(Part, Word),
        leaf!(Text),
        leaf!(Text, Text),
        inner!(Part, List(Items::Values)),
        inner!(Part, List(Items::NamedValues)),
    ]
}

fn expr_forms() -> &'static [Form]
    ensures { table_of result.now ≡ map (λ g. (inner_expr g, expr_fields g)) expr_tags }
{
    &[
        leaf!(Part, TRUTH),
        leaf!(Part, Word),
        leaf!(Text),
        leaf!(Text, Text),
        leaf!(Part, Field::Small(Small::Variable)),
        inner!(Part, EXPR, EXPR, EXPR),
        inner!(Part, EXPR, EXPR),
        inner!(Part, EXPR, EXPR),
        inner!(Part, EXPR),
        inner!(Part, EXPR),
        inner!(Part, EXPR),
        inner!(Pattern, EXPR),
        inner!(Text, EXPR),
        inner!(Part, Field::Small(Small::Operator), EXPR, EXPR),
        inner!(Text, EXPR),
        inner!(Text, EXPR),
        inner!(Part, List(Items::Exprs)),
        inner!(Part, List(Items::NamedExprs)),
    ]
}

fn type_forms() -> &'static [Form]
    ensures { table_of result.now ≡ map (λ g. (inner_type g, type_fields g)) type_tags }
{
    &[
        leaf!(Part, Field::Small(Small::BoolType)),
        leaf!(Part),
        leaf!(Part),
        leaf!(Text),
        inner!(Part, TYPE),
        inner!(Part, List(Items::NamedTypes)),
    ]
}

fn scope_forms() -> &'static [Form]
    ensures { table_of result.now ≡ map (λ g. (false, scope_fields g)) scope_tags }
{
    &[
        leaf!(Part),
        leaf!(UID),
        leaf!(UID),
        leaf!(Text),
        leaf!(Text, UID),
    ]
}

fn action_scope_forms() -> &'static [Form]
    ensures { table_of result.now ≡ map (λ g. (false, action_scope_fields g)) action_scope_tags }
{
    &[
        leaf!(Part),
        leaf!(UID),
        leaf!(UID),
        leaf!(Text),
        leaf!(Text, UID),
        leaf!(Part, List(Items::Uids)),
    ]
}

pub fn forms_of(kind: Kind) -> Forms
    ensures { forms_of result ≡ forms_in (kind_of kind) }
{
    match kind {
        Kind::Value => Forms::ByTag(value_forms()),
        Kind::Expr => Forms::ByTag(expr_forms()),
        Kind::Type => Forms::ByTag(type_forms()),
        Kind::Scope => Forms::ByTag(scope_forms()),
        Kind::ActionScope => Forms::ByTag(action_scope_forms()),
        Kind::Uid => Forms::Only(&[Text, Text]),
        Kind::Attrs => Forms::Only(&[List(Items::NamedValues)]),
        Kind::RecordType => Forms::Only(&[List(Items::NamedTypes)]),
        Kind::Condition => Forms::Only(&[Part, Field::Small(Small::ConditionKind), EXPR]),
        Kind::Entity => Forms::Only(&[UID, ATTRS, List(Items::Uids), ATTRS]),
        Kind::EntityEntry => Forms::Only(&[
            Text,
            List(Items::Texts),
            RECORD_TYPE,
            List(Items::Types),
        ]),
        Kind::ActionEntry => Forms::Only(&[
            UID,
            List(Items::Texts),
            List(Items::Texts),
            List(Items::Uids),
            RECORD_TYPE,
        ]),
        Kind::Request => Forms::Only(&[UID, UID, UID, ATTRS]),
    }
}

// What a call does, in the order of the bytes that stand for it.
#[derive(Clone, Copy, Debug, PartialEq, Eq)]
pub enum CallKind {
    SetSchema,
    PutPolicy,
    RemovePolicy,
    PutEntity,
    RemoveEntity,
    ValidatePolicies,
    Authorize,
}

// The byte stands for no call.
#[derive(Clone, Copy, Debug, PartialEq, Eq)]
pub struct NoSuchCall;

impl fmt::Display for NoSuchCall {
    ghost output = { λ _. Some (codes "the byte stands for no call") };

    fn fmt<W: fmt::Write>(&self, f: &mut fmt::Formatter<W>) -> fmt::Result {
        f.write_str("the byte stands for no call")
    }
}

impl Error for NoSuchCall {}

impl TryFrom<u8> for CallKind {
    type Error = NoSuchCall;

    ghost try_from_gives = { Tells };

    fn try_from(number: u8) -> Result<CallKind, NoSuchCall> {
        match number {
            0 => Ok(CallKind::SetSchema),
            1 => Ok(CallKind::PutPolicy),
            2 => Ok(CallKind::RemovePolicy),
            3 => Ok(CallKind::PutEntity),
            4 => Ok(CallKind::RemoveEntity),
            5 => Ok(CallKind::ValidatePolicies),
            6 => Ok(CallKind::Authorize),
            _ => Err(NoSuchCall),
        }
    }
}

impl From<CallKind> for u8 {
    ghost from_gives = { λ call number. number ≡ number_of call };

    fn from(call: CallKind) -> u8 {
        call as u8
    }
}

impl CallKind {
    // What stands behind the call's first byte.
    pub fn fields(self) -> &'static [Field]
        ensures { fields_of result.now ≡ call_fields (call_of self) }
    {
        match self {
            CallKind::SetSchema => &[List(Items::EntityEntries), List(Items::ActionEntries)],
            CallKind::PutPolicy => &[
                Text,
                Field::Small(Small::Effect),
                SCOPE,
                Node(Kind::ActionScope),
                SCOPE,
                List(Items::Conditions),
            ],
            CallKind::RemovePolicy => &[Text],
            CallKind::PutEntity => &[Node(Kind::Entity)],
            CallKind::RemoveEntity => &[UID],
            CallKind::ValidatePolicies => &[],
            CallKind::Authorize => &[Node(Kind::Request)],
        }
    }
}
