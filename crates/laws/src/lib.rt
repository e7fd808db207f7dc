// The theorems about the definitions: each is the contract of a small function, proved.
#![tactic(auto)]

ghost use Rattle.spec.specs.Promises.{AllowedJustIf, ForbidOverridesPermit, AllowedOnlyIfPermitted, DenyByDefault, OrderAndDuplicatesDontMatter, OneMorePolicy, ReasonsAndErrors, OnlyPoliciesAreNamed, StoreStaysOrdered, ArithmeticIsExact, FailsOutOfBounds, TypecheckingIsSound, ValidationIsSound, SubstitutionKeepsMeaning, LubIsLeast, RefusedChangesNothing, ValuesAreOrdered, EqualByCode};
ghost use Rattle.laws.specs.Bridges.{InsertValue, InsertAttr, LikeByFuel, SameByParts};

// Allowed just if some permit holds and no forbid.
pub fn allowed_just_if()
    ensures { AllowedJustIf }
{}

// If some forbid holds, the request is denied.
pub fn forbid_overrides_permit()
    ensures { ForbidOverridesPermit }
{}

// What is allowed some permit allows.
pub fn allowed_only_if_permitted()
    ensures { AllowedOnlyIfPermitted }
{}

// If no permit holds, the request is denied.
pub fn deny_by_default()
    ensures { DenyByDefault }
{}

// Neither the order of policies matters, nor that one stands twice.
pub fn order_and_duplicates_dont_matter()
    ensures { OrderAndDuplicatesDontMatter }
{}

// A permit more never takes back what was allowed, a forbid more never allows; reasons stay if the decision does, and errors always.
pub fn one_more_policy()
    ensures { OneMorePolicy }
{}

// The determining policies are just those that hold, of the effect that decided; the erroring just those that fail; none is both.
pub fn reasons_and_errors()
    ensures { ReasonsAndErrors }
{}

// With the word `action`, or with the action in its place, an expression comes to the same.
pub fn substitution_keeps_meaning()
    ensures { SubstitutionKeepsMeaning }
{}

// The least type above two is above both, whichever comes first, and below every other that is.
pub fn lub_is_least()
    ensures { LubIsLeast }
{}

// A call that is refused changes nothing.
pub fn refused_changes_nothing()
    ensures { RefusedChangesNothing }
{}

// Of two values that are not equal just one is less.
pub fn values_are_ordered()
    ensures { ValuesAreOrdered }
{}

// Values are equal just if their rows of numbers are.
pub fn equal_by_code()
    ensures { EqualByCode }
{}

// A set takes one more element as it does by insertion into Values themselves.
pub fn insert_value()
    ensures { InsertValue }
{}

// A record takes one more attribute as it does by insertion into Attrs themselves.
pub fn insert_attr()
    ensures { InsertAttr }
{}

// A pattern matches as it does by the older definition, with fuel.
pub fn like_by_fuel()
    ensures { LikeByFuel }
{}

// Only ids of policies are told, as reasons and as errors.
pub fn only_policies_are_named()
    ensures { OnlyPoliciesAreNamed }
{}

// After any calls a store has a well-formed schema, its policies and entities are in order, and it is within its capacity.
pub fn store_stays_ordered()
    ensures { StoreStaysOrdered }
{}

// Names of entities are the same just if types and ids are.
pub fn same_by_parts()
    ensures { SameByParts }
{}

// What has a type comes to a value of that type, or fails for an entity that is not there or a number out of bounds.
pub fn typechecking_is_sound()
    ensures { TypecheckingIsSound }
{}

// A policy that is validated comes to a truth, or fails for an entity that is not there or a number out of bounds, if request and entities fit.
pub fn validation_is_sound()
    ensures { ValidationIsSound }
{}

// Sums, differences, products and negations come to the right integers, within 64 bits.
pub fn arithmetic_is_exact()
    ensures { ArithmeticIsExact }
{}

// They fail only if the right integer is out of bounds.
pub fn fails_out_of_bounds()
    ensures { FailsOutOfBounds }
{}
