// Scopes: whether a policy is about the principal, the action or the resource that a request names.
ghost use Rattle.std.specs.Prelude.{◌≡◌, ◌^◌, ◌<◌, ◌++◌, length};
ghost use Rattle.spec.specs.Basics.{any};
ghost use Rattle.values.specs.Memory.{numbers};
ghost use Rattle.values.specs.Held.{UIDIn};
ghost use Rattle.entities.specs.Rows.{uids_at, UIDsIn};
ghost use Rattle.entities.specs.Code.{RowIn, in_row};
ghost use Rattle.policies.specs.Stored.{ScopeIn};
ghost use Rattle.policies.specs.Asked.{ScopeTells};

use crate::reading::Scope;
use entities::Subject;
use entities::places::any_name;
use values::Memory;
use values::texts::{same_texts, same_uids};

// Whether the subject is in one of n entities, whose names lie one behind the other from `first` on.
fn in_any(memory: &Memory<'_>, subject: Subject, n: usize, first: usize) -> bool
    requires name { UIDIn (numbers memory.now) subject.uid }
    requires known { RowIn (numbers memory.now) subject.row }
    requires names { UIDsIn (numbers memory.now) first n }
    ensures { result ≡ any (in_row (numbers memory.now) subject.uid subject.row) (uids_at (numbers memory.now) first n) }
{
    any_name(memory, first, n, move |p| subject.is_in(memory, p))
}

// A scope comes to a truth value whatever is asked, and makes none.
pub fn in_scope(memory: &Memory<'_>, scope: Scope, subject: Subject) -> bool
    requires name { UIDIn (numbers memory.now) subject.uid }
    requires known { RowIn (numbers memory.now) subject.row }
    requires parts { ScopeIn memory.now.store.now scope }
    ensures { ScopeTells memory.now.store.now (numbers memory.now) subject scope result }
{
    match scope {
        Scope::Any => true,
        Scope::Eq(p) => same_uids(memory, subject.uid, p),
        Scope::Mem(p) => subject.is_in(memory, p),
        Scope::Is(t) => same_texts(memory, t, subject.uid),
        Scope::IsMem(t, p) => same_texts(memory, t, subject.uid) && subject.is_in(memory, p),
        Scope::InAny(n, first) => in_any(memory, subject, n, first),
    }
}
