// A policy by value over its row: its effect, its scopes, and where its conditions lie.
ghost use Rattle.std.specs.Prelude.{◌≡◌, ◌^◌, ◌<◌, length};
ghost use Rattle.policies.specs.Heads.{effect_at, scope_at, policy_head};
ghost use Rattle.policies.specs.Stored.{ScopeRow, PolicyIn};

#[derive(Clone, Copy, Debug, PartialEq, Eq)]
pub enum Effect {
    Permit,
    Forbid,
}

// Rows are of calls that were read, so the other number is for all that are left.
impl From<u64> for Effect {
    ghost from_gives = { λ n e. e ≡ effect_at n };

    fn from(n: u64) -> Effect {
        match n {
            0 => Effect::Permit,
            _ => Effect::Forbid,
        }
    }
}

// Whom a policy is about: places of names and of texts, and no Box: all memory is lent. `InAny`, which only an action's scope can be, has how many names there
// are, and where the first of them begins.
#[derive(Clone, Copy, Debug, PartialEq, Eq)]
pub enum Scope {
    Any,
    Eq(usize),
    Mem(usize),
    Is(usize),
    IsMem(usize, usize),
    InAny(usize, usize),
}

// `id` is the place of a text, and `conditions` that of the number of conditions, behind which they lie.
#[derive(Clone, Copy, Debug, PartialEq, Eq)]
pub struct Policy {
    pub id: usize,
    pub effect: Effect,
    pub principal: Scope,
    pub action: Scope,
    pub resource: Scope,
    pub conditions: usize,
}

// A scope begins with its form and the length of its row.
fn read_scope(store: &[u64], at: usize) -> Scope
    requires good { ScopeRow store.now at }
    ensures { result ≡ scope_at store.now at }
{
    let x = at + 2;
    match store[at] {
        0 => Scope::Any,
        1 => Scope::Eq(x),
        2 => Scope::Mem(x),
        3 => Scope::Is(x),
        4 => Scope::IsMem(x, x + 1 + store[x] as usize),
        _ => Scope::InAny(store[x] as usize, x + 1),
    }
}

// The policy whose row begins at a place of the store.
pub fn read_policy(store: &[u64], at: usize) -> Policy
    requires good { PolicyIn store.now at }
    ensures { result ≡ policy_head store.now at }
{
    let effect = at + 1 + store[at] as usize;
    let principal = effect + 1;
    let action = principal + store[principal + 1] as usize;
    let resource = action + store[action + 1] as usize;
    let conditions = resource + store[resource + 1] as usize;
    Policy {
        id: at,
        effect: Effect::from(store[effect]),
        principal: read_scope(store, principal),
        action: read_scope(store, action),
        resource: read_scope(store, resource),
        conditions,
    }
}
