// Expressions as they stand in rows: what stands at a place, with the places of its parts.
#![tactic(auto)]

ghost use Rattle.std.specs.Prelude.{◌≡◌, ◌+◌, ◌^◌, ◌<◌, ◌≤◌, length};
ghost use Rattle.exprs.specs.Heads.{var_at, op_at, head_at, Inside};
ghost use Rattle.exprs.specs.Stored.{ExprRowsMean};

use values::nodes::int;

#[derive(Clone, Copy, Debug, PartialEq, Eq)]
pub enum Var {
    Principal,
    Action,
    Resource,
    Context,
}

#[derive(Clone, Copy, Debug, PartialEq, Eq)]
pub enum BinaryOp {
    Eq,
    Mem,
    HasTag,
    GetTag,
    Less,
    LessEq,
    Add,
    Sub,
    Mul,
    Contains,
    ContainsAll,
    ContainsAny,
}

// The numbers are places and no Box: all memory is lent. They are those of texts, of names of entities, and of the parts. Set and Record have how many parts
// they have, and where the first of them begins: handed on as two numbers to loops that need both.
#[derive(Clone, Copy, Debug, PartialEq, Eq)]
pub enum Expr {
    Bool(bool),
    Int(i64),
    String(usize),
    Entity(usize),
    Var(Var),
    If(usize, usize, usize),
    And(usize, usize),
    Or(usize, usize),
    Not(usize),
    Neg(usize),
    IsEmpty(usize),
    Like(usize, usize),
    Is(usize, usize),
    Binary(BinaryOp, usize, usize),
    GetAttr(usize, usize),
    HasAttr(usize, usize),
    Set(usize, usize),
    Record(usize, usize),
}

// Rows are of calls that were read, so no number stands for nothing: the last is for all that are left.
impl From<u64> for Var {
    ghost from_gives = { λ n v. v ≡ var_at n };

    fn from(n: u64) -> Self {
        match n {
            0 => Var::Principal,
            1 => Var::Action,
            2 => Var::Resource,
            _ => Var::Context,
        }
    }
}

impl From<u64> for BinaryOp {
    ghost from_gives = { λ n o. o ≡ op_at n };

    fn from(n: u64) -> Self {
        match n {
            0 => BinaryOp::Eq,
            1 => BinaryOp::Mem,
            2 => BinaryOp::HasTag,
            3 => BinaryOp::GetTag,
            4 => BinaryOp::Less,
            5 => BinaryOp::LessEq,
            6 => BinaryOp::Add,
            7 => BinaryOp::Sub,
            8 => BinaryOp::Mul,
            9 => BinaryOp::Contains,
            10 => BinaryOp::ContainsAll,
            _ => BinaryOp::ContainsAny,
        }
    }
}

// What stands at a place of the store: each expression begins with its form and the length of its row.
pub fn read(store: &[u64], at: usize) -> Expr
    requires fits { at + 3 ≤ length store.now }
    requires inside { Inside store.now (head_at store.now at) }
    ensures { result ≡ head_at store.now at }
{
    let x = at + 2;
    match store[at] {
        0 => Expr::Bool(store[x] == 1),
        1 => Expr::Int(int(store[x])),
        2 => Expr::String(x),
        3 => Expr::Entity(x),
        4 => Expr::Var(Var::from(store[x])),
        5 => {
            let y = x + store[x + 1] as usize;
            Expr::If(x, y, y + store[y + 1] as usize)
        }
        6 => Expr::And(x, x + store[x + 1] as usize),
        7 => Expr::Or(x, x + store[x + 1] as usize),
        8 => Expr::Not(x),
        9 => Expr::Neg(x),
        10 => Expr::IsEmpty(x),
        11 => Expr::Like(x, x + 1 + store[x] as usize),
        12 => Expr::Is(x, x + 1 + store[x] as usize),
        13 => Expr::Binary(
            BinaryOp::from(store[x]),
            x + 1,
            x + 1 + store[x + 1 + 1] as usize,
        ),
        14 => Expr::GetAttr(x, x + 1 + store[x] as usize),
        15 => Expr::HasAttr(x, x + 1 + store[x] as usize),
        16 => Expr::Set(store[x] as usize, x + 1),
        _ => Expr::Record(store[x] as usize, x + 1),
    }
}

// An expression whose row lies anywhere in a memory is good there, and is that expression.
pub fn rows_mean()
    ensures { ExprRowsMean }
{}
