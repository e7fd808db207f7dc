// What a question is asked against: the entities that there are, and a request.
ghost use Rattle.std.specs.Prelude.{◌++◌};
ghost use Rattle.entities.specs.Rows.{EntitiesIn, RequestIn};
ghost use Rattle.entities.specs.Props.{EntitiesIn-prop, RequestIn-prop};

use crate::requests::Request;
use shelves::Table;
use values::Memory;

#[derive(Clone, Copy, Debug, PartialEq, Eq)]
pub struct Env {
    pub entities: Table,
    pub request: Request,
}

// An environment as it lies in a memory: the entities in the store, and the request in it or in the work memory.
#[derive(Clone, Copy)]
pub struct EnvView<'a> {
    pub memory: Memory<'a>,
    pub env: Env,
    pub ghost all: { EntitiesIn memory.store.now env.entities } by { EntitiesIn-prop memory.store.now env.entities },
    pub ghost asked: { RequestIn memory.store.now (memory.store.now ++ memory.work.now) env.entities env.request } by { RequestIn-prop memory.store.now (memory.store.now ++ memory.work.now) env.entities env.request },
}
