// A request at run time: where its names and its context lie, and where the rows of its entities do.
ghost use Rattle.std.specs.Prelude.{◌≡◌, ◌^◌, ◌<◌, ◌++◌, length};
ghost use Rattle.spec.specs.Values.{find_entity};
ghost use Rattle.values.specs.Memory.{numbers};
ghost use Rattle.values.specs.Held.{uid_at, UIDIn};
ghost use Rattle.entities.specs.Rows.{EntitiesIn, FoundRow, SubjectIn, request_at, RequestIn, request_row_at, RequestRowIn};
ghost use Rattle.entities.specs.View.{known};

use crate::env::EnvView;
use crate::lookup::find;
use crate::places::behind_uid;
use shelves::Table;
use values::Memory;

// The principal, action or resource of a request: its name, and the row of its entity, if there is one. It is looked up once for a request. That both lie in a
// memory is a clause where it is asked and no fact of it: as the work memory grows, it is asked in one memory after the other.
#[derive(Clone, Copy, Debug, PartialEq, Eq)]
pub struct Subject {
    pub uid: usize,
    pub row: Option<usize>,
}

#[derive(Clone, Copy, Debug, PartialEq, Eq)]
pub struct Request {
    pub principal: Subject,
    pub action: Subject,
    pub resource: Subject,
    pub context: usize,
}

// The request whose row lies at a place, with its three entities looked up.
pub fn read_request(memory: &Memory<'_>, entities: Table, at: usize) -> Request
    requires all { EntitiesIn memory.now.store.now entities }
    requires row { RequestRowIn (numbers memory.now) at }
    ensures holds { RequestIn memory.now.store.now (numbers memory.now) entities result }
    ensures is { request_at (numbers memory.now) result ≡ request_row_at (numbers memory.now) at }
{
    let action = behind_uid(memory, at);
    let resource = behind_uid(memory, action);
    let context = behind_uid(memory, resource);
    Request {
        principal: Subject {
            uid: at,
            row: find(memory, entities, at),
        },
        action: Subject {
            uid: action,
            row: find(memory, entities, action),
        },
        resource: Subject {
            uid: resource,
            row: find(memory, entities, resource),
        },
        context,
    }
}

impl EnvView<'_> {
    // The same as `find`; those of the request are not searched again.
    pub fn look_up(&self, uid: usize) -> Option<usize>
        requires { UIDIn (numbers self.now.memory) uid }
        ensures { FoundRow self.now.memory.store.now result (find_entity (uid_at (numbers self.now.memory) uid) (known self.now)) }
    {
        let Request {
            principal,
            action,
            resource,
            ..
        } = self.env.request;
        match [principal, action, resource]
            .iter()
            .find(|subject| subject.uid == uid)
        {
            Some(subject) => subject.row,
            None => find(&self.memory, self.env.entities, uid),
        }
    }
}
