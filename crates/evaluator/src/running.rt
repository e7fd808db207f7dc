// What evaluating works with: what it is given, which stays, and the work memory, in which it makes values.
ghost use Rattle.std.specs.Prelude.{◌≡◌, ◌≤◌, length, take};
ghost use Rattle.entities.specs.Rows.{EntitiesIn};
ghost use Rattle.entities.specs.Props.{EntitiesIn-prop};

use entities::{Env, EnvView};
use values::Memory;

// The height is that of the highest expression that may be evaluated; it falls. That a row is good there, and that the request lies in what is made by now,
// are clauses and no fields, since they speak of a place and of the work memory too. The environment is lent: each level of an evaluation makes inputs of its
// own, and pays for their size.
#[derive(Clone, Copy)]
pub(crate) struct Inputs<'a> {
    pub store: &'a [u64],
    pub env: &'a Env,
    pub height: u64,
    pub ghost low: { height ≤ 65 },
    pub ghost all: { EntitiesIn store.now env.now.entities } by { EntitiesIn-prop store.now env.now.entities },
}

// Values are made from `top` on. Each function that takes it says that it leaves the same reference in it (`same`): so its caller knows what is made.
pub(crate) struct Work<'a> {
    pub numbers: &'a mut [u64],
    pub top: usize,
}

impl Work<'_> {
    ghost use Rattle.evaluator.specs.Running.{IsAsked};

    // What is given, and all that is made by now.
    pub fn view<'b>(&'b self, inputs: Inputs<'b>) -> EnvView<'b>
        requires room { self.now.top ≤ length self.now.numbers.now }
        requires asked { IsAsked inputs self.now }
        ensures store { result.memory.store.now ≡ inputs.entry.store.now }
        ensures work { result.memory.work.now ≡ take self.entry.now.top self.entry.now.numbers.now }
        ensures env { result.env ≡ inputs.entry.env.now }
    {
        let top = self.top;
        EnvView {
            memory: Memory {
                store: inputs.store,
                work: &self.numbers[..top],
            },
            env: *inputs.env,
        }
    }
}
