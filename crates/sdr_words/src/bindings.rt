// What names hold while a script runs.
ghost use Rattle.std.specs.Prelude.{◌≡◌, [], IfOk, OnOk, OnErr};
ghost use Rattle.sdr_words.specs.Bindings.{bound, event_of, given_of, value_given, value_in};

use crate::events::event_by;
use crate::given::Given;
use crate::verb_at;
use indexmap::IndexMap;
use sdr_base::NoMemory;
use sdr_model::{Answer, Arg, Event, Reply, ScriptStep};
use std::alloc::Global;
use std::marker::Model;

/// A daemon's name.
#[derive(PartialEq, Eq, Hash, Drop)]
struct Key {
    daemon: u8,
    name: Vec<u8>,
}

impl Key {
    fn new(alloc: Global, daemon: u8, name: &[u8]) -> Result<Key, NoMemory>
        ensures daemon { IfOk result (λ key. key.daemon ≡ daemon) }
        ensures name { IfOk result (λ key. key.name.items ≡ name.now) }
    {
        let name = Vec::from_slice(alloc, name)?;
        Ok(Key { daemon, name })
    }
}

/// The numbers that names hold. Contracts see the list of bindings, in the order in which the names
/// were first bound.
#[derive(Drop)]
pub struct Bindings {
    values: IndexMap<Key, u64>,
}

impl Model for Bindings {
    ghost use Rattle.std.specs.Prelude.{List};
    ghost use Rattle.std.specs.Coded.{coded_list};
    ghost use Rattle.sdr_words.specs.Bindings.{Binding, coded_binding};
    ghost use Rattle.sdr_words.specs.BoundKeys.{bindings_in};

    ghost Value = { List Binding };

    ghost coded = { coded_list coded_binding };

    ghost view = { λ b. bindings_in b.values.entries };
}

/// The number that an answer gives to a name.
fn value_given(answer: &Answer) -> u64
    ensures { result ≡ value_given answer.now }
{
    match answer {
        Answer::Reply(Reply::At { addr: number })
        | Answer::Reply(Reply::Value { value: number })
        | Answer::Reply(Reply::Pair { second: number, .. })
        | Answer::Reply(Reply::Named { addr: number, .. })
        | Answer::Reply(Reply::Ticket { number, .. }) => *number,
        _ => 0,
    }
}

impl Bindings {
    /// No bindings. It takes no memory.
    pub fn new(alloc: Global) -> Bindings
        ensures { result ≡ [] }
    {
        Bindings {
            values: IndexMap::new(alloc),
        }
    }

    /// What a name of a daemon holds, 0 where it is not bound.
    pub fn value(&self, alloc: Global, daemon: u8, name: &[u8]) -> Result<u64, NoMemory>
        ensures { IfOk result (λ value. value ≡ value_in self.now daemon name.now) }
    {
        let key = Key::new(alloc, daemon, name)?;
        Ok(self.values.get(&key).copied().unwrap_or(0))
    }

    // What the arguments of a daemon's step give.
    fn given(&self, alloc: Global, daemon: u8, args: &[Arg]) -> Result<Given, NoMemory>
        ensures { IfOk result (λ given. given ≡ given_of self.now daemon args.now) }
    {
        let mut given = Given::new(alloc);
        let mut rest = args;
        while let Some((arg, after)) = rest.split_first() {
            given.add(alloc, self, daemon, arg)?;
            rest = after;
        }
        Ok(given)
    }

    /// The event of a step, with what its names hold.
    pub fn event(&self, alloc: Global, step: &ScriptStep) -> Result<Event, NoMemory>
        ensures { IfOk result (λ event. event ≡ event_of self.now step.now) }
    {
        let given = self.given(alloc, step.daemon, step.args.as_slice())?;
        Ok(event_by(verb_at(step.verb as usize), given))
    }

    /// Binds the name of a step, where it has one, to what its answer gives. Want of memory leaves
    /// all as before.
    pub fn bind(
        &mut self,
        alloc: Global,
        step: &ScriptStep,
        answer: &Answer,
    ) -> Result<(), NoMemory>
        ensures ok { OnOk result (self.new ≡ bound self.old step.now answer.now) }
        ensures err { OnErr result (self.new ≡ self.old) }
    {
        let name = step.name.as_slice();
        if name.is_empty() {
            return Ok(());
        }
        let key = Key::new(alloc, step.daemon, name)?;
        self.values.insert(key, value_given(answer))?;
        Ok(())
    }
}
