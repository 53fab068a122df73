//! Replicas that run over events.
use crate::first::first_value;
use crate::laws::{held_by_cases, join_of_a_set};
use crate::merge::Merge;
use crate::shown::Shown;
use crate::unions::{union, with_last};
use crate::version::Version;
use crate::versions::Versions;
use px_base::NoMemory;
use px_descent::Checked;
use px_machine::{Code, FlatValue, RunEnd};
use px_schedule::Event;
use px_terms::limits::EVENTS;
use sqlite_items::{Items, at};
use std::alloc::Global;
use std::marker::Model;

/// The replicas of a declaration, the messages that they sent, and how many updates and events there were. Contracts see it as these, with
/// the version of each replica and each message.
#[derive(Drop)]
pub struct World<'a> {
    checked: &'a Checked,
    declaration: u32,
    merge: Merge<'a>,
    versions: Versions,
    updates: u32,
    events: u32,
}

impl<'a> Model for World<'a> {
    ghost use Rattle.px_replicas.specs.Worlds.{Standing, standing_code};
    ghost use Rattle.px_replicas.specs.Serving.{IsKept, standing_of};

    ghost Value = { Standing };

    ghost coded = { standing_code };

    ghost view = { λ w. standing_of w.checked.now w.declaration w.versions w.updates w.events };

    ghost invariant = { λ w. IsKept (standing_of w.checked.now w.declaration w.versions w.updates w.events) w.merge };
}

impl<'a> World<'a> {
    ghost use Rattle.std.specs.Prelude.{◌≡◌, ◌<◌, ◌≤◌, ◌↔◌, ◌++◌, ◌∷◌, [], ℕ, List, length, slice_get, Some, IfOk, IsTrue};
    ghost use Rattle.std.specs.Option.{IsSomeAnd};
    ghost use Rattle.px_base.specs.declared.limits.TheConstants.{EVENTS, REPLICAS};
    ghost use Rattle.px_terms.specs.declared.program.ReplicaDef.{ReplicaDef as AnyReplica};
    ghost use Rattle.px_terms.specs.declared.program.Program.{Program as AnyProgram};
    ghost use Rattle.px_machine.specs.Standing.{Stands};
    ghost use Rattle.px_schedule.specs.declared.schedule.Event.{Event as AnyEvent};
    ghost use Rattle.px_schedule.specs.declared.schedule.Event.TheVariants as event;
    ghost use Rattle.px_replicas.specs.Events.{HasState, MayHappen, NamesSome};
    ghost use Rattle.px_replicas.specs.Joins.{MergeJoins};
    ghost use Rattle.px_replicas.specs.Worlds.{Runs, IsNew, Fits, Takes, GoesOn, StandsFor};
    ghost use Rattle.px_replicas.specs.Serving.{IsFounded, IsOfState, Updates, Delivers, IsShown};

    /// So many replicas of the declaration: each has its first value, and holds no update. There are no messages yet.
    pub fn new(
        alloc: Global,
        checked: &'a Checked,
        code: &'a Code,
        declaration: u32,
        count: u32,
    ) -> Result<World<'a>, NoMemory>
        requires stands { Stands code.now checked.now }
        requires declared { declaration < length checked.now.replicas }
        requires some { 1 ≤ count }
        requires few { count ≤ REPLICAS }
        ensures is_new { IfOk result (IsNew checked.now declaration count) }
        ensures stands { IfOk result (λ world. (R : AnyReplica) → slice_get checked.now.replicas declaration ≡ Some R → (events : List AnyEvent) → StandsFor checked.now R count events 0 world) }
    {
        let Some(replica) = at(checked.program().replicas.as_slice(), declaration as usize) else {
            unreachable!()
        };
        let first = Version {
            numbers: Items::new(alloc),
            state: first_value(alloc, &replica.from)?,
        };
        Ok(World {
            checked,
            declaration,
            merge: Merge::new(alloc, code, replica)?,
            versions: Versions::new(alloc, first, count)?,
            updates: 0,
            events: 0,
        })
    }

    /// Whether the event may be taken: its replica and its message are there, and fewer than `EVENTS` events were taken. It takes
    /// no memory.
    pub fn fits(&self, event: &Event) -> bool
        ensures { IsTrue result ↔ Fits self.now event.now }
    {
        self.events < EVENTS && self.names_some(event)
    }

    /// Whether the event's replica and its message are there.
    fn names_some(&self, event: &Event) -> bool
        ensures { IsTrue result ↔ NamesSome (length self.now.replicas) (length self.now.messages) event.now }
    {
        match event {
            Event::Update { replica, .. } | Event::Send { replica } | Event::Show { replica } =>
                (*replica as usize) < self.versions.replicas(),
            Event::Deliver { message, replica } => {
                (*message as usize) < self.versions.messages()
                    && (*replica as usize) < self.versions.replicas()
            }
        }
    }

    /// The state of the replica. It takes no memory.
    pub fn state(&self, replica: u32) -> &FlatValue
        requires { replica < length self.now.replicas }
        ensures { IsSomeAnd (slice_get self.now.replicas replica) (λ version. version.state ≡ result.now) }
    {
        &self.versions.replica(replica as usize).state
    }

    /// The world's program is checked, its declaration is typed there, and its versions are sound.
    fn founded(&self)
        ensures { IsFounded self.now }
    {
        let _program = self.checked.program();
    }

    /// The replica's version once the value is contributed there: its state merged with the value, and the next update's number behind
    /// those that it holds.
    fn updated(
        &self,
        alloc: Global,
        replica: u32,
        value: &FlatValue,
        budget: u64,
    ) -> Result<Version, RunEnd>
        requires fits { Fits self.now (event.Update replica value.now) }
        requires value { IsOfState self.now value.now }
        ensures { (R : AnyReplica) → Runs self.now self.now.program R → Updates self.now R replica value.now budget result }
    {
        let before = self.versions.replica(replica as usize);
        let numbers = with_last(alloc, before.numbers.as_slice(), self.updates)?;
        let state = self.merge.run(alloc, &before.state, value, budget)?;
        Ok(Version { numbers, state })
    }

    /// The value is contributed at the replica.
    fn update(
        &mut self,
        alloc: Global,
        replica: u32,
        value: &FlatValue,
        budget: u64,
    ) -> Result<Option<Shown>, RunEnd>
        requires fits { Fits self.old (event.Update replica value.now) }
        requires value { IsOfState self.old value.now }
        ensures { (P : AnyProgram) (R : AnyReplica) → Runs self.old P R → Takes self.old P R (event.Update replica value.now) budget self.new result }
    {
        let version = self.updated(alloc, replica, value, budget)?;
        self.versions.set(replica as usize, version)?;
        self.updates += 1;
        self.events += 1;
        Ok(None)
    }

    /// The replica's version once the message reaches it: their states merged, and the numbers of both.
    fn delivered(
        &self,
        alloc: Global,
        message: u32,
        replica: u32,
        budget: u64,
    ) -> Result<Version, RunEnd>
        requires fits { Fits self.now (event.Deliver message replica) }
        ensures { (R : AnyReplica) → Runs self.now self.now.program R → Delivers self.now R message replica budget result }
    {
        let before = self.versions.replica(replica as usize);
        let sent = self.versions.message(message as usize);
        let numbers = union(alloc, before.numbers.as_slice(), sent.numbers.as_slice())?;
        let state = self.merge.run(alloc, &before.state, &sent.state, budget)?;
        Ok(Version { numbers, state })
    }

    /// The message reaches the replica.
    fn deliver(
        &mut self,
        alloc: Global,
        message: u32,
        replica: u32,
        budget: u64,
    ) -> Result<Option<Shown>, RunEnd>
        requires fits { Fits self.old (event.Deliver message replica) }
        ensures { (P : AnyProgram) (R : AnyReplica) → Runs self.old P R → Takes self.old P R (event.Deliver message replica) budget self.new result }
    {
        let version = self.delivered(alloc, message, replica, budget)?;
        self.versions.set(replica as usize, version)?;
        self.events += 1;
        Ok(None)
    }

    /// The next message has the replica's version.
    fn send(&mut self, replica: u32) -> Result<Option<Shown>, RunEnd>
        requires fits { Fits self.old (event.Send replica) }
        ensures { (P : AnyProgram) (R : AnyReplica) (budget : ℕ) → Runs self.old P R → Takes self.old P R (event.Send replica) budget self.new result }
    {
        self.versions.send(replica as usize)?;
        self.events += 1;
        Ok(None)
    }

    /// The replica, what it holds, and its state.
    fn shown(&self, alloc: Global, replica: u32) -> Result<Shown, NoMemory>
        requires fits { Fits self.now (event.Show replica) }
        ensures { IfOk result (IsShown self.now replica) }
    {
        let version = self.versions.replica(replica as usize);
        Ok(Shown {
            replica,
            numbers: Items::from_slice(alloc, version.numbers.as_slice())?,
            value: version.state.copy(alloc)?,
        })
    }

    /// The replica is shown.
    fn show(&mut self, alloc: Global, replica: u32) -> Result<Option<Shown>, RunEnd>
        requires fits { Fits self.old (event.Show replica) }
        ensures { (P : AnyProgram) (R : AnyReplica) (budget : ℕ) → Runs self.old P R → Takes self.old P R (event.Show replica) budget self.new result }
    {
        let shown = self.shown(alloc, replica)?;
        self.events += 1;
        Ok(Some(shown))
    }

    /// Takes an event that fits. An update contributes its value, and has the next number; a sending keeps what the replica holds
    /// as the next message; a delivery adds what the message holds, also where it came before; a show answers what the replica
    /// holds. Spent exactly where the merge of an update or of a delivery takes more calls than the budget. After a refusal
    /// nothing is changed. A world that stands for a schedule after some of its events stands for it after one more.
    pub fn event(
        &mut self,
        alloc: Global,
        event: &Event,
        budget: u64,
    ) -> Result<Option<Shown>, RunEnd>
        requires fits { Fits self.old event.now }
        requires value { (R : AnyReplica) → Runs self.old self.old.program R → HasState self.old.program R event.now }
        ensures takes { (P : AnyProgram) (R : AnyReplica) → Runs self.old P R → Takes self.old P R event.now budget self.new result }
        ensures stands { (P : AnyProgram) (R : AnyReplica) (count : ℕ) (events : List AnyEvent) (i : ℕ) → StandsFor P R count events i self.old → MergeJoins P R → MayHappen P R count events → slice_get events i ≡ Some event.now → GoesOn P R count events i budget self.new result }
    {
        held_by_cases();
        join_of_a_set();
        self.founded();
        match event {
            Event::Update { replica, value } => self.update(alloc, *replica, value, budget),
            Event::Send { replica } => self.send(*replica),
            Event::Deliver { message, replica } => self.deliver(alloc, *message, *replica, budget),
            Event::Show { replica } => self.show(alloc, *replica),
        }
    }
}
