//! Versions: what a replica or a message holds, each kept once and named by number.
ghost use Rattle.std.specs.Prelude.{◌≡◌, ◌<◌, ◌↔◌, IsTrue, length, slice_index};
ghost use Rattle.px_replicas.specs.Keeping.{IsAlone, IsNoted};

use crate::version::Version;
use px_base::NoMemory;
use sqlite_items::Items;
use std::alloc::Global;
use std::marker::Model;

/// A version that is kept, and whether a message names it.
#[derive(Drop)]
pub(crate) struct Kept {
    pub(crate) version: Version,
    pub(crate) sent: bool,
}

/// The version of each replica and of each message. A replica or a message has the number of a version that is kept, so none is copied
/// to be sent; a version that a replica alone names makes way for the replica's next one, and every version that is kept is named.
#[derive(Drop)]
pub(crate) struct Versions {
    kept: Vec<Kept>,
    replicas: Items<usize>,
    messages: Items<usize>,
}

impl Model for Versions {
    ghost use Rattle.px_replicas.specs.Holdings.{Holdings, holdings_code};
    ghost use Rattle.px_replicas.specs.Keeping.{holdings_of, AreNamed};

    ghost Value = { Holdings };

    ghost coded = { holdings_code };

    ghost view = { λ v. holdings_of v.kept.items v.replicas v.messages };

    ghost invariant = { λ v. AreNamed v.kept.items v.replicas v.messages };
}

/// Whether no message and no other replica names the version that the replica names.
fn is_alone(kept: &Vec<Kept>, replicas: &[usize], replica: usize) -> bool
    requires there { replica < length replicas.now }
    requires kept { slice_index replicas.now replica < length kept.now.items }
    ensures { IsTrue result ↔ IsAlone kept.now.items replicas.now replica }
{
    let number = replicas[replica];
    if kept[number].sent {
        return false;
    }
    for other in 0..replicas.len() {
        if other != replica && replicas[other] == number {
            return false;
        }
    }
    true
}

/// Notes that a message names the version of this number.
fn note_sent(kept: &mut Vec<Kept>, number: usize)
    requires { number < length kept.old.items }
    ensures { IsNoted number kept.old.items kept.new.items }
{
    kept[number].sent = true;
}

impl Versions {
    ghost use Rattle.std.specs.Prelude.{◌≡◌, ◌<◌, ◌++◌, ◌∷◌, [], length, replicate, slice_get, slice_set, Some, IfOk, OnOk, OnErr};
    ghost use Rattle.px_replicas.specs.Holdings.{Sends};

    /// So many replicas that all have the version. Nothing is sent yet.
    pub(crate) fn new(alloc: Global, version: Version, count: u32) -> Result<Versions, NoMemory>
        ensures replicas { IfOk result (λ versions. versions.replicas ≡ replicate count version) }
        ensures messages { IfOk result (λ versions. versions.messages ≡ []) }
    {
        let mut kept = Vec::new(alloc);
        kept.push(Kept {
            version,
            sent: false,
        })?;
        let mut replicas = Items::new(alloc);
        for _ in 0..count {
            replicas.push(0)?;
        }
        Ok(Versions {
            kept,
            replicas,
            messages: Items::new(alloc),
        })
    }

    /// How many replicas there are.
    pub(crate) fn replicas(&self) -> usize
        ensures { result ≡ length self.now.replicas }
    {
        self.replicas.len()
    }

    /// How many messages there are.
    pub(crate) fn messages(&self) -> usize
        ensures { result ≡ length self.now.messages }
    {
        self.messages.len()
    }

    /// The version of a replica.
    pub(crate) fn replica(&self, replica: usize) -> &Version
        requires { replica < length self.now.replicas }
        ensures { slice_get self.now.replicas replica ≡ Some result.now }
    {
        &self.kept[self.replicas.as_slice()[replica]].version
    }

    /// The version of a message.
    pub(crate) fn message(&self, message: usize) -> &Version
        requires { message < length self.now.messages }
        ensures { slice_get self.now.messages message ≡ Some result.now }
    {
        &self.kept[self.messages.as_slice()[message]].version
    }

    /// The replica's version becomes the next message too.
    pub(crate) fn send(&mut self, replica: usize) -> Result<(), NoMemory>
        requires { replica < length self.old.replicas }
        ensures sent { OnOk result (Sends self.old replica self.new) }
        ensures same { OnErr result (self.new ≡ self.old) }
    {
        let number = self.replicas.as_slice()[replica];
        self.messages.push(number)?;
        note_sent(&mut self.kept, number);
        Ok(())
    }

    /// The replica has another version.
    pub(crate) fn set(&mut self, replica: usize, version: Version) -> Result<(), NoMemory>
        requires { replica < length self.old.replicas }
        ensures set { OnOk result (self.new ≡ record self.old { replicas = slice_set self.old.replicas replica version }) }
        ensures same { OnErr result (self.new ≡ self.old) }
    {
        let next = Kept {
            version,
            sent: false,
        };
        if is_alone(&self.kept, self.replicas.as_slice(), replica) {
            let number = self.replicas.as_slice()[replica];
            self.kept[number] = next;
        } else {
            let number = self.kept.len();
            self.kept.push(next)?;
            self.replicas.set(replica, number);
        }
        Ok(())
    }
}
