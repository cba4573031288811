//! The core and its steps.
ghost use Rattle.std.specs.Option.{option_copied};
ghost use Rattle.std.specs.Prelude.{◌≡◌, ◌↔◌, ◌<◌, [], length, Err, IfOk, OnErr};
ghost use Rattle.std.specs.FinMap as map;
ghost use Rattle.captable.specs.Table.{entry_at, holder};
ghost use Rattle.capstep.specs.History.{HasNoStray, IsLegalCore, IsOpening};
ghost use Rattle.lockmachine.specs.Locks.{lock_at};
ghost use Rattle.capstep.specs.declared.stop.Stop.TheVariants as stop_kind;
ghost use Rattle.capcore.specs.Promised.{IsPromised};

use crate::output::StepOutput;
use crate::step_reply::StepReply;
use crate::world::World;
use capbits::{ClientId, Ino, Numbered, Part, PassId};
use capspec::FsName;
use capstep::stop::Stop;
use capstep::{Event, Recorded, Reply, Row};
use captable::Entry;
use inotree::Tree;
use locktable::LockState;
use policy_view::ViewChange;
use sessiontab::{Session, Sessions};
use std::alloc::{AllocError, Global};
use std::fmt;
use std::marker::Model;
use step_acts::history::{count_row, make_room};

/// The state of a metadata server's policy, with the history that led to it.
pub struct Core {
    world: World,
    rows: Vec<Row>,
    // How many of the rows each pass has.
    counts: Numbered<u64>,
    max_rows: u32,
    // What the last step changed of what readers see, with the room of the next.
    output: StepOutput,
}

impl Model for Core {
    ghost use Rattle.capstep.specs.History.{CoreValue, IsLegalCore, core_value};
    ghost use Rattle.capstep.specs.Numbers.{AreCounted};
    ghost use Rattle.capcore.specs.Codes.{core_code};

    ghost Value = { CoreValue };

    ghost coded = { core_code };

    ghost view = { λ c. core_value c.world c.rows.items c.max_rows c.output.changes.items };

    ghost invariant = { λ c. IsLegalCore (core_value c.world c.rows.items c.max_rows c.output.changes.items) × AreCounted c.counts c.rows.items };
}

/// It shows the rows, and nothing of how they are counted.
impl fmt::Debug for Core {
    fn fmt<W: fmt::Write>(&self, f: &mut fmt::Formatter<W>) -> fmt::Result {
        f.debug_struct("Core")
            .field("world", &self.world)
            .field("rows", &self.rows)
            .field("max_rows", &self.max_rows)
            .field("output", &self.output)
            .finish()
    }
}

// Not derived: so the proof of a function that drops one has a single call there, and no step for each part.
impl Drop for Core {
    fn drop(self) {
        let Core {
            world: _world,
            rows: _rows,
            counts: _counts,
            max_rows: _max_rows,
            output: _output,
        } = self;
    }
}

impl Core {
    /// A core on this file system and tree, in which nobody is connected. Its history takes at most `max_rows` rows.
    pub fn new(alloc: Global, fs: FsName, tree: Tree, max_rows: u32) -> Result<Core, AllocError>
        requires strays { HasNoStray tree }
        ensures opening { IfOk result (λ core. IsOpening fs tree core.state) }
        ensures rows { IfOk result (λ core. core.rows ≡ []) }
        ensures max_rows { IfOk result (λ core. core.max_rows ≡ max_rows) }
        ensures changes { IfOk result (λ core. core.changes ≡ []) }
    {
        Ok(Core {
            world: World::new(alloc, fs, tree)?,
            rows: Vec::new(alloc),
            counts: Numbered::new(alloc),
            max_rows,
            output: StepOutput::new(alloc),
        })
    }

    /// Takes one event, called by a pass: makes the step, adds its row to the history and says what is answered.
    pub fn apply(&mut self, pass: PassId, event: Event) -> Result<Reply, Stop>
        // A step of the rules with its row, and all else that holds of an event that is answered.
        ensures promised { IfOk result (λ reply. IsPromised self.old pass event reply self.new) }
        // Else nothing has changed. The history is full exactly where it has as many rows as it may have.
        ensures full { (result ≡ Err stop_kind.Full) ↔ (length self.old.rows ≡ self.old.max_rows) }
        ensures err { OnErr result (self.new ≡ self.old) }
    {
        let nth = make_room(&mut self.rows, &mut self.counts, self.max_rows, pass)?;
        let step_reply = self.world.step(&event, &mut self.output)?;
        let StepReply { reply, ended } = step_reply;
        let Recorded { given, recorded } = reply;
        let Ok(()) = self.rows.push(Row {
            pass,
            nth,
            event,
            reply: recorded,
            ended,
        })
        else {
            unreachable!()
        };
        count_row(&mut self.counts, pass, nth);
        Ok(given)
    }

    /// The client's entry on the inode, where it has one.
    pub fn entry(&self, client: ClientId, ino: Ino) -> Option<Entry>
        ensures { result ≡ entry_at self.now.state.scene.table (holder client ino) }
    {
        self.world.parts.scene.table.find(client, ino)
    }

    /// The lock of an inode's part, where the inode is there.
    pub fn lock_state(&self, ino: Ino, part: Part) -> Option<LockState>
        ensures { result ≡ lock_at self.now.state.scene.locks ino.0 part }
    {
        self.world.parts.scene.locks.state(ino, part)
    }

    /// The tree of today.
    pub fn tree(&self) -> &Tree
        ensures { result.now ≡ self.now.state.scene.tree }
    {
        &self.world.parts.scene.tree
    }

    /// The sessions of today.
    pub fn sessions(&self) -> &Sessions
        ensures { result.now ≡ self.now.state.scene.sessions }
    {
        &self.world.parts.scene.sessions
    }

    /// A client's session, with its status, its caller and its grants, where it has one.
    pub fn session(&self, client: ClientId) -> Option<&Session>
        ensures { option_copied result ≡ map.get self.now.state.scene.sessions.sessions client.0 }
    {
        self.world.parts.scene.sessions.session(client)
    }

    /// The history: a row for each event that was answered, the first first.
    pub fn history(&self) -> &[Row]
        ensures rows { result.now ≡ self.now.rows }
        // It is legal, and leads to the state that the other calls show, which is sound.
        ensures legal { IsLegalCore self.now }
    {
        self.rows.as_slice()
    }

    /// What the last step changed of what readers see, the first change first: none where none was made yet. A step that is not
    /// answered changes nothing, and leaves this as it was.
    pub fn last_changes(&self) -> &[ViewChange]
        ensures { result.now ≡ self.now.changes }
    {
        self.output.changes.as_slice()
    }
}
