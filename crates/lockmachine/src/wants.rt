//! What clients want of an inode, so far as it counts.
ghost use Rattle.std.specs.Prelude.{◌≡◌, Some, IfSome, List, [], ◌∷◌};
ghost use Rattle.std.specs.Option.{option_copied};
ghost use Rattle.std.specs.FinMap as map;
ghost use Rattle.captable.specs.Table.{holder};
ghost use Rattle.lockmachine.specs.Policy as verdicts;
ghost use Rattle.lockmachine.specs.Policy.{ArePermittedOn};
ghost use Rattle.lockmachine.specs.Wants as words;

use crate::policy::Policy;
use crate::want::wanted_while;
use capbits::{Cap, CapSet, ClientId, Ino};
use capspec::FsName;
use captable::{CapTable, EntryRow};
use inotree::{Names, Node, Tree};
use sessiontab::{Session, Sessions};

/// What the clients with an entry on an inode effectively want of it.
#[derive(Clone, Copy, Debug, PartialEq, Eq)]
pub struct Wants {
    /// What somebody wants.
    pub wanted: CapSet,
    /// The one client that wants more than the pin, with what it wants, if there is exactly one.
    pub loner: Option<(ClientId, CapSet)>,
}

/// What is wanted of an inode, by what the grants say now of each client with an entry there.
pub fn wants_on(fs: &FsName, tree: &Tree, sessions: &Sessions, table: &CapTable, ino: Ino) -> Wants
    ensures { result ≡ words.in_all (words.wants_on fs.now tree.now sessions.now table.now.entries ino) }
{
    let mut tally = Tally::new();
    let mut walk = table.holders_of(ino);
    'rows: while let Some(row) = walk.next() {
        let client = row.holder.client;
        tally = tally.and(client, effective_want(fs, tree, sessions, row));
    }
    tally.wants()
}

// What is wanted of an inode, by the permitted caps that are kept with each entry, found in one walk.
pub(crate) fn wants_by_kept(policy: &Policy<'_>, table: &CapTable, ino: Ino) -> Wants
    ensures { ArePermittedOn table.now.kept policy.now.fs.now policy.now.tree.now policy.now.sessions.now table.now.entries ino.0
        → result ≡ words.in_all (words.wants_on policy.now.fs.now policy.now.tree.now policy.now.sessions.now table.now.entries ino) }
{
    let mut tally = Tally::new();
    let mut walk = table.kept_on(ino);
    'entries: while let Some(entry) = walk.next() {
        let (row, kept) = (entry.row, entry.sets);
        let client = row.holder.client;
        let want = want_of_permitted(policy.sessions, row, kept.permitted);
        tally = tally.and(client, want);
    }
    tally.wants()
}

// What is wanted of an inode, where it may have been found already.
pub(crate) fn given_or_found(
    found: Option<Wants>,
    policy: &Policy<'_>,
    table: &CapTable,
    ino: Ino,
) -> Wants
    requires found { IfSome found (λ wants. wants ≡ words.in_all (words.wants_on policy.now.fs.now policy.now.tree.now policy.now.sessions.now table.now.entries ino)) }
    requires permitted { ArePermittedOn table.now.kept policy.now.fs.now policy.now.tree.now policy.now.sessions.now table.now.entries ino.0 }
    ensures { result ≡ words.in_all (words.wants_on policy.now.fs.now policy.now.tree.now policy.now.sessions.now table.now.entries ino) }
{
    match found {
        Some(wants) => wants,
        None => wants_by_kept(policy, table, ino),
    }
}

/// What the entry's client wants and is permitted, if its session is open.
pub fn effective_want(fs: &FsName, tree: &Tree, sessions: &Sessions, row: EntryRow) -> CapSet
    ensures { result ≡ words.effective_want fs.now tree.now sessions.now row }
{
    let permitted = permitted(fs, tree, sessions, row.holder.client, row.holder.ino);
    want_of_permitted(sessions, row, permitted)
}

/// What the entry's client wants and is permitted, if its session is open, where it is known what the client is permitted.
pub fn want_of_permitted(sessions: &Sessions, row: EntryRow, permitted: CapSet) -> CapSet
    ensures { result ≡ words.want_of_permitted sessions.now permitted row }
{
    wanted_while(sessions.status(row.holder.client), row, permitted)
}

/// What the grants permit the client to hold of an inode. Without a session or a path, the pin alone.
pub fn permitted(
    fs: &FsName,
    tree: &Tree,
    sessions: &Sessions,
    client: ClientId,
    ino: Ino,
) -> CapSet
    ensures { result ≡ verdicts.permitted fs.now tree.now sessions.now (holder client ino) }
{
    let mut names = Names::new();
    let path = tree.read_path(ino, &mut names).then_some(&names);
    permitted_on(fs, sessions, client, path, tree.node(ino))
}

/// What the client is permitted to hold of an inode with this path, of which the tree keeps this. Without a session or a path, the pin
/// alone.
pub fn permitted_on(
    fs: &FsName,
    sessions: &Sessions,
    client: ClientId,
    path: Option<&Names<'_>>,
    node: Option<&Node>,
) -> CapSet
    ensures { result ≡ verdicts.permitted_to fs.now (verdicts.subject_of (map.get sessions.now.sessions client.0) (option_copied path.entry) (option_copied node.entry)) }
{
    match sessions.session(client) {
        Some(session) => permitted_for(fs, session, path, node),
        None => CapSet::of(&[Cap::P]),
    }
}

// What the client of a session is permitted to hold.
fn permitted_for(
    fs: &FsName,
    session: &Session,
    path: Option<&Names<'_>>,
    node: Option<&Node>,
) -> CapSet
    ensures { result ≡ verdicts.permitted_to fs.now (verdicts.subject_of (Some session.now) (option_copied path.entry) (option_copied node.entry)) }
{
    let (Some(path), Some(node)) = (path, node) else {
        return CapSet::of(&[Cap::P]);
    };
    let (grants, caller) = (&session.grants, &session.caller);
    capgrant::permitted_by_kept(grants, fs, caller, path.as_slice(), &node.attr)
}

// Who wants more than the pin, of the clients that a walk came by.
#[derive(Clone, Copy)]
pub(crate) enum Wanting {
    Nobody,
    One(ClientId, CapSet),
    Several,
}

impl Wanting {
    // These, and one more.
    fn and(self, client: ClientId, want: CapSet) -> Wanting
        ensures { (rest : List words.Want) → words.loner_with result rest ≡ words.loner_with self ((client, want) ∷ rest) }
    {
        match self {
            Wanting::Nobody => Wanting::One(client, want),
            Wanting::One(_, _) | Wanting::Several => Wanting::Several,
        }
    }

    // The one, where there is no other.
    fn loner(self) -> Option<(ClientId, CapSet)>
        ensures { result ≡ words.loner_with self [] }
    {
        match self {
            Wanting::One(client, want) => Some((client, want)),
            Wanting::Nobody | Wanting::Several => None,
        }
    }
}

// What is wanted by the clients that a walk came by.
#[derive(Clone, Copy)]
pub(crate) struct Tally {
    pub(crate) wanted: CapSet,
    pub(crate) wanting: Wanting,
}

impl Tally {
    // Nothing, by nobody.
    fn new() -> Tally
        ensures { (wants : List words.Want) → words.in_all_with result wants ≡ words.in_all wants }
    {
        Tally {
            wanted: CapSet::empty(),
            wanting: Wanting::Nobody,
        }
    }

    // The tally with one client more, which wants this.
    fn and(self, client: ClientId, want: CapSet) -> Tally
        ensures { (rest : List words.Want) → words.in_all_with result rest ≡ words.in_all_with self ((client, want) ∷ rest) }
    {
        let Tally { wanted, wanting } = self;
        let wanted = wanted.union(want);
        if !is_more(want) {
            return Tally { wanted, wanting };
        }
        let wanting = wanting.and(client, want);
        Tally { wanted, wanting }
    }

    // What is wanted in all.
    fn wants(self) -> Wants
        ensures { result ≡ words.in_all_with self [] }
    {
        Wants {
            wanted: self.wanted,
            loner: self.wanting.loner(),
        }
    }
}

// Whether this is more than the pin.
fn is_more(want: CapSet) -> bool
    ensures { result ≡ words.is_more want }
{
    !want.minus(CapSet::of(&[Cap::P])).is_empty()
}
