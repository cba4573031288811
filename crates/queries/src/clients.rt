//! Which clients of a cluster may make an access.
ghost use Rattle.std.specs.Prelude.{◌≡◌, ◌++◌, ℕ, List, IfOk, OnOk, map};
ghost use Rattle.queries.specs.Attempts.{wanted_by};
ghost use Rattle.queries.specs.Clients.{AnswersWho, Says, SaysFor, is_told, meant, nothing, others_in, others_to, standing_in, unread_in};
ghost use Rattle.queries.specs.ClientsBy.{wanted_there};

use crate::attempt::Attempt;
use crate::clients_by::print_client_by;
use crate::grant_text::read_text;
use capgrant::Attr;
use capspec::{FsName, SpecFault};
use ceph_input::{AuthList, Entity};
use policy_analysis::{MdsWanted, Standing, Wanted};
use release_rules::{Others, Release};
use std::alloc::{AllocError, Global};
use texts::{
    Shape, print_standing, print_standing_object, print_standing_others, print_unread,
    print_unread_object,
};

/// How an answer is told: whether a client may, or what changes between two texts of grants.
#[derive(Clone, Copy)]
pub enum Telling {
    /// By a line, or by one for each change.
    Line,
    /// By that, and by lines for where the MDS of a release answers otherwise.
    More,
    /// By an object of JSON in the place of each line. Of a client it says all that there is.
    Object,
}

impl Telling {
    ghost use Rattle.std.specs.Prelude.{◌≡◌};
    ghost use Rattle.queries.specs.Clients.{shape_of};

    /// The shape in which it tells what has nothing more behind it.
    pub fn shape(self) -> Shape
        ensures { result ≡ shape_of self }
    {
        match self {
            Telling::Line | Telling::More => Shape::Lines,
            Telling::Object => Shape::Objects,
        }
    }
}

// What the grants of a client say to what is wanted.
#[derive(Clone, Copy)]
struct ClientAnswer<'a> {
    standing: &'a Standing,
    // What the MDS of each release answers somebody behind its key otherwise, if anything.
    others: &'a Others,
}

/// What is told of the clients of a cluster.
pub struct WhoAnswer {
    /// Their lines.
    pub lines: Vec<u8>,
    /// Whether the grants of all of them could be read, and so be judged.
    pub judges_all: bool,
}

// Not derived: so the proof of a function that drops one has a single call there.
impl Drop for WhoAnswer {
    fn drop(self) {
        let WhoAnswer {
            lines: _,
            judges_all: _,
        } = self;
    }
}

/// For each client of an auth list, and each other entity with grants for the MDS, in its order: whether somebody behind its key may do what is
/// asked, by which grant, or why nobody may; or that it depends on owner, group and mode, where these are not given. Where a client's grants can't
/// be read, its line says why. The inode is one of this file system. Where a release is named, by its rules alone, and where the client itself refuses
/// a line says so. Only memory can be missing.
pub fn who_lines(
    alloc: Global,
    list: &AuthList,
    fs: &FsName,
    attempt: &Attempt,
    mds: Option<Release>,
    telling: Telling,
) -> Result<WhoAnswer, AllocError>
    ensures { IfOk result (AnswersWho telling (wanted_by attempt.now fs.now) attempt.now.attr mds list.now) }
{
    let mut lines = Vec::new(alloc);
    let mut judges_all = true;
    let entities = list.entities();
    for entity in entities {
        if is_told(entity) {
            let is_judged = print_entity(&mut lines, entity, attempt, fs, mds, telling)?;
            judges_all = judges_all && is_judged;
        }
    }
    Ok(WhoAnswer { lines, judges_all })
}

// Whether it is a client, or has grants for the MDS.
fn is_told(entity: &Entity) -> bool
    ensures { result ≡ is_told entity.now }
{
    entity.is_client() || entity.caps().is_some()
}

// The text whose grants are judged.
fn meant(text: &[u8]) -> &[u8]
    ensures { result.now ≡ meant text.now }
{
    if text == b"allow".as_slice() {
        b"allow rwps"
    } else {
        text
    }
}

// Appends the lines of one of them, by the rules of a release where one is named, and says whether it could be judged.
fn print_entity(
    lines: &mut Vec<u8>,
    entity: &Entity,
    attempt: &Attempt,
    fs: &FsName,
    mds: Option<Release>,
    telling: Telling,
) -> Result<bool, AllocError>
    ensures { IfOk result (λ is_judged. (line : List ℕ) × (lines.new.items ≡ lines.old.items ++ line)
        × SaysFor telling (wanted_by attempt.now fs.now) attempt.now.attr mds entity.now.name entity.now.caps is_judged line) }
{
    match mds {
        Some(release) => print_client_by(
            lines,
            entity,
            &attempt.wanted_there(fs, release),
            telling,
        ),
        None => print_client(lines, entity, attempt, fs, telling),
    }
}

// Appends the lines of a client, and says whether it could be judged.
fn print_client(
    lines: &mut Vec<u8>,
    client: &Entity,
    attempt: &Attempt,
    fs: &FsName,
    telling: Telling,
) -> Result<bool, AllocError>
    ensures { IfOk result (λ is_judged. (line : List ℕ) × (lines.new.items ≡ lines.old.items ++ line)
        × Says telling (wanted_by attempt.now fs.now) attempt.now.attr client.now.name client.now.caps is_judged line) }
{
    let alloc = *lines.allocator();
    let names = attempt.path.names(alloc)?;
    let wanted = attempt.wanted(fs, names.as_slice());
    let name = client.name();
    let attr = &attempt.attr;
    let Some(text) = client.caps() else {
        let (standing, others) = (Standing::without_grants(), nothing());
        let answer = ClientAnswer {
            standing: &standing,
            others: &others,
        };
        print_answer(lines, name, &wanted, attr, &answer, telling)?;
        return Ok(true);
    };
    match read_text(alloc, meant(text)) {
        Ok(Some(grants)) => {
            let standing = wanted.standing(&grants, attr);
            let others = attempt.others_in(telling, alloc, fs, text, &standing)?;
            let answer = ClientAnswer {
                standing: &standing,
                others: &others,
            };
            print_answer(lines, name, &wanted, attr, &answer, telling)?;
            Ok(true)
        }
        Ok(None) => Err(AllocError),
        Err(fault) => {
            print_fault(lines, name, &wanted, attr, &fault, telling)?;
            Ok(false)
        }
    }
}

impl Attempt {
    // What is wanted on this file system, by the names of the path.
    fn wanted<'a>(&self, fs: &'a FsName, names: &'a [&'a [u8]]) -> Wanted<'a>
        requires { map (λ name. name.now) names.now ≡ self.now.path }
        ensures { result ≡ wanted_by self.now fs.now }
    {
        Wanted {
            fs,
            path: names,
            access: self.access,
        }
    }

    // What releases answer otherwise than by this standing, where it is told.
    fn others_in(
        &self,
        telling: Telling,
        alloc: Global,
        fs: &FsName,
        text: &[u8],
        standing: &Standing,
    ) -> Result<Others, AllocError>
        ensures { IfOk result (λ others. others ≡ others_in telling (wanted_by self.now fs.now) self.now.attr text.now standing.now) }
    {
        match telling {
            Telling::Line => Ok(nothing()),
            Telling::More | Telling::Object => self.others(alloc, fs, text, standing),
        }
    }

    fn others(
        &self,
        alloc: Global,
        fs: &FsName,
        text: &[u8],
        standing: &Standing,
    ) -> Result<Others, AllocError>
        ensures { IfOk result (λ others. others ≡ others_to (wanted_by self.now fs.now) self.now.attr text.now standing.now) }
    {
        Ok(Others {
            pacific: self
                .wanted_there(fs, Release::Pacific)
                .beside(alloc, text, standing)?,
            reef: self
                .wanted_there(fs, Release::Reef)
                .beside(alloc, text, standing)?,
            tentacle: self
                .wanted_there(fs, Release::Tentacle)
                .beside(alloc, text, standing)?,
        })
    }

    // The same in a cluster of a release.
    fn wanted_there<'a>(&'a self, fs: &'a FsName, release: Release) -> MdsWanted<'a>
        ensures { result ≡ wanted_there (wanted_by self.now fs.now) self.now.attr release }
    {
        MdsWanted {
            release,
            fs,
            path: &self.path,
            access: self.access,
            known: &self.attr,
        }
    }
}

// Where no release answers otherwise.
fn nothing() -> Others
    ensures { result ≡ nothing }
{
    Others {
        pacific: None,
        reef: None,
        tentacle: None,
    }
}

// Appends what is said of a client.
fn print_answer(
    lines: &mut Vec<u8>,
    client: &[u8],
    wanted: &Wanted<'_>,
    attr: &Option<Attr>,
    answer: &ClientAnswer<'_>,
    telling: Telling,
) -> Result<(), AllocError>
    ensures { OnOk result (lines.new.items ≡ lines.old.items
        ++ standing_in telling client.now wanted.now attr.now answer.now.standing.now answer.now.others.now) }
{
    let standing = answer.standing;
    let others = answer.others;
    match telling {
        Telling::Line => print_standing(lines, client, wanted.access, wanted.path, standing),
        Telling::More => {
            print_standing(lines, client, wanted.access, wanted.path, standing)?;
            print_standing_others(lines, client, others)
        }
        Telling::Object => print_standing_object(lines, client, wanted, attr, standing, others),
    }
}

// Appends why the grants of a client can't be read.
fn print_fault(
    lines: &mut Vec<u8>,
    client: &[u8],
    wanted: &Wanted<'_>,
    attr: &Option<Attr>,
    fault: &SpecFault,
    telling: Telling,
) -> Result<(), AllocError>
    ensures { OnOk result (lines.new.items ≡ lines.old.items ++ unread_in telling client.now wanted.now attr.now fault.now) }
{
    match telling {
        Telling::Line | Telling::More => print_unread(lines, client, fault),
        Telling::Object => print_unread_object(lines, client, wanted, attr, fault),
    }
}
