//! What grants say to a check whose path is not known.
ghost use Rattle.std.specs.Prelude.{◌≡◌, ◌++◌, OnOk};
ghost use Rattle.queries.specs.AnyPath.{any_path_text};

use crate::mds::MdsAsking;
use crate::question::Question;
use capbits::print;
use capgrant::{Verdict, verdict};
use capspec::Grant;
use release_rules::{Release, first_somewhere};
use std::alloc::{AllocError, Global};
use texts::MdsAccess;

/// What they say wherever the inode is.
#[derive(Clone, Copy)]
pub enum AnyPath {
    /// The grant of this number allows it at each path.
    Anywhere(usize),
    /// The grant of this number allows it at each path to a client in its network.
    OnAddress(usize),
    /// It is allowed in the directory of the grant of this number, and not at each path.
    Somewhere(usize),
    /// It is allowed at no path.
    Nowhere,
}

impl AnyPath {
    ghost use Rattle.std.specs.Prelude.{◌≡◌};
    ghost use Rattle.queries.specs.AnyPath.{is_anywhere, is_sure};

    /// Whether it is the same at each path, and wherever the client is.
    pub fn is_sure(self) -> bool
        ensures { result ≡ is_sure self }
    {
        match self {
            AnyPath::Anywhere(_) | AnyPath::Nowhere => true,
            AnyPath::OnAddress(_) | AnyPath::Somewhere(_) => false,
        }
    }

    /// Whether it is allowed at each path, wherever the client is.
    pub fn is_anywhere(self) -> bool
        ensures { result ≡ is_anywhere self }
    {
        matches!(self, AnyPath::Anywhere(_))
    }
}

impl Question {
    ghost use Rattle.std.specs.Prelude.{◌≡◌, IfOk, map};
    ghost use Rattle.queries.specs.AnyPath.{any_path_of, is_allowed_in, somewhere, with_path};
    ghost use Rattle.queries.specs.Question.{verdict_on};

    /// What the grants say to it at any path. Only memory can be missing.
    pub fn at_any_path(&self, alloc: Global) -> Result<AnyPath, AllocError>
        ensures { IfOk result (λ any. any ≡ any_path_of self.now) }
    {
        match self.judge_at(&[]) {
            Verdict::Allowed { grant } => Ok(AnyPath::Anywhere(grant as usize)),
            Verdict::Denied { rules: _ } => self.somewhere(alloc),
        }
    }

    // The first grant in whose directory it is allowed.
    fn somewhere(&self, alloc: Global) -> Result<AnyPath, AllocError>
        ensures { IfOk result (λ any. any ≡ somewhere self.now 1 self.now.grants) }
    {
        let grants = self.grants.as_slice();
        for (place, grant) in grants.iter().enumerate() {
            if self.is_allowed_in(alloc, grant)? {
                return Ok(AnyPath::Somewhere(place + 1));
            }
        }
        Ok(AnyPath::Nowhere)
    }

    // Whether some grant allows it in the directory that this one is for.
    fn is_allowed_in(&self, alloc: Global, grant: &Grant) -> Result<bool, AllocError>
        ensures { IfOk result (λ allowed. allowed ≡ is_allowed_in self.now grant.now) }
    {
        let names = grant.path.names(alloc)?;
        let verdict = self.judge_at(names.as_slice());
        Ok(matches!(verdict, Verdict::Allowed { .. }))
    }

    // What the grants say at the path with these names.
    fn judge_at(&self, names: &[&[u8]]) -> Verdict
        ensures { result ≡ verdict_on (with_path self.now (map (λ name. name.now) names.now)) }
    {
        verdict(
            &self.grants,
            &self.fs,
            &self.caller,
            names,
            &self.attr,
            self.access,
        )
    }
}

impl MdsAsking {
    ghost use Rattle.std.specs.Prelude.{◌≡◌, position};
    ghost use Rattle.release_rules.specs.Failing.{may_allow_somewhere};
    ghost use Rattle.release_rules.specs.Releases.{switches_of};
    ghost use Rattle.texts.specs.MdsAsked.{asked_there};
    ghost use Rattle.queries.specs.AnyPath.{any_path_there, at_place};
    ghost use Rattle.queries.specs.Mds.{mds_question};

    /// What the MDS of a release says to it at any path, by what it says at the root.
    pub fn at_any_path(
        &self,
        release: Release,
        at_root: &release_rules::Verdict,
        grants: &[release_grants::Grant],
    ) -> AnyPath
        ensures { result ≡ any_path_there at_root.now
            (position (may_allow_somewhere (switches_of release) (mds_question self.now.asking (asked_there self.now.access))) grants.now) }
    {
        match at_root {
            release_rules::Verdict::Allowed { grant } => AnyPath::Anywhere(*grant),
            release_rules::Verdict::DependsOnAddress { grant } => AnyPath::OnAddress(*grant),
            release_rules::Verdict::CannotMount => AnyPath::Nowhere,
            release_rules::Verdict::Denied { .. } => self.somewhere_by(release, grants),
        }
    }

    // The first grant in whose directory it would be allowed.
    fn somewhere_by(&self, release: Release, grants: &[release_grants::Grant]) -> AnyPath
        ensures { result ≡ at_place
            (position (may_allow_somewhere (switches_of release) (mds_question self.now.asking (asked_there self.now.access))) grants.now) }
    {
        let switches = release.switches();
        let question = self.asking.of_mds(self.access.asked());
        match first_somewhere(switches, &question, grants) {
            Some(place) => AnyPath::Somewhere(place + 1),
            None => AnyPath::Nowhere,
        }
    }
}

/// Appends what is said of it, with a line feed. `AllocError` where no memory is left for it.
pub fn print_any_path(text: &mut Vec<u8>, access: MdsAccess, any: AnyPath) -> Result<(), AllocError>
    ensures { OnOk result (text.new.items ≡ text.old.items ++ any_path_text access any) }
{
    match any {
        AnyPath::Anywhere(grant) => print(
            text,
            format_args!("allowed {access} at any path, grant {grant}\n"),
        ),
        AnyPath::OnAddress(grant) => print(
            text,
            format_args!("depends on the address: {access} grant {grant}\n"),
        ),
        AnyPath::Somewhere(grant) => print(
            text,
            format_args!("depends on it: {access} grant {grant}\n"),
        ),
        AnyPath::Nowhere => print(text, format_args!("denied {access} at any path\n")),
    }
}
