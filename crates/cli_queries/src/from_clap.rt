//! What the matched words of a command line ask for.
ghost use Rattle.std.specs.Prelude.{IfOk};
ghost use Rattle.cli_queries.specs.Matched.{IsAskedBy};

use crate::audit_args::{AuditArgs, ClusterFiles};
use crate::command_line::{
    AUDIT, AUTH, CLIENT, COMPARE, COUNTS, EXPLAIN, GRANTS, INPUT, Invocation, JSON, KEYRING, LINT,
    LOG, MDS, MORE, NEW, OLD, ONLY_DENIED, QUIET, RULE, RUN, SERVE, SESSIONS, TEXT, TREE, WHO,
};
use crate::explain_args::{ExplainArgs, Form, Source};
use crate::who_args::WhoArgs;
use clap::ArgMatches;
use clap::error::ErrorKind;
use cluster_audit::{Detail, Manner};
use queries::{AttemptValues, AttrValues, Opt, Telling, Values, spelled};
use release_rules::Release;
use std::alloc::Global;
use texts::Shape;

/// What the words ask for. The error says what is wrong with them; the parser of the command line lets no such words through.
pub fn invoked(alloc: Global, matches: &ArgMatches<'_>) -> Result<Invocation, ErrorKind>
    ensures { IfOk result (IsAskedBy matches.now) }
{
    let Some((name, matches)) = matches.subcommand() else {
        return Err(ErrorKind::MissingSubcommand);
    };
    let matched = Matched { alloc, matches };
    match name {
        EXPLAIN => Ok(Invocation::Explain(matched.explain_args()?)),
        WHO => Ok(Invocation::Who(matched.who_args()?)),
        AUDIT => Ok(Invocation::Audit(matched.audit_args()?)),
        _ => matched.on_texts(name),
    }
}

// The words of a command as they were matched.
#[derive(Drop)]
struct Matched<'m, 'a> {
    alloc: Global,
    matches: &'m ArgMatches<'a>,
}

impl Matched<'_, '_> {
    ghost use Rattle.cli_queries.specs.Matched.{AreValues, AsksFor, IsAttr, IsAuditArgs, IsExplainArgs, IsFlag, IsForm, IsGiven, IsManner, IsMds, IsOption};
    ghost use Rattle.cli_queries.specs.Matched.{IsShape, IsSource, IsTelling, IsValue, IsWhoArgs, words_of};

    // What a command asks for that takes a few texts, or a script.
    fn on_texts(&self, name: &str) -> Result<Invocation, ErrorKind>
        ensures { IfOk result (AsksFor name.now (words_of self.now.matches.now)) }
    {
        match name {
            GRANTS => Ok(Invocation::Grants {
                text: self.value(TEXT)?,
                more: self.says(MORE),
                mds: self.mds()?,
            }),
            COMPARE => {
                let addr = self.given(Opt::Addr.name())?;
                Ok(Invocation::Compare {
                    old: self.value(OLD)?,
                    new: self.value(NEW)?,
                    telling: self.telling(),
                    mds: self.mds()?,
                    addr,
                })
            }
            LINT => Ok(Invocation::Lint {
                text: self.value(TEXT)?,
                shape: self.shape(),
                mds: self.mds()?,
            }),
            LOG => Ok(Invocation::Log {
                fs: self.option(Opt::Fs)?,
                only_denied: self.says(ONLY_DENIED),
                mds: self.mds()?,
                shape: self.shape(),
                counts: self.says(COUNTS),
            }),
            _ => self.on_script(name),
        }
    }

    // What a command asks for that takes a script.
    fn on_script(&self, name: &str) -> Result<Invocation, ErrorKind>
        ensures { IfOk result (AsksFor name.now (words_of self.now.matches.now)) }
    {
        let more = self.says(MORE);
        match name {
            RUN => Ok(Invocation::Run { more }),
            SERVE => Ok(Invocation::Serve { more }),
            _ => Err(ErrorKind::MissingSubcommand),
        }
    }

    fn explain_args(&self) -> Result<ExplainArgs, ErrorKind>
        ensures { IfOk result (IsExplainArgs (words_of self.now.matches.now)) }
    {
        let values = self.values()?;
        let source = self.source(values.grants.as_slice())?;
        let form = self.form();
        let mds = self.mds()?;
        Ok(ExplainArgs {
            values,
            source,
            form,
            mds,
        })
    }

    fn values(&self) -> Result<Values, ErrorKind>
        ensures { IfOk result (AreValues (words_of self.now.matches.now)) }
    {
        Ok(Values {
            grants: self
                .given(Opt::Grants.name())?
                .unwrap_or(Vec::new(self.alloc)),
            fs: self.option(Opt::Fs)?,
            uid: self.option(Opt::Uid)?,
            gid: self.option(Opt::Gid)?,
            groups: self.given(Opt::Groups.name())?,
            path: self.option(Opt::Path)?,
            owner: self.option(Opt::Owner)?,
            group: self.option(Opt::Group)?,
            mode: self.option(Opt::Mode)?,
            access: self.option(Opt::Access)?,
            addr: self.given(Opt::Addr.name())?,
        })
    }

    // Where the grants are, if this is their text on the command line.
    fn source(&self, grants: &[u8]) -> Result<Source, ErrorKind>
        ensures { IfOk result (IsSource (words_of self.now.matches.now) grants.now) }
    {
        if let Some(file) = self.given(KEYRING)? {
            let client = self.value(CLIENT)?;
            return Ok(Source::Keyring { file, client });
        }
        if let Some(file) = self.given(AUTH)? {
            let client = self.value(CLIENT)?;
            return Ok(Source::Auth { file, client });
        }
        if grants == INPUT {
            Ok(Source::Input)
        } else {
            Ok(Source::Word)
        }
    }

    fn form(&self) -> Form
        ensures { IsForm (words_of self.now.matches.now) result }
    {
        if self.says(QUIET) {
            Form::Status
        } else if self.says(MORE) {
            Form::More
        } else if self.says(JSON) {
            Form::Object
        } else {
            Form::Line
        }
    }

    fn shape(&self) -> Shape
        ensures { IsShape (words_of self.now.matches.now) result }
    {
        if self.says(JSON) {
            Shape::Objects
        } else {
            Shape::Lines
        }
    }

    fn telling(&self) -> Telling
        ensures { IsTelling (words_of self.now.matches.now) result }
    {
        if self.says(MORE) {
            Telling::More
        } else if self.says(JSON) {
            Telling::Object
        } else {
            Telling::Line
        }
    }

    fn who_args(&self) -> Result<WhoArgs, ErrorKind>
        ensures { IfOk result (IsWhoArgs (words_of self.now.matches.now)) }
    {
        Ok(WhoArgs {
            values: AttemptValues {
                access: self.option(Opt::Access)?,
                path: self.option(Opt::Path)?,
                fs: self.given(Opt::Fs.name())?,
                attr: self.attr()?,
            },
            auth: self.value(AUTH)?,
            telling: self.telling(),
            named: Vec::new(self.alloc),
            mds: self.mds()?,
        })
    }

    fn audit_args(&self) -> Result<AuditArgs, ErrorKind>
        ensures { IfOk result (IsAuditArgs (words_of self.now.matches.now)) }
    {
        Ok(AuditArgs {
            manner: self.manner()?,
            fs: self.given(Opt::Fs.name())?,
            files: ClusterFiles {
                auth: self.value(AUTH)?,
                sessions: self.value(SESSIONS)?,
                tree: self.value(TREE)?,
            },
            auth: Vec::new(self.alloc),
            sessions: Vec::new(self.alloc),
            named: Vec::new(self.alloc),
        })
    }

    fn manner(&self) -> Result<Manner, ErrorKind>
        ensures { IfOk result (IsManner (words_of self.now.matches.now)) }
    {
        Ok(Manner {
            mds: self.mds()?,
            detail: if self.says(RULE) {
                Detail::Groups
            } else {
                Detail::Each
            },
            shape: self.shape(),
            more: self.says(MORE),
        })
    }

    fn attr(&self) -> Result<Option<AttrValues>, ErrorKind>
        ensures { IfOk result (IsAttr (words_of self.now.matches.now)) }
    {
        let Some(owner) = self.given(Opt::Owner.name())? else {
            return Ok(None);
        };
        Ok(Some(AttrValues {
            owner,
            group: self.option(Opt::Group)?,
            mode: self.option(Opt::Mode)?,
        }))
    }

    // The release by whose rules is answered, if one is named. One that was not asked is no valid value.
    fn mds(&self) -> Result<Option<Release>, ErrorKind>
        ensures { IfOk result (IsMds (words_of self.now.matches.now)) }
    {
        let Some(word) = self.given(MDS)? else {
            return Ok(None);
        };
        match Release::read(word.as_slice()) {
            Some(release) => Ok(Some(release)),
            None => Err(ErrorKind::InvalidValue),
        }
    }

    fn option(&self, option: Opt) -> Result<Vec<u8>, ErrorKind>
        ensures { IfOk result (IsOption (words_of self.now.matches.now) option) }
    {
        self.value(option.name())
    }

    // The value of a word that has to be given.
    fn value(&self, name: &str) -> Result<Vec<u8>, ErrorKind>
        ensures { IfOk result (IsValue (words_of self.now.matches.now) name.now) }
    {
        self.given(name)?.ok_or(ErrorKind::MissingRequiredArgument)
    }

    // The value of a word, if it is given.
    #[tactic(auto, using(crate::proofs::Matches::first_by_rows))]
    fn given(&self, name: &str) -> Result<Option<Vec<u8>>, ErrorKind>
        ensures { IfOk result (IsGiven (words_of self.now.matches.now) name.now) }
    {
        let Some(text) = self.matches.get_str(name) else {
            return Ok(None);
        };
        match spelled(self.alloc, text) {
            Ok(value) => Ok(Some(value)),
            Err(_) => Err(ErrorKind::OutOfMemory),
        }
    }

    fn says(&self, flag: &str) -> bool
        ensures { IsFlag (words_of self.now.matches.now) flag.now result }
    {
        self.matches.get_flag(flag)
    }
}
