//! The commands of the program and the words of each, as its help tells them.

use crate::command_line::{
    AUDIT, AUTH, CLIENT, COMPARE, COUNTS, EXPLAIN, GRANTS, JSON, KEYRING, LINT, LOG, MDS, MORE,
    NEW, OLD, ONLY_DENIED, QUIET, RULE, RUN, SERVE, SESSIONS, TEXT, TREE, WHO,
};
use queries::Opt;

/// A command.
pub(crate) struct Usage {
    pub(crate) name: &'static str,
    pub(crate) about: &'static str,
    pub(crate) example: &'static str,
    pub(crate) words: &'static [Word],
}

/// A word of a command.
pub(crate) struct Word {
    pub(crate) name: Name,
    /// The word that stands for its value in the help. A flag has none.
    pub(crate) value: &'static str,
    pub(crate) help: &'static str,
    pub(crate) kind: Kind,
    /// The word that has to stand beside it.
    pub(crate) needs: Option<Name>,
    /// The words that may not.
    pub(crate) bars: &'static [Name],
}

/// How a word is named.
pub(crate) enum Name {
    /// As this option of a question.
    Of(Opt),
    /// By a name of its own.
    Own(&'static str),
}

impl Name {
    pub(crate) fn text(&self) -> &'static str {
        match self {
            Name::Of(option) => option.name(),
            Name::Own(name) => name,
        }
    }
}

/// How a word is given.
pub(crate) enum Kind {
    /// Without its name. It has to be given.
    Bare,
    /// Behind its name. It has to be given.
    Needed,
    /// Behind its name. It has to be given, unless a keyring or an auth list stands in its place.
    Text,
    /// Behind its name, where it is given.
    Optional,
    /// Behind its name, where it is given; else it is `cephfs`.
    Usual,
    /// By its name alone.
    Flag,
}

const EXPLAIN_EXAMPLE: &str = "Example:
  capd explain \\
    --grants 'allow r path=/pub, allow rw path=/data uid=1001 gids=200' \\
    --fs cephfs --uid 1001 --gid 1001 --groups 200,300 \\
    --path /data/report --owner 1002 --group 200 --mode 0640 --access write
prints
  denied write /data/report grant 1 rule 4 path, grant 2 rule 11 mode-bits";

const GRANTS_EXAMPLE: &str = "Example:
  capd grants 'allow * path=data/ gids=0200,300 uid=1001'
prints
  allow rwps path=/data uid=1001 gids=200,300";

const COMPARE_EXAMPLE: &str = "Example:
  capd compare 'allow rw path=/a' 'allow r, allow rw path=/a/b'
prints
  gained: read / fs xx uid 1 gid 1 groups - owner 0 group 1 mode 0000 grant 1
  lost: write /a fs xxx uid 1 gid 1 groups - owner 0 group 1 mode 0000 grant 1";

const LINT_EXAMPLE: &str = "Example:
  capd lint 'allow rw root_squash, allow rw path=/a, allow r path=/a/b'
prints
  grant 1: root_squash undone, write /a fs x uid 0 gid 0 groups - owner 0 group 0 mode 0600 grant 2
  grant 3: covered by the others
  grant 1: Ceph 18 and 20: refused by clients, chmod /a/b fs x uid 1 gid 1 groups - owner 1 group 0 mode 0600 grant 3
  grant 2: Ceph 18 and 20: refused by clients, chmod /a/b fs x uid 1 gid 1 groups - owner 1 group 0 mode 0600 grant 3";

const WHO_EXAMPLE: &str = "Example:
  ceph auth ls -f json | capd who write /projects --auth -
prints a line for each client, such as
  client.admin: allowed write /projects grant 1
  client.lab: depends on owner, group and mode: write /projects grant 2
  client.backup: denied write /projects grant 1 rule 5 no-write";

const AUDIT_EXAMPLE: &str = "Example:
  ceph auth ls -f json > auth.json
  ceph tell mds.FS:0 session ls > sessions.json
  ceph tell mds.FS:0 dump tree / | capd audit --auth auth.json --sessions sessions.json --tree -
prints for each client and inode of which it holds what nobody behind its key is permitted, such as
  /a/y client.reader session 4151 holds pAsLsXsFrw, may not Fw: grant 1 rule 5 no-write
and for each two clients that hold of an inode what no two may hold together, such as
  /a/y client.reader session 4151 holds Fw beside Fs of client.tenant session 4149";

const LOG_EXAMPLE: &str = "Example:
  capd log --fs cephfs < /var/log/ceph/ceph-mds.a.log
prints for each check of policy in it, behind the number of its line, such as
  812: denied write /a/x grant 1 rule 5 no-write";

const RUN_EXAMPLE: &str = "Example:
  printf 'session 1 10 10 - allow rw path=/a\\nmkdir 1 1 a 0755\\n' | capd run
prints
  done
  denied write 1:4";

const SERVE_EXAMPLE: &str = "Example:
  printf 'session 1 10 10 - allow rw\\nthreads\\nmkdir 1 1 a 0755\\nlookup 1 1 a\\n' | capd serve
prints
  1.1 session 1 10 10 - allow rw => done
  2.1 mkdir 1 1 a 0755 => ino 2
  2.2 lookup 1 1 a => ino 2";

const GROUP_HELP: &str = "The gid of the inode's group";

const JSON_HELP: &str = "Prints the whole answer as JSON, an object a line";

const MODE_HELP: &str = "The inode's mode: 1 to 4 octal digits; or as the MDS logs it, 0100640";

const OWNER_HELP: &str = "The uid of the inode's owner";

const PATH_HELP: &str =
    "The place of the inode: at most 32 names of at most 255 bytes, with / between them";

const FILE_SYSTEM: Word = Word {
    name: Name::Of(Opt::Fs),
    value: "NAME",
    help: "The file system of the inode; left out, it is the one that grants of the list name, and has to be given where they name several",
    kind: Kind::Optional,
    needs: None,
    bars: &[],
};

const ADDRESS: Word = Word {
    name: Name::Of(Opt::Addr),
    value: "ADDRESS",
    help: "The IPv4 or IPv6 address that the client comes from, by which --mds judges the network of a grant; left out, the answer may depend on it",
    kind: Kind::Optional,
    needs: Some(Name::Own(MDS)),
    bars: &[],
};

// By whose rules is answered.
const BY_RELEASE: Word = Word {
    name: Name::Own(MDS),
    value: "RELEASE",
    help: "Answers as the MDS of a release of Ceph does, and by its rules alone: 16 (16.2.15), 18 (18.2.7) or 20 (20.2.4)",
    kind: Kind::Optional,
    needs: None,
    bars: &[],
};

const PRINTS_JSON: Word = Word {
    name: Name::Own(JSON),
    value: "",
    help: JSON_HELP,
    kind: Kind::Flag,
    needs: None,
    bars: &[],
};

// In the place of further lines.
const JSON_OR_MORE: Word = Word {
    name: Name::Own(JSON),
    value: "",
    help: JSON_HELP,
    kind: Kind::Flag,
    needs: None,
    bars: &[Name::Own(MORE)],
};

const EXPLAIN_WORDS: [Word; 18] = [
    Word {
        name: Name::Of(Opt::Grants),
        value: "TEXT",
        help: "The client's grants: 1 to 16 of them, as `ceph fs authorize` writes them; - for standard input",
        kind: Kind::Text,
        needs: None,
        bars: &[],
    },
    Word {
        name: Name::Of(Opt::Fs),
        value: "NAME",
        help: "The file system of the inode: 1 to 64 bytes of A-Z a-z 0-9 _ . -",
        kind: Kind::Needed,
        needs: None,
        bars: &[],
    },
    Word {
        name: Name::Of(Opt::Uid),
        value: "N",
        help: "The caller's uid: a decimal number of 32 bits",
        kind: Kind::Needed,
        needs: None,
        bars: &[],
    },
    Word {
        name: Name::Of(Opt::Gid),
        value: "N",
        help: "The caller's gid: a decimal number of 32 bits",
        kind: Kind::Needed,
        needs: None,
        bars: &[],
    },
    Word {
        name: Name::Of(Opt::Groups),
        value: "N,N",
        help: "The caller's other groups: 1 to 16 gids joined by commas; left out, there is none",
        kind: Kind::Optional,
        needs: None,
        bars: &[],
    },
    Word {
        name: Name::Of(Opt::Path),
        value: "PATH",
        help: PATH_HELP,
        kind: Kind::Needed,
        needs: None,
        bars: &[],
    },
    Word {
        name: Name::Of(Opt::Owner),
        value: "N",
        help: OWNER_HELP,
        kind: Kind::Needed,
        needs: None,
        bars: &[],
    },
    Word {
        name: Name::Of(Opt::Group),
        value: "N",
        help: GROUP_HELP,
        kind: Kind::Needed,
        needs: None,
        bars: &[],
    },
    Word {
        name: Name::Of(Opt::Mode),
        value: "OCTAL",
        help: MODE_HELP,
        kind: Kind::Needed,
        needs: None,
        bars: &[],
    },
    Word {
        name: Name::Of(Opt::Access),
        value: "WORD",
        help: "What is asked for: read, write, vxattr, snapshot, chmod, chown:N or chgrp:N; with --mds also readwrite or mask:BITS:UID:GID",
        kind: Kind::Needed,
        needs: None,
        bars: &[],
    },
    Word {
        name: Name::Own(KEYRING),
        value: "FILE",
        help: "In the place of --grants: the keyring that has them, as `ceph auth get` writes it; - for standard input",
        kind: Kind::Optional,
        needs: Some(Name::Own(CLIENT)),
        bars: &[Name::Of(Opt::Grants)],
    },
    Word {
        name: Name::Own(AUTH),
        value: "FILE",
        help: "In the place of --grants: the auth list that has them, as `ceph auth ls -f json` prints it; - for standard input",
        kind: Kind::Optional,
        needs: Some(Name::Own(CLIENT)),
        bars: &[Name::Of(Opt::Grants), Name::Own(KEYRING)],
    },
    Word {
        name: Name::Own(CLIENT),
        value: "NAME",
        help: "Whose grants the keyring or the auth list is asked for, as client.tenant",
        kind: Kind::Optional,
        needs: None,
        bars: &[Name::Of(Opt::Grants)],
    },
    Word {
        name: Name::Own(MORE),
        value: "",
        help: "Prints further lines, for what the grants leave to the client and where the MDS of a release of Ceph decides otherwise",
        kind: Kind::Flag,
        needs: None,
        bars: &[],
    },
    JSON_OR_MORE,
    Word {
        name: Name::Own(QUIET),
        value: "",
        help: "Prints nothing, and answers by the status alone: 0 allowed, 3 denied",
        kind: Kind::Flag,
        needs: None,
        bars: &[Name::Own(MORE), Name::Own(JSON)],
    },
    BY_RELEASE,
    ADDRESS,
];

const LOG_WORDS: [Word; 5] = [
    Word {
        name: Name::Of(Opt::Fs),
        value: "NAME",
        help: "The file system of the inode",
        kind: Kind::Usual,
        needs: None,
        bars: &[],
    },
    Word {
        name: Name::Own(ONLY_DENIED),
        value: "",
        help: "Leaves out what is allowed, and prints the rest: what is denied, and what can't be judged",
        kind: Kind::Flag,
        needs: None,
        bars: &[],
    },
    Word {
        name: Name::Own(COUNTS),
        value: "",
        help: "Counts what is told, but for what is allowed, by caller, path and reason, and prints the counts at the end",
        kind: Kind::Flag,
        needs: None,
        bars: &[],
    },
    PRINTS_JSON,
    BY_RELEASE,
];

// What stops a script.
const SCRIPT_WORDS: [Word; 1] = [Word {
    name: Name::Own(MORE),
    value: "",
    help: "Says more on standard error of what stopped the script, where more is known",
    kind: Kind::Flag,
    needs: None,
    bars: &[],
}];

const GRANTS_WORDS: [Word; 3] = [
    Word {
        name: Name::Own(TEXT),
        value: "TEXT",
        help: "The grants: 1 to 16 of them, as `ceph fs authorize` writes them",
        kind: Kind::Bare,
        needs: None,
        bars: &[],
    },
    Word {
        name: Name::Own(MORE),
        value: "",
        help: "Shows on standard error the place of a fault in the text",
        kind: Kind::Flag,
        needs: None,
        bars: &[],
    },
    Word {
        name: Name::Own(MDS),
        value: "RELEASE",
        help: "Writes the form that the MDS of a release of Ceph reads: 16 (16.2.15), 18 (18.2.7) or 20 (20.2.4)",
        kind: Kind::Optional,
        needs: None,
        bars: &[],
    },
];

const COMPARE_WORDS: [Word; 6] = [
    Word {
        name: Name::Own(OLD),
        value: "OLD",
        help: "The old grants, as for `grants`",
        kind: Kind::Bare,
        needs: None,
        bars: &[],
    },
    Word {
        name: Name::Own(NEW),
        value: "NEW",
        help: "The new grants",
        kind: Kind::Bare,
        needs: None,
        bars: &[],
    },
    Word {
        name: Name::Own(MORE),
        value: "",
        help: "Prints further lines, for what the MDS of Ceph 16, 18 or 20 says where something changes there and not here, or here and not there",
        kind: Kind::Flag,
        needs: None,
        bars: &[],
    },
    JSON_OR_MORE,
    Word {
        name: Name::Own(MDS),
        value: "RELEASE",
        help: "Compares what the MDS of a release of Ceph says, which reads both texts, and by its rules alone: 16 (16.2.15), 18 (18.2.7) or 20 (20.2.4)",
        kind: Kind::Optional,
        needs: None,
        bars: &[],
    },
    ADDRESS,
];

const LINT_WORDS: [Word; 3] = [
    Word {
        name: Name::Own(TEXT),
        value: "TEXT",
        help: "The grants, as for `grants`",
        kind: Kind::Bare,
        needs: None,
        bars: &[],
    },
    PRINTS_JSON,
    Word {
        name: Name::Own(MDS),
        value: "RELEASE",
        help: "Says what is found by the rules of a release of Ceph alone, as it reads the text: 16 (16.2.15), 18 (18.2.7) or 20 (20.2.4)",
        kind: Kind::Optional,
        needs: None,
        bars: &[],
    },
];

const WHO_WORDS: [Word; 10] = [
    Word {
        name: Name::Of(Opt::Access),
        value: "ACCESS",
        help: "What is asked for: read, write, vxattr, snapshot, chmod, chown:N or chgrp:N",
        kind: Kind::Bare,
        needs: None,
        bars: &[],
    },
    Word {
        name: Name::Of(Opt::Path),
        value: "PATH",
        help: PATH_HELP,
        kind: Kind::Bare,
        needs: None,
        bars: &[],
    },
    Word {
        name: Name::Own(AUTH),
        value: "FILE",
        help: "The clients with their grants, as `ceph auth ls -f json` prints them; - for standard input",
        kind: Kind::Needed,
        needs: None,
        bars: &[],
    },
    FILE_SYSTEM,
    Word {
        name: Name::Of(Opt::Owner),
        value: "N",
        help: OWNER_HELP,
        kind: Kind::Optional,
        needs: Some(Name::Of(Opt::Group)),
        bars: &[],
    },
    Word {
        name: Name::Of(Opt::Group),
        value: "N",
        help: GROUP_HELP,
        kind: Kind::Optional,
        needs: Some(Name::Of(Opt::Mode)),
        bars: &[],
    },
    Word {
        name: Name::Of(Opt::Mode),
        value: "OCTAL",
        help: MODE_HELP,
        kind: Kind::Optional,
        needs: Some(Name::Of(Opt::Owner)),
        bars: &[],
    },
    Word {
        name: Name::Own(MORE),
        value: "",
        help: "Prints further lines, for where the MDS of Ceph 16, 18 or 20 decides otherwise of a client",
        kind: Kind::Flag,
        needs: None,
        bars: &[],
    },
    JSON_OR_MORE,
    BY_RELEASE,
];

const AUDIT_WORDS: [Word; 8] = [
    Word {
        name: Name::Own(AUTH),
        value: "FILE",
        help: "The clients with their grants, as `ceph auth ls -f json` prints them",
        kind: Kind::Needed,
        needs: None,
        bars: &[],
    },
    Word {
        name: Name::Own(SESSIONS),
        value: "FILE",
        help: "The sessions, as `ceph tell mds.FS:N session ls` prints them",
        kind: Kind::Needed,
        needs: None,
        bars: &[],
    },
    Word {
        name: Name::Own(TREE),
        value: "FILE",
        help: "The tree, as `ceph tell mds.FS:N dump tree /` prints it; - for standard input",
        kind: Kind::Needed,
        needs: None,
        bars: &[],
    },
    Word {
        name: Name::Own(RULE),
        value: "",
        help: "Prints a line for each rule and client, with how many are found, and not one for each that is found",
        kind: Kind::Flag,
        needs: None,
        bars: &[],
    },
    Word {
        name: Name::Own(MORE),
        value: "",
        help: "Prints further lines, for where the MDS of Ceph 16, 18 or 20 decides otherwise of what a client holds",
        kind: Kind::Flag,
        needs: None,
        bars: &[],
    },
    JSON_OR_MORE,
    FILE_SYSTEM,
    BY_RELEASE,
];

/// All commands.
pub(crate) const COMMANDS: [Usage; 9] = [
    Usage {
        name: EXPLAIN,
        about: "Says whether the grants of a client allow an access, by which grant, or why not",
        example: EXPLAIN_EXAMPLE,
        words: &EXPLAIN_WORDS,
    },
    Usage {
        name: GRANTS,
        about: "Writes grants in their one form, with all that means nothing left out",
        example: GRANTS_EXAMPLE,
        words: &GRANTS_WORDS,
    },
    Usage {
        name: COMPARE,
        about: "Says what one list of grants allows and another denies, and the other way round, or that they allow the same",
        example: COMPARE_EXAMPLE,
        words: &COMPARE_WORDS,
    },
    Usage {
        name: LINT,
        about: "Says which grants are covered by the others, allow nothing, let root do what another keeps it from, or mean something else to Ceph",
        example: LINT_EXAMPLE,
        words: &LINT_WORDS,
    },
    Usage {
        name: WHO,
        about: "Says of each client of a cluster whether somebody behind its key may make an access",
        example: WHO_EXAMPLE,
        words: &WHO_WORDS,
    },
    Usage {
        name: AUDIT,
        about: "Says what clients of a running cluster hold and nobody behind their keys is permitted, and what no two may hold together",
        example: AUDIT_EXAMPLE,
        words: &AUDIT_WORDS,
    },
    Usage {
        name: LOG,
        about: "Reads the log of an MDS from standard input and says what the grants in each check of policy allow, or why not",
        example: LOG_EXAMPLE,
        words: &LOG_WORDS,
    },
    Usage {
        name: RUN,
        about: "Reads a script from standard input and prints what a server answers to each line",
        example: RUN_EXAMPLE,
        words: &SCRIPT_WORDS,
    },
    Usage {
        name: SERVE,
        about: "Reads a script, lets each client call by a thread of its own behind the line `threads`, and prints the history",
        example: SERVE_EXAMPLE,
        words: &SCRIPT_WORDS,
    },
];
