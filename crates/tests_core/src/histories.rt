//! What a core keeps of its events: the rows of its history, and whose they are.

pub const CASES: &str = "
== 2 changes
# A full history takes no more.
7: session 1 10 10 - allow rw => done | opened
7: create 1 1  0644 => refused NameBad
7: create 1 1 f 0644 => stop Full
7: session 1 10 10 - allow rw => stop Full
row 0 => 7.1 session 1 10 10 - allow rw => done
row 1 => 7.2 create 1 1  0644 => refused NameBad
row 2 => no row

== 0 changes
# A history of no rows takes none.
7: session 1 10 10 - allow rw => stop Full
row 0 => no row

== 100 changes
# Each pass is numbered on its own.
4: lookup 1 1 f => refused NoSession
9: lookup 1 1 f => refused NoSession
4: lookup 1 1 f => refused NoSession
4: lookup 1 1 f => refused NoSession
9: lookup 1 1 f => refused NoSession
0: lookup 1 1 f => refused NoSession
9: lookup 1 1 f => refused NoSession
row 0 => 4.1 lookup 1 1 f => refused NoSession
row 1 => 9.1 lookup 1 1 f => refused NoSession
row 2 => 4.2 lookup 1 1 f => refused NoSession
row 3 => 4.3 lookup 1 1 f => refused NoSession
row 4 => 9.2 lookup 1 1 f => refused NoSession
row 5 => 0.1 lookup 1 1 f => refused NoSession
row 6 => 9.3 lookup 1 1 f => refused NoSession
row 7 => no row
";
