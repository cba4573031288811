//! Laws of what an audit writes. No program needs to call them.

ghost use Rattle.std.specs.Prelude.{◌≡◌, ℕ};
ghost use Rattle.serde_json.specs.Data.{Data};
ghost use Rattle.serde_json.specs.Written.{compact_text};
ghost use Rattle.texts.specs.Values.{json_line};
ghost use Rattle.cluster_audit.specs.Instead.{OneObject};
ghost use Rattle.cluster_audit.specs.Objects.{group_object, group_value};
ghost use Rattle.cluster_audit.specs.Reported.{OneLine, OneText};

/// What is written for a group by the text of what its objects have in common is the line of the group's object.
pub fn one_object_for_a_group()
    ensures { (count : ℕ) (each : Data) → group_object count (compact_text each) ≡ json_line (group_value count each) }
{}

/// Two lines of an audit that are equal tell the same: they are of one kind, of the same inode, client and session, and have the same
/// caps, rules and numbers, whatever bytes a path or a name has; of a path its text counts. So do two texts of such lines, line
/// by line, and two objects that are the same value, which tell the number of an inode and the access that is missing, too.
pub fn one_line_for_what_is_reported()
    ensures line { OneLine }
    ensures text { OneText }
    ensures object { OneObject }
{}
