//! Laws of what is told of a log. No program needs to call them.

ghost use Rattle.std.specs.Prelude.{◌≡◌, ℕ};
ghost use Rattle.serde_json.specs.Data.{Data};
ghost use Rattle.serde_json.specs.Written.{compact_text};
ghost use Rattle.texts.specs.declared.shape.Shape.TheVariants.{Objects};
ghost use Rattle.texts.specs.Values.{json_line};
ghost use Rattle.queries.specs.Counts.{count_value, counted_in};
ghost use Rattle.queries.specs.Items.{EachHasItsText, OneLog, OneLogOfObjects};
ghost use Rattle.queries.specs.WrittenChecks.{CheckReadsBack, HeadReadsBack};

/// What is told of a log is one thing after the other: answers, with all that is worth a word beside them, and why a check has none.
/// Two logs of which other things are told, or of other lines, have two texts, by lines and by objects; so no name in a path can forge an answer.
pub fn one_text_for_what_is_reported()
    ensures things { EachHasItsText }
    ensures reported { OneLog }
    ensures objects { OneLogOfObjects }
{}

/// What is written for a count by the text of the object that was counted is the line of the count's object.
pub fn one_object_for_a_count()
    ensures { (count : ℕ) (each : Data) → counted_in Objects (compact_text each, count) ≡ json_line (count_value count each) }
{}

/// A check that is written as an MDS writes it reads back as it is, whatever its path, its numbers and its grants are: no name in the path can
/// be taken for another part of it, and none in a path of the grants.
pub fn what_is_written_reads_back()
    ensures head { HeadReadsBack }
    ensures check { CheckReadsBack }
{}
