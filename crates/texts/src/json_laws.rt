//! Laws of values. No program needs to call them.

ghost use Rattle.std.specs.Prelude.{◌≡◌, ℕ, List, All};
ghost use Rattle.std.specs.List.{flat_map};
ghost use Rattle.hex.specs.Hex.{IsBytes};
ghost use Rattle.serde_json.specs.Data.{Data};
ghost use Rattle.texts.specs.Answers.{OneAnswer};
ghost use Rattle.texts.specs.Changes.{OneChange};
ghost use Rattle.texts.specs.Findings.{EachHasAnObject, OneFinding};
ghost use Rattle.texts.specs.MdsAnswers.{OneMdsAnswer};
ghost use Rattle.texts.specs.MdsStandings.{OneMdsStanding};
ghost use Rattle.texts.specs.Standings.{OneStanding};
ghost use Rattle.texts.specs.Values.{HasWholeNumbers, ReadsBack, bytes_value, json_line};

/// Bytes that differ are written as values that differ, whether they are UTF-8 or not.
pub fn one_spelling_for_bytes()
    ensures { (xs ys : List ℕ) → IsBytes xs → IsBytes ys → bytes_value xs ≡ bytes_value ys → xs ≡ ys }
{}

/// Values that read back and differ have lines that differ. So have two lists of them: no line of a value can be taken for two, or for a
/// part of one. Values whose numbers are natural ones of 64 bits need not be known to read back.
pub fn one_value_for_a_line()
    ensures line { (d e : Data) → ReadsBack d → ReadsBack e → json_line d ≡ json_line e → d ≡ e }
    ensures whole { (d e : Data) → HasWholeNumbers d → HasWholeNumbers e → json_line d ≡ json_line e → d ≡ e }
    ensures lines { (ds es : List Data) → All ReadsBack ds → All ReadsBack es → flat_map json_line ds ≡ flat_map json_line es → ds ≡ es }
{}

/// Two answers that differ, in what is asked, in the verdict, its grant or its rules, or in what is said beside it, are objects that
/// differ; so their lines do, by the law above. Of a path its text counts. The same holds of what releases answer, of what is said of
/// clients, of what grants gain and lose, and of what is found of them, where each thing has a line of its own.
pub fn one_answer_for_an_object()
    ensures answer { OneAnswer }
    ensures release { OneMdsAnswer }
    ensures client { OneStanding }
    ensures client_by { OneMdsStanding }
    ensures change { OneChange }
    ensures finding { OneFinding }
    ensures findings { EachHasAnObject }
{}
