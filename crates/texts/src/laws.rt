//! Laws of texts. No program needs to call them.

ghost use Rattle.std.specs.Prelude.{◌≡◌, ◌≢◌, ◌++◌, ℕ, List, codes};
ghost use Rattle.capspec.specs.declared.fault.SpecFault.{SpecFault};
ghost use Rattle.capgrant.specs.declared.access.Access.{Access};
ghost use Rattle.capgrant.specs.declared.answer.Verdict.{Verdict};
ghost use Rattle.policy_analysis.specs.declared.standing.Standing.{Standing};
ghost use Rattle.texts.specs.Found.{OneFinding};
ghost use Rattle.texts.specs.MdsChanges.{OneMdsComparison};
ghost use Rattle.texts.specs.MdsStandings.{OneMdsClient};
ghost use Rattle.texts.specs.MdsTold.{OneBeside, OneMdsText};
ghost use Rattle.texts.specs.Lines.{HasGrant, HasNumber, OneComparison, OneStanding, OneUnread, answer_line};
ghost use Rattle.texts.specs.Quoting.{quoted};
ghost use Rattle.texts.specs.Standing.{standing_line, unread_line};

/// No two texts are shown the same by `print_quoted`; and where a space stands behind, as behind a path in a line, no text can be taken
/// for another with a part of what follows, or for a part of another.
pub fn one_text_for_what_is_quoted()
    ensures alone { (xs ys : List ℕ) → quoted xs ≡ quoted ys → xs ≡ ys }
    ensures before_a_space { (xs ys s t : List ℕ)
        → quoted xs ++ (codes " " ++ s) ≡ quoted ys ++ (codes " " ++ t) → (xs ≡ ys) × (s ≡ t) }
{}

/// Two answers that differ, in the access, in the path as it is written or in the verdict, have two lines, where the path stands in
/// quotes as it has to: whatever its names hold, no line is that of another answer. So of clients: two that differ in the name, in what
/// is asked or in what is said to that, or in what is wrong with their grants and where, have two lines. And of comparisons: two that differ
/// in what is gained or in what is lost have other lines, those by the rules of a release too where the client's address plays a part in one
/// alone, or where the networks are compared in one alone. So of what is found of a grant. And of whole answers, with all that is worth a
/// word beside them; and of the answers of a release, to a question and of a client.
pub fn one_answer_for_a_line()
    ensures answer { (a b : Access) (p q : List ℕ) (v w : Verdict) → HasNumber a → HasNumber b → HasGrant v → HasGrant w
        → answer_line a p v ≡ answer_line b q w → (a ≡ b) × (p ≡ q) × (v ≡ w) }
    ensures client { OneStanding }
    ensures unread { OneUnread }
    ensures comparison { OneComparison }
    ensures comparison_by { OneMdsComparison }
    ensures finding { OneFinding }
    ensures beside { OneBeside }
    ensures release { OneMdsText }
    ensures client_by { OneMdsClient }
    ensures either { (c d : List ℕ) (a : Access) (p : List (List ℕ)) (s : Standing) (f : SpecFault) → standing_line c a p s ≢ unread_line d f }
{}
