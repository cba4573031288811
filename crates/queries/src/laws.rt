//! Laws of texts. No program needs to call them.

ghost use Rattle.queries.specs.ComparingMore.{OneWithReleases};
ghost use Rattle.queries.specs.ClientsReported.{EachHasItsLines, OneText};
ghost use Rattle.queries.specs.Linting.{OneLint, SaysSomething};

/// Where other things are found in two texts of grants, other lines are printed of them, or other objects; and never the line that says
/// that there are none.
pub fn one_text_for_what_is_found()
    ensures found { OneLint }
    ensures something { SaysSomething }
{}

/// What `who` prints of clients by the rules of this server, if not objects, is one line after the other, each of a client: what is said to
/// what is asked, what is wrong with its grants, or where releases answer otherwise. Where other things are said, or of other clients, other
/// lines are printed; so no name can forge an answer.
pub fn one_text_for_an_answer()
    ensures things { EachHasItsLines }
    ensures one_text { OneText }
{}

/// Where `compare` tells another gain or loss of two texts by this server, or another answer of a release behind it, other lines are printed: also where
/// one is told of which another tells nothing.
pub fn one_text_for_releases_beside()
    ensures { OneWithReleases }
{}
