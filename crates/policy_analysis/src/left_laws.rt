//! A law of what a grant leaves to the client. No program needs to call it.

ghost use Rattle.std.specs.Prelude.{◌≡◌, ◌↔◌, IsTrue, true};
ghost use Rattle.capspec.specs.declared.grant.Grant.{Grant};
ghost use Rattle.capgrant.specs.Question.{Question};
ghost use Rattle.capgrant.specs.Verdict.{allows};
ghost use Rattle.policy_analysis.specs.Left.{LooksAtNoInode, is_for_all};

/// A grant that allows something names no user exactly if it allows the same of an inode of any owner, group and mode.
pub fn a_grant_without_uid_looks_at_no_inode()
    ensures { (q : Question) (g : Grant) → allows q g ≡ true → (is_for_all g ≡ true) ↔ LooksAtNoInode q g }
{}
