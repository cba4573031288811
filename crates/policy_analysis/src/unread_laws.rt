//! Laws of grants as they stand. No program needs to call them.

ghost use Rattle.std.specs.Prelude.{◌≡◌, ◌↔◌, ℕ, List, None, IsTrue};
ghost use Rattle.policy_analysis.specs.CephOrder.{IsInCephOrder};
ghost use Rattle.policy_analysis.specs.Linting.{HasCephText};
ghost use Rattle.capspec.specs.declared.grant.Grant.{Grant};
ghost use Rattle.capspec.specs.Grants.{AreItemsOf};
ghost use Rattle.capspec.specs.Items.{Item};
ghost use Rattle.policy_analysis.specs.Ceph16Syntax.{are_spaces, why};

/// Of a grant for which Ceph 16 reads some items in some order, nothing is told exactly where its items as they stand are in one of
/// the two orders that Ceph 16 reads, and spaces alone stand round the separator before it.
pub fn nothing_is_reported_where_it_is_read()
    ensures { (g : Grant) (items : List Item) (around : List ℕ) → HasCephText g → AreItemsOf items g
        → ((why around items ≡ None) ↔ (IsInCephOrder items × IsTrue (are_spaces around))) }
{}
