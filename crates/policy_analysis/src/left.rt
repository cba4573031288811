//! What the grant that allows leaves to the client.
ghost use Rattle.std.specs.Prelude.{◌≡◌, ◌≤◌, length};
ghost use Rattle.policy_analysis.specs.Left.{left_to_client};

use capgrant::Question;
use capspec::Grants;

/// The number of the first grant that allows what is asked, from 1, if it names no user. Such a grant looks at neither the owner
/// nor the group nor the mode of the inode, and leaves them to the client.
pub fn left_to_client(question: &Question<'_>, grants: &Grants) -> Option<u32>
    ensures { result ≡ left_to_client question.now grants.now }
{
    let grants = grants.as_slice();
    let place = question.first_allowing(grants)?;
    let grant = grants.get(place)?;
    if grant.uid.is_none() {
        Some(place as u32 + 1)
    } else {
        None
    }
}
