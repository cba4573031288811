//! What a release does its own way.

/// What releases do differently with the grants of a client. All else that is said of them is the same in each.
#[derive(Clone, Copy)]
pub struct Switches {
    /// The items of a grant are read in one of the orders `fsname path root_squash` and `path uid gids`, so that no uid stands beside fsname or
    /// root_squash, and no gids without a uid. Else all are read, in the order `fsname path root_squash uid gids`.
    pub has_two_orders: bool,
    /// A grant with `uid=0` is for every user, and its gids mean nothing. Else it is for root.
    pub zero_is_no_uid: bool,
    /// With each access a grant that names another file system fails. Else its fsname counts only when a client mounts.
    pub judges_fsname: bool,
    /// Slashes at the end of a grant's path mean nothing. Else the grant is for what lies below the directory, and not for itself.
    pub drops_last_slashes: bool,
    /// Clients of the release check changes of attributes themselves before they ask.
    pub clients_check: bool,
}
