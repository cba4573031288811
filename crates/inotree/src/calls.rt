//! The changes of a tree that make their tests themselves. Each is refused by the first that fails, in the order in which its
//! comment names them, and changes nothing then; want of memory comes last.
ghost use Rattle.std.specs.Prelude.{◌≡◌, ◌+◌, IfOk, OnOk, OnErr};
ghost use Rattle.std.specs.Result.{result_err};
ghost use Rattle.capbits.specs.Refusal.{first_failing, refusal_in};
ghost use Rattle.inotree.specs.Inodes.{with_attribute, with_setting, with_snapshot, without_attribute, without_snapshot};
ghost use Rattle.inotree.specs.Tests.{create_tests, remove_xattr_tests, rename_tests, rmdir_tests, set_tests, set_xattr_tests, snap_add_tests};
ghost use Rattle.inotree.specs.Tests.{snap_remove_tests, unlink_tests};
ghost use Rattle.inotree.specs.Calls.{changed, moved, unlinked, with_new};

use crate::node::Setting;
use crate::tree::Tree;
use capbits::{ChangeError, Ino, Refusal};
use capgrant::Attr;

impl Tree {
    ghost use Rattle.inotree.specs.declared.node.Kind.TheVariants as kinds;

    // ---- what would be refused

    // Why no inode can be made in a directory under a name.
    fn create_refusal(&self, dir: Ino, name: &[u8]) -> Option<Refusal>
        ensures { result ≡ first_failing (create_tests self.now dir.0 name.now) }
    {
        let here = self.inode_refusal(dir);
        here.or(self.new_inode_refusal(dir, name))
    }

    // Why an inode can't be given this value of an attribute.
    fn set_xattr_refusal(&self, ino: Ino, name: &[u8], value: &[u8]) -> Option<Refusal>
        ensures { result ≡ first_failing (set_xattr_tests self.now ino.0 name.now value.now) }
    {
        let here = self.inode_refusal(ino);
        here.or(self.new_attribute_refusal(ino, name, value))
    }

    // Why a directory can't be given a snapshot of this name.
    fn snap_add_refusal(&self, ino: Ino, name: &[u8]) -> Option<Refusal>
        ensures { result ≡ first_failing (snap_add_tests self.now ino.0 name.now) }
    {
        let here = self.inode_refusal(ino);
        here.or(self.new_snapshot_refusal(ino, name))
    }

    /// What `rmdir` would be refused as now; none where it would not be.
    pub fn rmdir_fault(&self, ino: Ino) -> Option<Refusal>
        ensures { result ≡ first_failing (rmdir_tests self.now ino.0) }
    {
        let here = self.inode_refusal(ino);
        here.or(self.root_refusal(ino)).or(self.empty_refusal(ino))
    }

    /// What `rename` would be refused as now, want of memory apart; none where it would not be.
    pub fn rename_fault(&self, ino: Ino, dir: Ino, name: &[u8]) -> Option<Refusal>
        ensures { result ≡ first_failing (rename_tests self.now ino.0 dir.0 name.now) }
    {
        let here = self.inode_refusal(ino);
        let before = here.or(self.root_refusal(ino)).or(self.inode_refusal(dir));
        // Whether the new site will do may take a walk over all below.
        if let Some(refusal) = before {
            return Some(refusal);
        }
        self.new_site_refusal(ino, dir, name)
    }

    // ---- changes

    /// Makes a file in a directory, with this owner, group and mode, and answers its number. It is refused as NoIno, Gone,
    /// NotDir, NameBad, Exists, TooDeep, or Limit.
    pub fn create(&mut self, dir: Ino, name: &[u8], attr: Attr) -> Result<Ino, ChangeError>
        ensures refused { refusal_in result ≡ first_failing (create_tests self.old dir.0 name.now) }
        ensures ok { OnOk result (self.new ≡ with_new self.old kinds.File dir.0 name.now attr) }
        ensures ino { IfOk result (λ ino. ino.0 ≡ self.old.last + 1) }
        ensures err { OnErr result (self.new ≡ self.old) }
    {
        if let Some(refusal) = self.create_refusal(dir, name) {
            return Err(ChangeError::Refused(refusal));
        }
        let ino = self.create_tested(dir, name, attr)?;
        Ok(ino)
    }

    /// Makes a directory in a directory, with this owner, group and mode, and answers its number. It is refused as `create`
    /// is.
    pub fn mkdir(&mut self, dir: Ino, name: &[u8], attr: Attr) -> Result<Ino, ChangeError>
        ensures refused { refusal_in result ≡ first_failing (create_tests self.old dir.0 name.now) }
        ensures ok { OnOk result (self.new ≡ with_new self.old kinds.Directory dir.0 name.now attr) }
        ensures ino { IfOk result (λ ino. ino.0 ≡ self.old.last + 1) }
        ensures err { OnErr result (self.new ≡ self.old) }
    {
        if let Some(refusal) = self.create_refusal(dir, name) {
            return Err(ChangeError::Refused(refusal));
        }
        let ino = self.mkdir_tested(dir, name, attr)?;
        Ok(ino)
    }

    /// Unlinks a file, which stays as a stray until it is forgotten. It is refused as NoIno, Gone, Root, or IsDir.
    pub fn unlink(&mut self, ino: Ino) -> Result<(), Refusal>
        ensures refused { result_err result ≡ first_failing (unlink_tests self.old ino.0) }
        ensures ok { OnOk result (self.new ≡ unlinked self.old ino.0) }
        ensures err { OnErr result (self.new ≡ self.old) }
    {
        let here = self.inode_refusal(ino);
        if let Some(refusal) = here.or(self.root_refusal(ino)).or(self.file_refusal(ino)) {
            return Err(refusal);
        }
        self.unlink_tested(ino);
        Ok(())
    }

    /// Removes an empty directory, which stays as a stray until it is forgotten. It is refused as NoIno, Gone, Root, NotDir,
    /// or NotEmpty: a child or a snapshot.
    pub fn rmdir(&mut self, ino: Ino) -> Result<(), Refusal>
        ensures refused { result_err result ≡ first_failing (rmdir_tests self.old ino.0) }
        ensures ok { OnOk result (self.new ≡ unlinked self.old ino.0) }
        ensures err { OnErr result (self.new ≡ self.old) }
    {
        if let Some(refusal) = self.rmdir_fault(ino) {
            return Err(refusal);
        }
        self.rmdir_tested(ino);
        Ok(())
    }

    /// Moves an inode into a directory, under a name. It is refused as NoIno, Gone, or Root of the inode, as NoIno, or Gone
    /// of the directory, or as NotDir, NameBad, Exists, Loop, or TooDeep.
    pub fn rename(&mut self, ino: Ino, dir: Ino, name: &[u8]) -> Result<(), ChangeError>
        ensures refused { refusal_in result ≡ first_failing (rename_tests self.old ino.0 dir.0 name.now) }
        ensures ok { OnOk result (self.new ≡ moved self.old ino.0 dir.0 name.now) }
        ensures err { OnErr result (self.new ≡ self.old) }
    {
        if let Some(refusal) = self.rename_fault(ino, dir, name) {
            return Err(ChangeError::Refused(refusal));
        }
        self.rename_tested(ino, dir, name)?;
        Ok(())
    }

    /// Sets a field of an inode. It is refused as NoIno, Gone, or, where a size is set, as IsDir.
    pub fn set(&mut self, ino: Ino, setting: Setting) -> Result<(), Refusal>
        ensures refused { result_err result ≡ first_failing (set_tests self.old ino.0 setting) }
        ensures ok { OnOk result (self.new ≡ changed (with_setting setting) self.old ino.0) }
        ensures err { OnErr result (self.new ≡ self.old) }
    {
        let here = self.inode_refusal(ino);
        if let Some(refusal) = here.or(self.setting_refusal(ino, &setting)) {
            return Err(refusal);
        }
        self.set_tested(ino, setting);
        Ok(())
    }

    /// Gives an attribute of an inode a value, in place of the one that it may have. It is refused as NoIno, Gone, NameBad,
    /// or Limit: a value that is too long, or an attribute too many.
    pub fn set_xattr(&mut self, ino: Ino, name: &[u8], value: &[u8]) -> Result<(), ChangeError>
        ensures refused { refusal_in result ≡ first_failing (set_xattr_tests self.old ino.0 name.now value.now) }
        ensures ok { OnOk result (self.new ≡ changed (with_attribute name.now value.now) self.old ino.0) }
        ensures err { OnErr result (self.new ≡ self.old) }
    {
        if let Some(refusal) = self.set_xattr_refusal(ino, name, value) {
            return Err(ChangeError::Refused(refusal));
        }
        self.set_xattr_tested(ino, name, value)?;
        Ok(())
    }

    /// Removes an attribute from an inode. It is refused as NoIno, Gone, or NoXattr.
    pub fn remove_xattr(&mut self, ino: Ino, name: &[u8]) -> Result<(), Refusal>
        ensures refused { result_err result ≡ first_failing (remove_xattr_tests self.old ino.0 name.now) }
        ensures ok { OnOk result (self.new ≡ changed (without_attribute name.now) self.old ino.0) }
        ensures err { OnErr result (self.new ≡ self.old) }
    {
        let here = self.inode_refusal(ino);
        if let Some(refusal) = here.or(self.old_attribute_refusal(ino, name)) {
            return Err(refusal);
        }
        self.remove_xattr_tested(ino, name);
        Ok(())
    }

    /// Gives a directory a snapshot of this name. It is refused as NoIno, Gone, NotDir, NameBad, Exists, or Limit.
    pub fn snap_add(&mut self, ino: Ino, name: &[u8]) -> Result<(), ChangeError>
        ensures refused { refusal_in result ≡ first_failing (snap_add_tests self.old ino.0 name.now) }
        ensures ok { OnOk result (self.new ≡ changed (with_snapshot name.now) self.old ino.0) }
        ensures err { OnErr result (self.new ≡ self.old) }
    {
        if let Some(refusal) = self.snap_add_refusal(ino, name) {
            return Err(ChangeError::Refused(refusal));
        }
        self.snap_add_tested(ino, name)?;
        Ok(())
    }

    /// Removes a snapshot name from a directory. It is refused as NoIno, Gone, NotDir, or NoEnt.
    pub fn snap_remove(&mut self, ino: Ino, name: &[u8]) -> Result<(), Refusal>
        ensures refused { result_err result ≡ first_failing (snap_remove_tests self.old ino.0 name.now) }
        ensures ok { OnOk result (self.new ≡ changed (without_snapshot name.now) self.old ino.0) }
        ensures err { OnErr result (self.new ≡ self.old) }
    {
        let here = self.inode_refusal(ino);
        if let Some(refusal) = here.or(self.old_snapshot_refusal(ino, name)) {
            return Err(refusal);
        }
        self.snap_remove_tested(ino, name);
        Ok(())
    }
}
