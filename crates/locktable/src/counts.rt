//! How many clients the gathers of an inode wait for.
ghost use Rattle.std.specs.Prelude.{◌≡◌};
ghost use Rattle.locktable.specs.GatherCounts as words;

use capbits::Part;

/// How many clients the gather of each of the four locks of an inode waits for: those that hold a cap which its target does not allow
/// them. Of a lock that is stable it says nothing.
#[derive(Clone, Copy, Debug)]
pub struct Counts {
    /// The gather of the owner, the group and the mode.
    pub auth: u32,
    /// The gather of the link count.
    pub link: u32,
    /// The gather of the extended attributes.
    pub xattr: u32,
    /// The gather of the data, with size and times.
    pub file: u32,
}

impl Counts {
    /// All four are 0.
    pub fn none() -> Counts
        ensures { result ≡ words.no_counts }
    {
        Counts {
            auth: 0,
            link: 0,
            xattr: 0,
            file: 0,
        }
    }

    /// That of a part's lock.
    pub fn of_part(&self, part: Part) -> u32
        ensures { result ≡ words.count_in part self.now }
    {
        match part {
            Part::A => self.auth,
            Part::L => self.link,
            Part::X => self.xattr,
            Part::F => self.file,
        }
    }

    /// The gather of a part's lock waits for so many from now on.
    pub fn set(&mut self, part: Part, count: u32)
        ensures { self.new ≡ words.with_count_in part count self.old }
    {
        match part {
            Part::A => self.auth = count,
            Part::L => self.link = count,
            Part::X => self.xattr = count,
            Part::F => self.file = count,
        }
    }

    /// The gather of a part's lock waits for one less; for nobody still, where it waited for nobody.
    pub fn count_down(&mut self, part: Part)
        ensures { self.new ≡ words.one_less_in part self.old }
    {
        let count = self.of_part(part);
        self.set(part, count.saturating_sub(1));
    }
}
