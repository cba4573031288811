//! The clients that were thrown out.
ghost use Rattle.std.specs.Prelude.{◌≡◌, OnOk, OnErr};
ghost use Rattle.std.specs.Bool.{OnFalse};
ghost use Rattle.std.specs.FinSet as set;

use capbits::ClientId;
use std::alloc::{AllocError, Global};
use std::collections::BTreeSet;
use std::marker::Model;

// A set of clients.
#[derive(Debug)]
pub(crate) struct Blocklist {
    // By their numbers.
    clients: BTreeSet<u32>,
}

// Not derived: so the proof of a function that drops one has a single call there.
impl Drop for Blocklist {
    fn drop(self) {
        let Blocklist { clients: _ } = self;
    }
}

impl Model for Blocklist {
    ghost use Rattle.std.specs.Coded.{coded_ℕ};
    ghost use Rattle.std.specs.Ordering.{nat_cmp};
    ghost use Rattle.std.specs.FinSet as set;

    ghost Value = { set.FinSet nat_cmp };

    ghost coded = { set.code coded_ℕ };

    ghost view = { λ b. set.from_list b.clients.keys };
}

impl Blocklist {
    // Nobody.
    pub(crate) fn new(alloc: Global) -> Blocklist
        ensures { result ≡ set.empty }
    {
        Blocklist {
            clients: BTreeSet::new(alloc),
        }
    }

    // How many clients there are.
    pub(crate) fn len(&self) -> usize
        ensures { result ≡ set.len self.now }
    {
        self.clients.len()
    }

    // Whether the client is one of them.
    pub(crate) fn contains(&self, client: ClientId) -> bool
        ensures { result ≡ set.contains self.now client.0 }
    {
        self.clients.contains(&client.0)
    }

    // Takes the client in.
    pub(crate) fn insert(&mut self, client: ClientId) -> Result<(), AllocError>
        ensures ok { OnOk result (self.new ≡ set.insert self.old client.0) }
        ensures err { OnErr result (self.new ≡ self.old) }
    {
        self.clients.insert(client.0)?;
        Ok(())
    }

    // Lets the client out, and answers whether it was in.
    pub(crate) fn remove(&mut self, client: ClientId) -> bool
        ensures had { result ≡ set.contains self.old client.0 }
        ensures out { self.new ≡ set.remove self.old client.0 }
        ensures unchanged { OnFalse result (self.new ≡ self.old) }
    {
        self.clients.remove(&client.0)
    }
}
