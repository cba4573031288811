//! Of which objects a grant speaks.

use crate::tags::{Application, Pair};
use crate::word::Word;

/// Of which namespaces a grant speaks.
#[derive(Drop)]
pub enum NamespaceRule<'a> {
    /// This one alone. The empty name is the default namespace.
    Exact(Word<'a>),
    /// All whose names begin so.
    Prefix(Word<'a>),
}

/// The key or the value of a tag.
#[derive(Drop)]
pub enum TagPart<'a> {
    /// Any, written as `*` or `all`.
    Any,
    /// This one.
    Exact(Word<'a>),
}

/// What the pool of an object has to be tagged with.
pub struct Tag<'a> {
    /// An application of the pool, such as `cephfs`.
    pub application: Word<'a>,
    /// A key that the pool has for the application, such as `data`.
    pub key: TagPart<'a>,
    /// The value of that key, such as the name of a file system.
    pub value: TagPart<'a>,
}

// By hand, so that whoever lets one go has one call to prove.
impl Drop for Tag<'_> {
    fn drop(self) {
        let Tag {
            application: _,
            key: _,
            value: _,
        } = self;
    }
}

/// Of which objects a grant speaks: of all that meet each of these that is there.
pub struct Scope<'a> {
    /// The name of their pool.
    pub pool: Option<Word<'a>>,
    /// Their namespace.
    pub namespace: Option<NamespaceRule<'a>>,
    /// What their pool is tagged with.
    pub tag: Option<Tag<'a>>,
    /// How their names begin.
    pub prefix: Option<Word<'a>>,
}

// By hand, so that whoever lets one go has one call to prove.
impl Drop for Scope<'_> {
    fn drop(self) {
        let Scope {
            pool: _,
            namespace: _,
            tag: _,
            prefix: _,
        } = self;
    }
}

impl Scope<'_> {
    ghost use Rattle.std.specs.Prelude.{◌≡◌};
    ghost use Rattle.osd_caps.specs.Opening.{begins_name, is_in_scope, is_of_namespace, is_of_pool, is_tagged};

    /// Whether it has this pool, which is tagged so, and this namespace.
    pub(crate) fn contains(&self, pool: &[u8], namespace: &[u8], tags: &[Application<'_>]) -> bool
        ensures { result ≡ is_in_scope self.now pool.now namespace.now tags.now }
    {
        self.is_of_pool(pool) && self.is_of_namespace(namespace) && self.is_tagged(tags)
    }

    fn is_of_pool(&self, pool: &[u8]) -> bool
        ensures { result ≡ is_of_pool self.now.pool pool.now }
    {
        match &self.pool {
            Some(own) => own.as_bytes() == pool,
            None => true,
        }
    }

    fn is_of_namespace(&self, namespace: &[u8]) -> bool
        ensures { result ≡ is_of_namespace self.now.namespace namespace.now }
    {
        match &self.namespace {
            Some(NamespaceRule::Exact(own)) => own.as_bytes() == namespace,
            Some(NamespaceRule::Prefix(start)) => namespace.starts_with(start.as_bytes()),
            None => true,
        }
    }

    fn is_tagged(&self, tags: &[Application<'_>]) -> bool
        ensures { result ≡ is_tagged self.now.tag tags.now }
    {
        match &self.tag {
            Some(tag) => tag.fits_some(tags),
            None => true,
        }
    }

    /// Whether a name begins as it says.
    pub(crate) fn begins(&self, name: &[u8]) -> bool
        ensures { result ≡ begins_name self.now.prefix name.now }
    {
        match &self.prefix {
            Some(start) => name.starts_with(start.as_bytes()),
            None => true,
        }
    }
}

impl Tag<'_> {
    ghost use Rattle.std.specs.Prelude.{◌≡◌, ◌&&◌};
    ghost use Rattle.std.specs.List.{list_any};
    ghost use Rattle.osd_caps.specs.Opening.{fits_application, fits_pair, fits_pairs, is_any};

    // Whether one of the applications of a pool fits.
    fn fits_some(&self, tags: &[Application<'_>]) -> bool
        ensures { result ≡ list_any (fits_application self.now) tags.now }
    {
        for application in tags {
            if self.fits(application) {
                return true;
            }
        }
        false
    }

    // Whether an application of the pool is the one that it names, with pairs that fit.
    #[tactic(auto, unfolding(crate::specs::Opening::fits_application))]
    fn fits(&self, application: &Application<'_>) -> bool
        ensures { result ≡ fits_application self.now application.now }
    {
        self.application.as_bytes() == application.name && self.fits_pairs(application.pairs)
    }

    #[tactic(auto, unfolding(crate::specs::Opening::fits_pairs))]
    fn fits_pairs(&self, pairs: &[Pair<'_>]) -> bool
        ensures { result ≡ fits_pairs self.now pairs.now }
    {
        self.is_any() || self.fits_some_pair(pairs)
    }

    // Whether it names no key and no value.
    fn is_any(&self) -> bool
        ensures { result ≡ (is_any self.now.key && is_any self.now.value) }
    {
        self.key.is_any() && self.value.is_any()
    }

    fn fits_some_pair(&self, pairs: &[Pair<'_>]) -> bool
        ensures { result ≡ list_any (fits_pair self.now) pairs.now }
    {
        for pair in pairs {
            if self.fits_pair(pair) {
                return true;
            }
        }
        false
    }

    #[tactic(auto, unfolding(crate::specs::Opening::fits_pair))]
    fn fits_pair(&self, pair: &Pair<'_>) -> bool
        ensures { result ≡ fits_pair self.now pair.now }
    {
        self.key.fits(pair.key) && self.value.fits(pair.value)
    }
}

impl TagPart<'_> {
    ghost use Rattle.std.specs.Prelude.{◌≡◌};
    ghost use Rattle.osd_caps.specs.Opening.{fits, is_any};

    fn fits(&self, word: &[u8]) -> bool
        ensures { result ≡ fits self.now word.now }
    {
        match self {
            TagPart::Any => true,
            TagPart::Exact(own) => own.as_bytes() == word,
        }
    }

    fn is_any(&self) -> bool
        ensures { result ≡ is_any self.now }
    {
        matches!(self, TagPart::Any)
    }
}
