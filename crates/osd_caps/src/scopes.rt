//! Reading of the scope of a grant.
ghost use Rattle.std.specs.Prelude.{◌≡◌, ◌≤◌, length, None, Some, MatchOption, IfSome};
ghost use Rattle.osd_caps.specs.Scopes.{namespace_at, namespace_of, optional, place_at, pool_at, prefix_at, scope_at, tag_without};

use crate::bytes::behind;
use crate::keys::{behind_key, behind_spaced};
use crate::scope::{NamespaceRule, Scope, Tag};
use crate::tag_reading::read_tag;
use crate::word::Word;
use crate::words::{read_string, read_word};

// The name of the pool, if one stands there, and what follows.
fn read_pool(text: &[u8]) -> (Option<Word<'_>>, &[u8])
    ensures pool { result.0 ≡ (optional text.now (pool_at text.now)).0 }
    ensures rest { result.1.now ≡ (optional text.now (pool_at text.now)).1 }
    ensures shorter { length result.1.now ≤ length text.now }
{
    match read_pool_name(text) {
        Some((pool, rest)) => (Some(Word::of(pool)), rest),
        None => (None, text),
    }
}

#[tactic(auto, unfolding(crate::specs::Scopes::pool_at))]
fn read_pool_name(text: &[u8]) -> Option<(&[u8], &[u8])>
    ensures value { MatchOption result (pool_at text.now ≡ None) (λ f. pool_at text.now ≡ Some (f.0.now, f.1.now)) }
    ensures shorter { IfSome result (λ f. length f.1.now ≤ length text.now) }
{
    match behind_key(text, b"pool") {
        Some(rest) => read_word(rest),
        None => None,
    }
}

// How the names of objects begin, if that stands there, and what follows.
fn read_prefix(text: &[u8]) -> (Option<Word<'_>>, &[u8])
    ensures prefix { result.0 ≡ (optional text.now (prefix_at text.now)).0 }
    ensures rest { result.1.now ≡ (optional text.now (prefix_at text.now)).1 }
    ensures shorter { length result.1.now ≤ length text.now }
{
    match read_prefix_name(text) {
        Some((prefix, rest)) => (Some(Word::of(prefix)), rest),
        None => (None, text),
    }
}

#[tactic(auto, unfolding(crate::specs::Scopes::prefix_at))]
fn read_prefix_name(text: &[u8]) -> Option<(&[u8], &[u8])>
    ensures value { MatchOption result (prefix_at text.now ≡ None) (λ f. prefix_at text.now ≡ Some (f.0.now, f.1.now)) }
    ensures shorter { IfSome result (λ f. length f.1.now ≤ length text.now) }
{
    match behind_spaced(text, b"object_prefix") {
        Some(rest) => read_word(rest),
        None => None,
    }
}

// The rule for namespaces, if one stands there, and what follows.
fn read_namespace(text: &[u8]) -> (Option<NamespaceRule<'_>>, &[u8])
    ensures namespace { result.0 ≡ (optional text.now (namespace_at text.now)).0 }
    ensures rest { result.1.now ≡ (optional text.now (namespace_at text.now)).1 }
    ensures shorter { length result.1.now ≤ length text.now }
{
    match read_namespace_rule(text) {
        Some((namespace, rest)) => (Some(namespace), rest),
        None => (None, text),
    }
}

#[tactic(auto, unfolding(crate::specs::Scopes::namespace_at))]
fn read_namespace_rule(text: &[u8]) -> Option<(NamespaceRule<'_>, &[u8])>
    ensures value { MatchOption result (namespace_at text.now ≡ None) (λ f. namespace_at text.now ≡ Some (f.0, f.1.now)) }
    ensures shorter { IfSome result (λ f. length f.1.now ≤ length text.now) }
{
    let Some(behind_key) = behind_key(text, b"namespace") else {
        return None;
    };
    let Some((name, rest)) = read_string(behind_key) else {
        return None;
    };
    match behind(rest, b"*") {
        Some(behind_star) => Some((NamespaceRule::Prefix(Word::of(name)), behind_star)),
        None => Some((namespace_of(name), rest)),
    }
}

// The rule that a name is, behind which no star stands.
#[tactic(auto, unfolding(crate::specs::Scopes::namespace_of))]
fn namespace_of(name: &[u8]) -> NamespaceRule<'_>
    ensures { result ≡ namespace_of name.now }
{
    match name.strip_suffix(b"*") {
        Some(start) => NamespaceRule::Prefix(Word::of(start)),
        None => NamespaceRule::Exact(Word::of(name)),
    }
}

/// The pool and the rule for namespaces, each if it stands there, and what follows.
#[tactic(auto, unfolding(crate::specs::Scopes::place_at))]
pub(crate) fn read_place(text: &[u8]) -> (Option<Word<'_>>, Option<NamespaceRule<'_>>, &[u8])
    ensures pool { result.0 ≡ (place_at text.now).0 }
    ensures namespace { result.1 ≡ (place_at text.now).1 }
    ensures rest { result.2.now ≡ (place_at text.now).2 }
    ensures shorter { length result.2.now ≤ length text.now }
{
    let (pool, rest) = read_pool(text);
    let (namespace, rest) = read_namespace(rest);
    (pool, namespace, rest)
}

/// The scope of a grant, and what follows.
#[tactic(auto, unfolding(crate::specs::Scopes::scope_at))]
pub(crate) fn read_scope(text: &[u8]) -> (Scope<'_>, &[u8])
    ensures scope { result.0 ≡ (scope_at text.now).0 }
    ensures rest { result.1.now ≡ (scope_at text.now).1 }
    ensures shorter { length result.1.now ≤ length text.now }
{
    let (pool, namespace, rest) = read_place(text);
    match read_tag_without(&pool, rest) {
        Some((tag, rest)) => (
            Scope {
                pool,
                namespace,
                tag: Some(tag),
                prefix: None,
            },
            rest,
        ),
        None => {
            let (prefix, rest) = read_prefix(rest);
            (
                Scope {
                    pool,
                    namespace,
                    tag: None,
                    prefix,
                },
                rest,
            )
        }
    }
}

// The tag, if no pool stands before it and it is one.
fn read_tag_without<'a>(pool: &Option<Word<'_>>, text: &'a [u8]) -> Option<(Tag<'a>, &'a [u8])>
    ensures value { MatchOption result (tag_without pool.now text.now ≡ None) (λ f. tag_without pool.now text.now ≡ Some (f.0, f.1.now)) }
    ensures shorter { IfSome result (λ f. length f.1.now ≤ length text.now) }
{
    match pool {
        None => read_tag(text),
        Some(_) => None,
    }
}
