// The registry: which contexts are known, and of which kind.
#![tactic(auto)]

ghost use Rattle.std.specs.Prelude.{◌≡◌, ◌||◌, eqb};
ghost use Rattle.rules.specs.General.{every, every_two};
ghost use Rattle.registry.specs.Contexts.{contexts_apart};
ghost use Rattle.rules.specs.Registry.{kind_of, is_unused, is_entry, is_usable, entries_apart, registry_sound};

use lists::every_two;
use rules::{Context, Entry};

// The kind of a context: 1 of 1998, 2 of 2000, 0 where it is not registered.
// As it was: 0 stands for none: kind_of of rules answers it, and an entry's kind is an octet.
pub fn kind_of(registry: &[Entry; 8], context: Context) -> u8
    ensures { result ≡ kind_of registry.now context.0 }
{
    registry
        .iter()
        .find(|e| e.context == context)
        .map_or(0, |e| e.kind)
}

// Whether an entry is all zero.
// As it was: the kind is a number: is_unused of rules, and an entry's octet.
fn is_unused(e: Entry) -> bool
    ensures { result ≡ is_unused e }
{
    (e.kind == 0) & (e.context.0 == 0)
}

// Whether a kind octet is that of a registered context.
fn is_known(kind: u8) -> bool
    ensures { result ≡ (eqb kind 1 || eqb kind 2) }
{
    matches!(kind, 1 | 2)
}

// Whether an entry has a known kind and a context in range.
pub fn is_entry(e: Entry) -> bool
    ensures { result ≡ is_entry e }
{
    is_known(e.kind) & ((1 <= e.context.0) & (e.context.0 <= 16383))
}

// Whether no context is listed twice.
pub fn all_apart(registry: &[Entry; 8]) -> bool
    ensures { result ≡ every_two entries_apart registry.now }
{
    every_two(
        registry,
        |d, e| is_unused(*d) | is_unused(*e) | (d.context != e.context),
    )
}

// Whether every entry is unused or in range. With no way out of the loop it takes a few instructions for each.
fn all_usable(registry: &[Entry; 8]) -> bool
    ensures { result ≡ every is_usable registry.now }
{
    registry
        .iter()
        .fold(true, |usable, e| usable & (is_unused(*e) | is_entry(*e)))
}

// Whether no context but 0 stands twice. By `||`, so that an unused entry is compared with none.
fn contexts_differ(registry: &[Entry; 8]) -> bool
    ensures { result ≡ every_two contexts_apart registry.now }
{
    every_two(registry, |d, e| d.context.0 == 0 || d.context != e.context)
}

// Whether the registry is sound. Where every entry is usable, those with context 0 are the unused ones.
pub fn is_sound(registry: &[Entry; 8]) -> bool
    ensures { result ≡ registry_sound registry.now }
{
    all_usable(registry) & contexts_differ(registry)
}
