//! Keys, each once, in the order in which they came. Their bytes stand one after another in one list, and a key is found on a chain of
//! those that have the same number.
ghost use Rattle.std.specs.Prelude.{◌≡◌, ◌<◌, ◌≤◌, ◌++◌, [], ◌∷◌, ℕ, Some, IfOk, List, OnOk, ◌+◌, length, nat_eq, vec_capacity, vec_len, slice_get, slice_index, slice_set};
ghost use Rattle.std.specs.List.{list_any};
ghost use Rattle.std.specs.Cmp.Lexicographic.{pointwise};
ghost use Rattle.explore.specs.KeyTables.{AreEnds, AreLinked, IsTable, chain_of, hash_from, mixed, parts, start_of};

use std::alloc::{AllocError, Global};
use std::marker::Model;

/// What numbers are multiplied with: an odd number whose bits are mixed.
const FACTOR: u64 = 11_400_714_819_323_198_485;

/// How many keys there may be.
const MOST_KEYS: usize = 0xffff_fffe;

/// How many chains there are at least, where there is a key.
const LEAST_CHAINS: usize = 64;

/// Keys, each once.
#[derive(Drop)]
pub(crate) struct Keys {
    /// The bytes of all keys, one key after another.
    bytes: Vec<u8>,
    /// Where each key ends.
    ends: Vec<usize>,
    /// The chains.
    chains: Chains,
}

/// Chains of keys. A key is told by its number and one, and 0 tells of none.
#[derive(Drop)]
pub(crate) struct Chains {
    /// Of each chain the key with which it begins: the last that came.
    last: Vec<u32>,
    /// Of each key the one before it on its chain.
    before: Vec<u32>,
}

impl Model for Keys {
    ghost use Rattle.std.specs.Prelude.{List, ℕ};
    ghost use Rattle.explore.specs.KeyTables.{IsTable, parts};

    ghost Value = { List (List ℕ) };

    ghost view = { λ k. parts 0 k.ends.items k.bytes.items };

    ghost invariant = { λ k. IsTable k.bytes.items k.ends.items k.chains.last.items k.chains.before.items };
}

/// A number with one more byte in it.
#[tactic(auto, unfolding(crate::specs::KeyTables::mixed))]
fn mixed(hash: u64, byte: u8) -> u64
    ensures { result ≡ mixed hash byte }
{
    hash.wrapping_add(u64::from(byte)).wrapping_mul(FACTOR)
}

/// A number of bytes.
fn hash_of(bytes: &[u8]) -> u64
    ensures { result ≡ hash_from 0 bytes.now }
{
    let mut hash = 0;
    for byte in bytes {
        hash = mixed(hash, *byte);
    }
    hash
}

/// The chain, of so many, on which a key is.
fn chain_of(count: usize, key: &[u8]) -> usize
    requires { 0 < count }
    ensures value { result ≡ chain_of count key.now }
    ensures within { result < count }
{
    (hash_of(key) / 4_294_967_296) as usize % count
}

/// Where a part begins.
pub(crate) fn start_of(ends: &[usize], i: usize) -> usize
    requires { i < length ends.now }
    ensures { result ≡ start_of 0 ends.now i }
{
    if i == 0 {
        return 0;
    }
    ends[i - 1]
}

/// The bytes of a key.
fn key_at<'a>(bytes: &'a [u8], ends: &[usize], i: usize) -> &'a [u8]
    requires ends { AreEnds 0 ends.now (length bytes.now) }
    requires there { i < length ends.now }
    ensures { slice_get (parts 0 ends.now bytes.now) i ≡ Some result.now }
{
    let start = start_of(ends, i);
    let end = ends[i];
    &bytes[start..end]
}

/// One more key, with which a chain begins now. There is room for it.
fn link(last: &mut Vec<u32>, before: &mut Vec<u32>, chain: usize)
    requires chain { chain < length last.old.items }
    requires few { length before.old.items < 4294967295 }
    requires room { vec_len before.old < vec_capacity before.old }
    ensures last { last.new.items ≡ slice_set last.old.items chain (length before.old.items + 1) }
    ensures before { before.new.items ≡ before.old.items ++ slice_index last.old.items chain ∷ [] }
{
    let number = before.len();
    before.push_reserved(last[chain]);
    last[chain] = number as u32 + 1;
}

/// Chains of all keys, so many.
fn linked(alloc: Global, bytes: &[u8], ends: &[usize], count: usize) -> Result<Chains, AllocError>
    requires ends { AreEnds 0 ends.now (length bytes.now) }
    requires some { 0 < count }
    requires few { length ends.now < 4294967295 }
    ensures last { IfOk result (λ chains. length chains.last.items ≡ count) }
    ensures linked { IfOk result (λ chains. AreLinked (length ends.now) (parts 0 ends.now bytes.now) chains.last.items chains.before.items) }
{
    let mut last = vec![in alloc; 0; count]?;
    let mut before = Vec::new(alloc);
    for i in 0..ends.len() {
        before.reserve(1)?;
        link(
            &mut last,
            &mut before,
            chain_of(count, key_at(bytes, ends, i)),
        );
    }
    Ok(Chains { last, before })
}

/// Whether a key is there.
fn is_there(bytes: &[u8], ends: &[usize], last: &[u32], before: &[u32], key: &[u8]) -> bool
    requires { IsTable bytes.now ends.now last.now before.now }
    ensures { result ≡ list_any (pointwise nat_eq key.now) (parts 0 ends.now bytes.now) }
{
    if last.is_empty() {
        return false;
    }
    let mut at = last[chain_of(last.len(), key)] as usize;
    while at > 0 {
        if key_at(bytes, ends, at - 1) == key {
            return true;
        }
        at = before[at - 1] as usize;
    }
    false
}

/// Appends a key, for which there is a chain.
fn append(
    bytes: &mut Vec<u8>,
    ends: &mut Vec<usize>,
    chains: &mut Chains,
    key: &[u8],
) -> Result<(), AllocError>
    requires table { IsTable bytes.old.items ends.old.items chains.old.last.items chains.old.before.items }
    requires room { length ends.old.items < length chains.old.last.items }
    requires few { length ends.old.items < 4294967295 }
    ensures table { IsTable bytes.new.items ends.new.items chains.new.last.items chains.new.before.items }
    ensures keys { OnOk result (parts 0 ends.new.items bytes.new.items ≡ parts 0 ends.old.items bytes.old.items ++ key.now ∷ []) }
{
    let chain = chain_of(chains.last.len(), key);
    ends.reserve(1)?;
    chains.before.reserve(1)?;
    bytes.extend_from_slice(key)?;
    ends.push_reserved(bytes.len());
    link(&mut chains.last, &mut chains.before, chain);
    Ok(())
}

impl Keys {
    /// None yet.
    pub(crate) fn new(alloc: Global) -> Keys
        ensures { result ≡ [] }
    {
        Keys {
            bytes: Vec::new(alloc),
            ends: Vec::new(alloc),
            chains: Chains {
                last: Vec::new(alloc),
                before: Vec::new(alloc),
            },
        }
    }

    /// Whether a key of these bytes is among them.
    pub(crate) fn has(&self, key: &[u8]) -> bool
        ensures { result ≡ list_any (pointwise nat_eq key.now) self.now }
    {
        is_there(
            &self.bytes,
            &self.ends,
            &self.chains.last,
            &self.chains.before,
            key,
        )
    }

    /// Adds a key of these bytes, which is not among them.
    pub(crate) fn push(&mut self, alloc: Global, key: &[u8]) -> Result<(), AllocError>
        ensures { OnOk result (self.new ≡ self.old ++ key.now ∷ []) }
    {
        let number = self.ends.len();
        if number >= MOST_KEYS {
            return Err(AllocError);
        }
        if number >= self.chains.last.len() {
            self.chains = linked(alloc, &self.bytes, &self.ends, 2 * number + LEAST_CHAINS)?;
        }
        append(&mut self.bytes, &mut self.ends, &mut self.chains, key)
    }
}
