//! Place keys, a name of 1 to 16 printed bytes, and their order, in which case does not count.
ghost use Rattle.std.specs.Prelude.{◌≡◌, ◌-◌, ◌≤◌, ◌++◌, true, length, take, replicate, Some, codes};
ghost use Rattle.order.specs.Places.{text, unpadded, all_printed, is_name, is_place, folded, by_folded_bytes, places, place_laws};
ghost use Rattle.order.specs.Places.{key_of_name, NamesAndKeys};

use crate::keys::Key;
use crate::orders::Order;
use std::cmp::Ordering;
use std::error::Error;
use std::fmt;

// The longest name of a place, in bytes.
const LONGEST_NAME: usize = 16;

/// The name of a place: the first `len` bytes of its text, which is 0 from there on.
// An array and a length, in fixed memory; the zeros behind the name are those of its key.
#[derive(Clone, Copy, PartialEq, Eq, Debug, Hash)]
pub struct PlaceName {
    text: [u8; LONGEST_NAME],
    len: usize,
    ghost within: { len ≤ length text },
    ghost named: { is_name (take len text) ≡ true },
    ghost padded: { unpadded text ≡ take len text },
}

/// Bytes, or a key, that are no name of a place.
#[derive(Clone, Copy, PartialEq, Eq, Debug, Hash)]
pub struct NoName;

// The bytes of both words, as a name has them. No `From`, nor in `key_of`: one between `Key` and 16 bytes would
// publish for every key what only a place key means, and neither type is a place key's own.
#[tactic(auto, unfolding(crate::specs::Places::text))]
fn text_of(key: Key) -> [u8; LONGEST_NAME]
    ensures { result ≡ text key }
{
    let mut text = [0; LONGEST_NAME];
    text[..8].copy_from_slice(&key.hi.to_be_bytes());
    text[8..].copy_from_slice(&key.lo.to_be_bytes());
    text
}

// The key that has a text.
fn key_of(text: [u8; LONGEST_NAME]) -> Key
    ensures { result ≡ key_of_name text }
{
    let [a, b, c, d, e, f, g, h, i, j, k, l, m, n, o, p] = text;
    Key {
        hi: u64::from_be_bytes([a, b, c, d, e, f, g, h]),
        lo: u64::from_be_bytes([i, j, k, l, m, n, o, p]),
    }
}

// A text up to its last byte that is not 0.
#[tactic(auto, using(crate::proofs::Padding::unpadded_front, crate::proofs::Padding::unpadded_whole))]
fn without_padding(mut text: &[u8]) -> &[u8]
    ensures { result.now ≡ unpadded text.now }
{
    while let [rest @ .., 0] = text {
        text = rest;
    }
    text
}

// How much of a text is not padding.
#[tactic(auto, using(crate::proofs::Padding::unpadded_is_front, crate::proofs::Padding::unpadded_no_longer))]
fn name_length(text: &[u8]) -> usize
    ensures within { result ≤ length text.now }
    ensures front { take result text.now ≡ unpadded text.now }
{
    without_padding(text).len()
}

// A name with zeros up to the length of a text. It is required to be no longer, as `is_name` has told the caller.
fn padded(name: &[u8]) -> [u8; LONGEST_NAME]
    requires { length name.now ≤ 16 }
    ensures { result ≡ name.now ++ replicate (16 - length name.now) 0 }
{
    let mut text = [0; LONGEST_NAME];
    text[..name.len()].copy_from_slice(name);
    text
}

// A blank is not printed, so no name holds one.
fn all_printed(bytes: &[u8]) -> bool
    ensures { result ≡ all_printed bytes.now }
{
    bytes.iter().all(|byte| byte.is_ascii_graphic())
}

fn is_name(bytes: &[u8]) -> bool
    ensures { result ≡ is_name bytes.now }
{
    (1..=LONGEST_NAME).contains(&bytes.len()) && all_printed(bytes)
}

impl PlaceName {
    ghost use Rattle.order.specs.PlaceNames.{held_bytes};

    /// The bytes of the name.
    pub fn bytes(&self) -> &[u8]
        ensures held { result.now ≡ held_bytes self.now }
        ensures named { is_name result.now ≡ true }
    {
        &self.text[..self.len]
    }
}

impl TryFrom<&[u8]> for PlaceName {
    ghost use Rattle.order.specs.PlaceNames.{HoldsBytes};

    type Error = NoName;

    ghost try_from_gives = { λ bytes. HoldsBytes bytes.now };

    #[tactic(auto, using(crate::proofs::Names::held_when_padded, crate::proofs::Names::names_and_keys))]
    fn try_from(bytes: &[u8]) -> Result<Self, NoName>
        ensures name { HoldsBytes bytes.now result }
        ensures inverse { NamesAndKeys }
    {
        if !is_name(bytes) {
            return Err(NoName);
        }
        Ok(PlaceName {
            text: padded(bytes),
            len: bytes.len(),
        })
    }
}

impl TryFrom<Key> for PlaceName {
    ghost use Rattle.order.specs.PlaceNames.{HoldsNameOf};

    type Error = NoName;

    ghost try_from_gives = { HoldsNameOf };

    #[tactic(auto, using(crate::proofs::Names::names_and_keys))]
    fn try_from(key: Key) -> Result<Self, NoName>
        ensures name { HoldsNameOf key result }
        ensures inverse { NamesAndKeys }
    {
        let text = text_of(key);
        let len = name_length(&text);
        if !is_name(&text[..len]) {
            return Err(NoName);
        }
        Ok(PlaceName { text, len })
    }
}

impl From<PlaceName> for Key {
    ghost use Rattle.order.specs.PlaceNames.{IsKeyOf};

    ghost from_gives = { IsKeyOf };

    #[tactic(auto, using(crate::proofs::Names::held_key, crate::proofs::Names::names_and_keys))]
    fn from(name: PlaceName) -> Key
        ensures key { IsKeyOf name result }
        ensures inverse { NamesAndKeys }
    {
        key_of(name.text)
    }
}

// Written by hand: the derive of `thiserror` says nothing of what is printed, and this does.
impl fmt::Display for NoName {
    ghost output = { λ _. Some (codes "no name of 1 to 16 printed bytes") };

    fn fmt<W: fmt::Write>(&self, f: &mut fmt::Formatter<W>) -> fmt::Result {
        f.write_str("no name of 1 to 16 printed bytes")
    }
}

impl Error for NoName {}

// Small letters as great ones, so that case does not count.
fn folded(byte: &u8) -> u8
    ensures { result ≡ folded byte.now }
{
    byte.to_ascii_uppercase()
}

// The first byte that differs, once folded, decides; those behind it are not folded.
fn compare_folded(a: [u8; LONGEST_NAME], b: [u8; LONGEST_NAME]) -> Ordering
    ensures { result ≡ by_folded_bytes a b }
{
    a.iter().map(folded).cmp(b.iter().map(folded))
}

/// The order of places: byte by byte from the first, with a to z taken as A to Z.
#[derive(Clone, Copy, PartialEq, Eq, Debug, Default)]
pub struct FoldedPlaceOrder;

impl Order for FoldedPlaceOrder {
    ghost keyed = { is_place };

    ghost compared = { places };

    ghost lawful = { place_laws };

    fn is_key(k: Key) -> bool {
        is_name(without_padding(&text_of(k)))
    }

    fn compare(a: Key, b: Key) -> Ordering {
        compare_folded(text_of(a), text_of(b))
    }
}
