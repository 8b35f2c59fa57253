//! Keys of two words, and how they are ranked.

/// Two words, a key if an order says so.
#[derive(Clone, Copy, PartialEq, Eq, Debug, Default)]
pub struct Key {
    /// The first word.
    pub hi: u64,
    /// The second word.
    pub lo: u64,
}

/// Where a key stands among others: keys that an order takes as the same have one rank.
#[derive(Clone, Copy, PartialEq, Eq, PartialOrd, Ord, Debug)]
pub struct Rank(pub u64, pub u64);

/// The orders of keys.
#[derive(Clone, Copy, PartialEq, Eq, Debug)]
pub enum Order {
    /// Trucks, and then seconds.
    Loads,
    /// Names of places, in which case does not count.
    Places,
}

// A to Z for a to z, byte by byte.
fn capitals(word: u64) -> u64 {
    let folded = word.to_be_bytes().map(|byte| match byte {
        b'a'..=b'z' => byte ^ 32,
        _ => byte,
    });
    u64::from_be_bytes(folded)
}

// Whether the bytes of a key are a name: 1 to 16 printed bytes, and zeros behind them.
fn is_name(key: Key) -> bool {
    let mut ended = false;
    for word in [key.hi, key.lo] {
        for byte in word.to_be_bytes() {
            match byte {
                0 => ended = true,
                33..=126 if !ended => {}
                _ => return false,
            }
        }
    }
    key.hi >> 56 != 0
}

impl Order {
    /// Whether two words are a key.
    pub fn is_key(self, key: Key) -> bool {
        match self {
            Order::Loads => 0 < key.hi && key.hi < 10_000 && key.lo < 1 << 32,
            Order::Places => is_name(key),
        }
    }

    /// The rank of two words, also of words that are no key.
    pub fn rank(self, key: Key) -> Rank {
        match self {
            Order::Loads => Rank(key.hi, key.lo),
            Order::Places => Rank(capitals(key.hi), capitals(key.lo)),
        }
    }
}
