//! Message authentication by a key, HMAC, with SHA-256 (RFC 2104). It takes no memory.
ghost use Rattle.std.specs.Prelude.{◌≡◌, ℕ, List, [], ◌+◌, ◌≤◌, ◌++◌, length, take, drop};
ghost use Rattle.sha2.specs.Sha256.{sha256};
ghost use Rattle.sm_sigv4.specs.Hmac.{padded, key_block, masked, hmac, IsMac};

use sha2::{Digest, Sha256};

/// How many bytes a block of SHA-256 has.
const BLOCK: usize = 64;

/// A code that is being made: the text comes piece by piece.
#[derive(Drop)]
pub struct Mac {
    inner: Sha256,
    outer: Sha256,
}

/// Writes a piece over what stands at a place.
fn place(block: &mut [u8; 64], at: usize, piece: &[u8])
    requires { at + length piece.now ≤ 64 }
    ensures { block.new ≡ take at block.old ++ piece.now ++ drop (at + length piece.now) block.old }
{
    let end = at + piece.len();
    block[at..end].copy_from_slice(piece);
}

/// The bytes of both parts in a block, with zeros behind them.
#[tactic(auto, using(crate::proofs::HmacLemmas::both_placed))]
fn padded(front: &[u8], back: &[u8]) -> [u8; 64]
    requires { length front.now + length back.now ≤ 64 }
    ensures { result ≡ padded (front.now ++ back.now) }
{
    let mut block = [0; BLOCK];
    place(&mut block, 0, front);
    place(&mut block, front.len(), back);
    block
}

/// The digest of both parts, one behind the other.
fn digest_of(front: &[u8], back: &[u8]) -> [u8; 32]
    ensures { result ≡ sha256 (front.now ++ back.now) }
{
    let mut hasher = Sha256::new();
    hasher.update(front);
    hasher.update(back);
    hasher.finalize()
}

/// The block of a key that comes in two parts.
fn key_block(front: &[u8], back: &[u8]) -> [u8; 64]
    ensures { result ≡ key_block (front.now ++ back.now) }
{
    if front.len() <= BLOCK && back.len() <= BLOCK - front.len() {
        padded(front, back)
    } else {
        padded(&digest_of(front, back), b"")
    }
}

/// The block with a byte added to each of its bytes.
#[tactic(auto, using(crate::proofs::HmacLemmas::masked_more))]
fn masked(byte: u8, block: &[u8; 64]) -> [u8; 64]
    ensures { result ≡ masked byte block.now }
{
    let mut bytes = [0; BLOCK];
    for at in 0..BLOCK {
        bytes[at] = block[at] ^ byte;
    }
    bytes
}

impl Mac {
    /// The code of no text yet, by a key that comes in two parts.
    pub fn of_parts(front: &[u8], back: &[u8]) -> Mac
        ensures { IsMac result (front.now ++ back.now) [] }
    {
        let block = key_block(front, back);
        let mut inner = Sha256::new();
        inner.update(masked(0x36, &block));
        let mut outer = Sha256::new();
        outer.update(masked(0x5c, &block));
        Mac { inner, outer }
    }

    /// Adds a piece at the end of the text.
    pub fn update(&mut self, piece: &[u8])
        ensures { (key text : List ℕ) → IsMac self.old key text → IsMac self.new key (text ++ piece.now) }
    {
        self.inner.update(piece);
    }

    /// The code of the text.
    pub fn finalize(self) -> [u8; 32]
        ensures { (key text : List ℕ) → IsMac self key text → result ≡ hmac key text }
    {
        let Mac { inner, mut outer } = self;
        outer.update(inner.finalize());
        outer.finalize()
    }
}

/// The code of a text by a key.
pub fn hmac(key: &[u8], text: &[u8]) -> [u8; 32]
    ensures { result ≡ hmac key.now text.now }
{
    let mut mac = Mac::of_parts(b"", key);
    mac.update(text);
    mac.finalize()
}
