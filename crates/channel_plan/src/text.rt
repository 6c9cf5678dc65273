//! Texts that lie in a row itself.
ghost use Rattle.std.specs.Prelude.{◌≡◌, ◌≤◌, length, nat_le, Some, None, if◌then◌else◌};

use std::marker::Model;

/// A text of at most `N` bytes, which lie in the value itself, so that a row that holds it is `Copy`.
#[derive(Clone, Copy, PartialEq, Eq)]
pub struct ShortText<const N: usize> {
    bytes: [u8; N],
    len: usize,
}

impl<const N: usize> Model for ShortText<N> {
    ghost use Rattle.std.specs.Prelude.{◌≡◌, ◌≤◌, ◌-◌, ◌++◌, ℕ, List, length, take, drop};
    ghost use Rattle.std.proofs.Math.ListN.{replicate};
    ghost use Rattle.std.proofs.Common.{arith, ◌∙◌, sym, ap, take-append-drop, length-take-le};

    ghost Value = { List ℕ };

    ghost view = { λ t. take t.len t.bytes };

    ghost invariant = { λ t. (t.len ≤ N) × (length t.bytes ≡ N) × (drop t.len t.bytes ≡ replicate (N - t.len) 0) };

    ghost inverse = { λ text. record { bytes = text ++ replicate (N - length text) 0; len = length text } };

    ghost inverse_ok = { λ t h i. record {
      bytes = (ap (λ n. take t.len t.bytes ++ replicate (N - n) 0)
          (length-take-le t.len t.bytes (omega (arith, h.0, h.1)))
          ∙ ap (λ text. take t.len t.bytes ++ text) (sym h.2)
          ∙ take-append-drop t.len t.bytes) i;
      len = length-take-le t.len t.bytes (omega (arith, h.0, h.1)) i;
    } };
}

impl<const N: usize> ShortText<N> {
    /// This text, or `None` where it has more than `N` bytes.
    pub fn of(text: &[u8]) -> Option<ShortText<N>>
        ensures { result ≡ (if nat_le (length text.now) N then Some text.now else None) }
    {
        if text.len() <= N {
            Some(ShortText::fitting(text))
        } else {
            None
        }
    }

    fn fitting(text: &[u8]) -> ShortText<N>
        requires { length text.now ≤ N }
        ensures { result ≡ text.now }
    {
        let mut bytes = [0; N];
        bytes[..text.len()].copy_from_slice(text);
        ShortText {
            bytes,
            len: text.len(),
        }
    }

    /// Its bytes.
    pub fn as_bytes(&self) -> &[u8]
        ensures text { result.now ≡ self.now }
        ensures fits { length result.now ≤ N }
    {
        &self.bytes[..self.len]
    }
}
