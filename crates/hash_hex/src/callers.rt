//! Examples of what callers can prove that sort such values, or use them as keys of a map. These functions are not
//! exported.

ghost use Rattle.std.specs.Prelude.{◌≡◌, fold};
ghost use Rattle.std.specs.Ordering.{nat_cmp};
ghost use Rattle.std.specs.Cmp.Lexicographic.{slice_cmp};
ghost use Rattle.hash_hex.specs.Fixed.{fixed_bytes};

use crate::fixed::FixedBytes;
use std::cmp::Ordering;
use std::hash::{Hash, Hasher};

/// Values are compared lexicographically by their bytes.
fn compare<const N: usize>(left: &FixedBytes<N>, right: &FixedBytes<N>) -> Ordering
    ensures { result ≡ slice_cmp nat_cmp (fixed_bytes left.now) (fixed_bytes right.now) }
{
    left.cmp(right)
}

/// A value is hashed as its array of bytes is.
fn hash_value<const N: usize, H: Hasher>(value: &FixedBytes<N>, state: &mut H)
    ensures { state.new ≡ fold H.write state.old (⟦<[u8; N] as Hash>⟧.hash_input (fixed_bytes value.now)) }
{
    value.hash(state);
}
