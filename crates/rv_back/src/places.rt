//! Where arrays stand in the RAM.

ghost use Rattle.std.specs.Prelude.{◌≡◌, ◌≤◌, ◌+◌, map, sum, take, slice_index};
ghost use Rattle.rv_back.specs.Code.{base_of as base_at};

use pld_ast::Array;

/// The length of an array, and 0 where there is no such array.
pub fn length_of(arrays: &[Array], t: usize) -> u32
    ensures { result ≡ slice_index (map (λ a. a.len) arrays.now) t }
{
    match arrays.get(t) {
        None => 0,
        Some(array) => array.len,
    }
}

// How many words the arrays before an array have.
fn words_before(arrays: &[Array], t: usize) -> u32
    requires { sum (map (λ a. a.len) arrays.now) ≤ 8192 }
    ensures value { result ≡ sum (take t (map (λ a. a.len) arrays.now)) }
    ensures bound { result ≤ sum (map (λ a. a.len) arrays.now) }
{
    match arrays {
        [] => 0,
        [first, rest @ ..] => {
            if t == 0 {
                0
            } else {
                first.len + words_before(rest, t - 1)
            }
        }
    }
}

/// The word of the RAM at which an array begins.
pub fn base_of(arrays: &[Array], t: usize) -> u32
    requires { sum (map (λ a. a.len) arrays.now) ≤ 8192 }
    ensures value { result ≡ base_at (map (λ a. a.len) arrays.now) t }
    ensures bound { result ≤ 8256 }
{
    64 + words_before(arrays, t)
}
