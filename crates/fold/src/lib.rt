// Counted loops, parts of a list and places of a grid, for contracts to cite: the definitions are in specs/ and their laws in proofs/. And one loop that the crates above share.
#![tactic(auto)]

ghost use Rattle.std.specs.Prelude.{◌≡◌, length};

/// Makes `to` a copy of `from`.
// Rules out: `to` left as it was; the values in another order.
// Kept: std's `copy_from_slice` has the same clause, and where a length is not known asks the C
// library for `memmove`; the archives for C want nothing of it but `memcpy` and `memset`.
pub fn copy<T: Copy>(from: &[T], to: &mut [T])
    requires { length from.now ≡ length to.old }
    ensures { to.new ≡ from.now }
{
    for k in 0..to.len() {
        to[k] = from[k];
    }
}
