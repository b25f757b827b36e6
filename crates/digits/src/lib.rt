// How numbers, fields and lines are written, for contracts to cite. The definitions are in specs/ and their laws in proofs/.
#![tactic(auto)]

ghost use Rattle.std.specs.Prelude.{◌≡◌, ◌<◌, ◌≤◌, ◌^◌, ◌∷◌, [], ℕ, suc, length, get_or};
ghost use Rattle.digits.specs.Written.{decimal, hex_of};

/// How long a written number is, and that no zero stands before another digit.
// Rules out: 09 for 9; an empty number; a byte in seven hexadecimal digits; capital letters.
pub fn digits_law()
    ensures some { (n : ℕ) → 1 ≤ length (decimal n) }
    ensures most { (k n : ℕ) → n < 10 ^ suc k → length (decimal n) ≤ suc k }
    ensures no_zero { (n : ℕ) → 1 ≤ n → n < 10 ^ 6 → ¬ (get_or (decimal n) 0 0 ≡ 48) }
    ensures hex_digits { hex_of 4 0x9af0 ≡ 57 ∷ 97 ∷ 102 ∷ 48 ∷ [] }
    ensures hex_length { (k n : ℕ) → length (hex_of k n) ≡ k }
{}
