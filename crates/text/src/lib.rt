// The bytes of a sheet text: where lines and fields end, and what a field says.
#![tactic(auto)]

ghost use Rattle.std.specs.Prelude.{◌≡◌, ◌≤◌, ℕ, ℤ, List, Some, Ok};
ghost use Rattle.contents.specs.declared.Weight.{Weight};
ghost use Rattle.contents.specs.Legal.{LegalWeight, LegalLevel};
ghost use Rattle.digits.specs.Written.{decimal};
ghost use Rattle.text.specs.Numbers.{number_of};
ghost use Rattle.text.specs.Weights.{weight_of};
ghost use Rattle.text.specs.Levels.{level_of};
ghost use Rattle.text.specs.Written.{weight_text, level_text};

pub mod field;
pub mod level;
pub mod number;
pub mod pieces;
pub mod weight;

/// Each number of at most six digits has one spelling.
// Rules out: +7 and 07 for 7; a number that reads as another.
pub fn numbers_law()
    ensures read { (n : ℕ) → n ≤ 999999 → number_of (decimal n) ≡ Some n }
    ensures only { (f : List ℕ) (n : ℕ) → number_of f ≡ Some n → decimal n ≡ f }
{}

/// Each legal weight has one spelling.
// Rules out: capital letters among its hexadecimal digits; a weight of another form that reads as this one.
pub fn weights_law()
    ensures read { (w : Weight) → LegalWeight w → weight_of (weight_text w) ≡ Ok w }
    ensures only { (f : List ℕ) (w : Weight) → weight_of f ≡ Ok w → weight_text w ≡ f }
{}

/// Each legal level has one spelling.
// Rules out: -0 for 0; a level that reads as its opposite.
pub fn levels_law()
    ensures read { (z : ℤ) → LegalLevel z → level_of (level_text z) ≡ Ok z }
    ensures only { (f : List ℕ) (z : ℤ) → level_of f ≡ Ok z → level_text z ≡ f }
{}
