// What holds of the output of stitching: which block stands where, to either reader, and that three sheets give one text in either
// order. Each law is the contract of a function that has nothing to do.
#![tactic(auto)]

ghost use Rattle.std.specs.Prelude.{◌≡◌, ℕ, List};
ghost use Rattle.stitch.specs.Calls.{stitching};
ghost use Rattle.stitch.specs.Calls.Stitch.{Text};
ghost use Rattle.places.specs.Output.{Stitched};

/// The output of stitching is a text that is read, and each of its blocks is a block of one of the
/// two texts, to either reader.
// Rules out: a block of the right text at the column that it has there; a mark of one text that hides a block of the other.
pub fn stitched_law()
    ensures { (left right text : List ℕ) → stitching left right ≡ Text text →
        Stitched left right text }
{}

/// Three sheets of which each two neighbours fit are answered alike in either order: with one text,
/// or with one refusal.
// Rules out: marks or settings that depend on which two were stitched first.
pub fn either_order_law()
    ensures { (a b c ab bc : List ℕ) → stitching a b ≡ Text ab → stitching b c ≡ Text bc →
        stitching ab c ≡ stitching a bc }
{}
