// Which texts are sheets: how each legal sheet is written, that these texts and no others are accepted, and how many bytes decide.
// Each law is the contract of a function that has nothing to do. The work is in specs/ and proofs/.
#![tactic(auto)]

ghost use Rattle.std.specs.Prelude.{◌≡◌, ◌≤◌, ℕ, Bool, List, ◌⊎◌, [], length, take};
ghost use Rattle.contents.specs.declared.Limits.{Limits};
ghost use Rattle.contents.specs.declared.Sheet.{Sheet};
ghost use Rattle.contents.specs.declared.Reader.TheVariants.{Partner, Staff};
ghost use Rattle.contents.specs.Sheets.{Lent, Marked, Held, held};
ghost use Rattle.contents.specs.Marks.{seen_by};
ghost use Rattle.contents.specs.Legal.{Between, LegalBlocks};
ghost use Rattle.sheet.specs.Reading.{Contents, contents, read_text};
ghost use Rattle.sheet.specs.Reading.Outcome.{Gives, Refused};
ghost use Rattle.sheet.specs.Calls.{reading, sheet_in, lent_after};
ghost use Rattle.grammar.specs.Written.{written};
ghost use Rattle.grammar.specs.Accepts.{TextOf};
ghost use Rattle.grammar.specs.Longest.{longest, decisive};
ghost use Rattle.grammar.specs.Page.{raised_to};
ghost use Rattle.grammar.specs.Partner.{SameToPartner};

/// A text is accepted exactly when it is how a legal sheet is written, and that sheet is what it
/// gives.
// Rules out: a text with a byte more that is accepted; a legal sheet whose text is refused, or read as another sheet.
pub fn accepts_law()
    ensures only { (limits : Limits) (text : List ℕ) (s : Sheet) (h : Held) →
        read_text limits text ≡ contents s h → TextOf limits s h text }
    ensures all { (limits : Limits) (text : List ℕ) (s : Sheet) (h : Held) →
        TextOf limits s h text → read_text limits text ≡ contents s h }
{}

/// No accepted text is longer than the longest, and so many bytes of any text decide whether it is
/// accepted, or by which number and at which line it is refused: 39,294 at the limit 32.
// Rules out: a refusal, or a sheet, that changes with a byte behind those.
pub fn length_law()
    ensures most { (limits : Limits) (text : List ℕ) (c : Contents) →
        read_text limits text ≡ Gives c → length text ≤ longest limits.side }
    ensures decided { (limits : Limits) (text : List ℕ) (n : ℕ) → decisive limits.side ≤ n →
        read_text limits (take n text) ≡ read_text limits text }
    ensures at_32 { decisive 32 ≡ 39294 }
{}

/// What two callers with different limits accept is the same sheet to both.
// Rules out: a level, a table or a setting that depends on the caller's limits.
pub fn callers_law()
    ensures { (one other : Limits) (text : List ℕ) (c d : Contents) → read_text one text ≡ Gives c →
        read_text other text ≡ Gives d → c ≡ d }
{}

/// What a larger limit of iterations changes: a text refused by 15 at its first line may be accepted
/// or refused otherwise, and no other text is answered otherwise.
// Rules out: a text accepted at a limit and refused at a larger one; another refusal than 15 that a larger limit mends.
pub fn page_law()
    ensures page { (limits : Limits) (most : ℕ) (text : List ℕ) →
        Between limits.iterations 1000 most →
        (read_text limits text ≡ Refused 15 1) ⊎
        (read_text limits text ≡ read_text (raised_to limits most) text) }
    ensures accepted { (limits : Limits) (most : ℕ) (text : List ℕ) (c : Contents) →
        Between limits.iterations 1000 most → read_text limits text ≡ Gives c →
        read_text (raised_to limits most) text ≡ Gives c }
    ensures refused { (limits : Limits) (most : ℕ) (text : List ℕ) (k line : ℕ) →
        Between limits.iterations 1000 most → ¬ (k ≡ 15) → read_text limits text ≡ Refused k line →
        read_text (raised_to limits most) text ≡ Refused k line }
{}

/// A block whose pairs are equal may be written as `B` or as `G`: the sheet and its levels are the
/// same.
// Rules out: a range of one level read as another level, or refused.
pub fn equal_law()
    ensures { (limits : Limits) (text : List ℕ) (s : Sheet) (b : Lent) (one other : List Bool)
        (marks : List Marked) → read_text limits text ≡ contents s (held b one marks) →
        LegalBlocks (held b other marks) →
        read_text limits (written s (held b other marks)) ≡ contents s (held b other marks) }
{}

/// Two accepted texts that differ only behind the first level of marked blocks give a partner one
/// answer, and one content of the lent buffers.
// Rules out: a sheet, a level or a refusal by which a partner tells hidden levels apart.
pub fn partner_law()
    ensures answer { (limits : Limits) (text text' : List ℕ) (one other : Contents) (into : Lent) →
        read_text limits text ≡ Gives one → read_text limits text' ≡ Gives other →
        SameToPartner one other →
        sheet_in (reading limits text into) ≡ sheet_in (reading limits text' into) }
    ensures buffers { (limits : Limits) (text text' : List ℕ) (one other : Contents) (into : Lent) →
        read_text limits text ≡ Gives one → read_text limits text' ≡ Gives other →
        SameToPartner one other →
        lent_after Partner (reading limits text into) into ≡
        lent_after Partner (reading limits text' into) into }
{}

/// The staff gets of an accepted text what it gets of it without its lines `N`.
// Rules out: a mark by which the staff is given 0 for a level.
pub fn staff_law()
    ensures same { (limits : Limits) (text : List ℕ) (s : Sheet) (b : Lent) (ranged : List Bool)
        (marks : List Marked) → read_text limits text ≡ contents s (held b ranged marks) →
        read_text limits (written s (held b ranged [])) ≡ contents s (held b ranged []) }
    ensures seen { (b : Lent) (ranged : List Bool) (marks : List Marked) →
        seen_by Staff (held b ranged marks) ≡ seen_by Staff (held b ranged []) }
{}
