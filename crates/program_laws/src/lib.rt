// What holds of every text that `smooth` answers. Each law is the contract of a function that has
// nothing to do: it is proved as any other contract is, and its statement is read here, with the
// definitions that it cites.
#![tactic(auto)]

ghost use Rattle.std.specs.Prelude.{◌≡◌, ℕ, Bool, List, [], Result};
ghost use Rattle.contents.specs.declared.Limits.{Limits};
ghost use Rattle.contents.specs.declared.Sheet.{Sheet};
ghost use Rattle.contents.specs.Sheets.{Lent, Marked};
ghost use Rattle.contents.specs.declared.Reader.{Reader};
ghost use Rattle.sheet.specs.declared.walk.Refused.{Refused};
ghost use Rattle.sheet.specs.Walk.{said};
ghost use Rattle.sheet.specs.Calls.{Reads};
ghost use Rattle.sheet.specs.Reading.{Contents, read_text};
ghost use Rattle.sheet.specs.Reading.Outcome.{Gives};
ghost use Rattle.program.specs.Printed.{printed};
ghost use Rattle.program.specs.Partner.{DifferHidden, PartnerSees, SeenLegal};
ghost use Rattle.program.specs.Partner.{RefusedAlike, StaffShown};
ghost use Rattle.program.specs.Callers.{BothShown};
ghost use Rattle.program.specs.Equal.{EqualShown};
ghost use Rattle.program.specs.Examples.{whole_text, whole_answer, empty_answer};
ghost use Rattle.program_laws.specs.Answer.{IsPicture, IsRefusal, IsAnswer};

/// Every text is answered by one complete picture or by one numbered refusal, and no answer can be
/// read as both.
// Rules out: a picture cut short; a line `X` behind a picture; a blown sheet refused at a line.
#[tactic(auto, using(crate::proofs::Answers::one_answer))]
pub fn answer_law()
    ensures one { (text : List ℕ) → IsAnswer (printed text) }
    ensures never_both { (text : List ℕ) → IsPicture text → ¬ IsRefusal text }
{}

/// Two texts that differ in hidden levels alone give a partner the same; whoever reads a text into
/// the same buffers gets the same answer, so that whether and how a text is refused does not depend
/// on the reader; and what any reader gets is a legal sheet.
// Rules out: a picture or total by which a partner tells hidden levels apart; another line
// for a partner.
#[tactic(auto, using(program::proofs::Partner::seen_legal))]
pub fn partner_law()
    ensures sees { (limits : Limits) (text text' : List ℕ) (one other : Contents) →
        DifferHidden limits text text' one other → PartnerSees limits text text' one other }
    ensures refused { (limits : Limits) (text : List ℕ) (who who' : Reader) (into one other : Lent)
        (r r' : Result Sheet Refused) → Reads limits who text into one r →
        Reads limits who' text into other r' → said r ≡ said r' }
    ensures refusal { (limits : Limits) (text : List ℕ) → RefusedAlike limits text }
    ensures legal { (limits : Limits) (text : List ℕ) (c : Contents) → SeenLegal limits text c }
{}

/// `smooth` reads as staff: without its lines `N` a text is answered alike.
// Rules out: a mark that changes what is printed.
#[tactic(auto, using(program::proofs::Partner::staff_shown))]
pub fn staff_law()
    ensures { (text : List ℕ) (s : Sheet) (b : Lent) (ranged : List Bool) (marks : List Marked) →
        StaffShown text s b ranged marks }
{}

/// Callers with different limits get the same planes and the same answer to a text that both
/// accept.
// Rules out: a picture that depends on the caller's limits.
pub fn callers_law()
    ensures { (one other : Limits) (text : List ℕ) (c d : Contents) → read_text one text ≡ Gives c →
        read_text other text ≡ Gives d → BothShown one other text c d }
{}

/// Ranges whose ends are equal are answered as the levels that they are.
// Rules out: a range of one level printed otherwise than the level.
#[tactic(auto, using(program::proofs::Equal::equal_shown))]
pub fn equal_law()
    ensures { (limits : Limits) (text : List ℕ) (s : Sheet) (b : Lent) (one other : List Bool)
        (marks : List Marked) → EqualShown limits text s b one other marks }
{}

/// What is printed for a sheet of one block, and for no bytes at all.
// Rules out: another grey for level 1 of quantiser 8; an answer of no bytes for no text.
pub fn examples_law()
    ensures whole { printed whole_text ≡ whole_answer }
    ensures empty { printed [] ≡ empty_answer }
{}
