// The table of worked examples. The rows are in specs/, and each was computed beside its definition; the
// law is the contract of a function that has nothing to do.
#![tactic(auto)]

ghost use Rattle.examples.specs.Table.{Table};

/// Each row of the table of worked examples holds of the definitions that the contracts cite.
// Rules out: a definition that gives another value at a row of the table.
#[tactic(auto, using(crate::proofs::Proved::table))]
pub fn examples_hold()
    ensures { Table }
{}
