// Quantisation tables from a DQT marker segment of T.81 B.2.4.1, and as one (M-113). The four tables stand one after the other by
// destination, 64 quantisers each, row by row. The functions but `import` and `export` are internal.
#![tactic(auto)]

ghost use Rattle.std.specs.Prelude.{◌≡◌, true, ◌+◌, ◌<◌, ◌≤◌, OnOk, OnErr, length, drop};
ghost use Rattle.answers.specs.Tests.{all, table_ok};
ghost use Rattle.answers.specs.Answers.{filled};
ghost use Rattle.refusal.specs.Refusal.{answer_number};
ghost use Rattle.dqt.specs.Dqt.{val, framed, start, started, head_ok, non_zero, fault, faults, unzigzagged, stored, imported, table_byte, exported_at, exported, importing, exporting, LastStored, UnnamedKept, ImportedAs};

use answers::tables_ok;
use refusal::Refusal;
use zigzag::put_each;

// The marker, and a stated length that is that of the bytes after it and at least 67.
#[tactic(auto, unfolding(crate::specs::Dqt::framed))]
fn framed(s: &[u8]) -> bool
    ensures { result ≡ framed s.now }
{
    match s {
        [0xFF, 0xDB, high, low, after @ ..] => {
            let stated = usize::from(*high) * 256 + usize::from(*low);
            stated == after.len() + 2 && 67 <= stated
        }
        _ => false,
    }
}

// Precision 0 and a destination of at most 3.
fn head_ok(b: u8) -> bool
    ensures { result ≡ head_ok b }
{
    b / 16 == 0 && b % 16 <= 3
}

// What is wrong with the table that `rest` starts with.
#[tactic(auto, unfolding(crate::specs::Dqt::fault))]
fn fault(rest: &[u8]) -> Result<(), Refusal>
    requires { 0 < length rest.now }
    ensures { answer_number result ≡ fault rest.now 0 }
{
    if !head_ok(rest[0]) {
        return Err(Refusal::Precision);
    }
    if rest.len() < 65 {
        return Err(Refusal::Segment);
    }
    if rest[1..65].contains(&0) {
        return Err(Refusal::Table);
    }
    Ok(())
}

// The first fault, table by table; the last may be cut short.
fn faults(s: &[u8]) -> Result<(), Refusal>
    requires { 4 ≤ length s.now }
    ensures { answer_number result ≡ faults s.now }
{
    for table in s[4..].chunks(65) {
        fault(table)?;
    }
    Ok(())
}

// A table row by row, from its bytes in zigzag order.
// Kept: two lengths: as arrays both cuts would be unwrapped, `rest[1..65].as_array().unwrap()` and `tables[low..low + 64].as_mut_array().unwrap()`.
#[tactic(auto, using(zigzag::proofs::Places::zigzag_small))]
fn unzigzag(bytes: &[u8], table: &mut [u16])
    requires { (length bytes.now ≡ 64) × (length table.old ≡ 64) }
    ensures { table.new ≡ unzigzagged bytes.now }
{
    put_each(table, |p| u16::from(bytes[zigzag::zigzag(p)]));
}

// The table that `rest` starts with, stored at its destination.
#[tactic(auto, using(crate::proofs::Frames::head_small))]
fn store(rest: &[u8], tables: &mut [u16; 256])
    requires { (65 ≤ length rest.now) × (head_ok (val rest.now 0) ≡ true) }
    ensures { tables.new ≡ stored rest.now 0 tables.old }
{
    let low = usize::from(rest[0]) * 64;
    unzigzag(&rest[1..65], &mut tables[low..low + 64]);
}

// The tables of a segment without faults, each stored at its destination.
fn store_all(segment: &[u8], tables: &mut [u16; 256])
    requires { (4 ≤ length segment.now) × (faults segment.now ≡ 0) }
    ensures { tables.new ≡ imported segment.now tables.old }
{
    for table in segment[4..].chunks(65) {
        store(table, tables);
    }
}

// The tables of a segment, each stored at its destination; the others keep theirs.
// Rules out: quantisers left in zigzag order; the first table of a segment stored whose second one is refused; the first of two tables for one destination; another destination cleared.
#[tactic(auto, using(crate::proofs::Frames::framed_long), unfolding(crate::specs::Dqt::importing))]
pub fn import(segment: &[u8], tables: &mut [u16]) -> Result<(), Refusal>
    ensures written { filled (answer_number result) tables.new ≡ importing segment.now tables.old }
    ensures last_stored { OnOk result (LastStored segment.now tables.new) }
    ensures unnamed_kept { OnOk result (UnnamedKept segment.now tables.old tables.new) }
    ensures unchanged { OnErr result (tables.new ≡ tables.old) }
{
    let Some(tables) = tables.as_mut_array::<256>() else {
        return Err(Refusal::Length);
    };
    if !framed(segment) {
        return Err(Refusal::Segment);
    }
    faults(segment)?;
    store_all(segment, tables);
    Ok(())
}

// Four tables whose quantisers a segment can have.
#[derive(Clone, Copy)]
struct FourTables<'a> {
    quantisers: &'a [u16; 256],
    ghost each_ok: { all table_ok quantisers.now ≡ true },
}

// Byte j of destination d's 65.
#[tactic(auto, using(zigzag::proofs::Places::raster_small))]
fn table_byte(tables: FourTables, d: usize, j: usize) -> u8
    requires { (d < 4) × (j < 65) }
    ensures { result ≡ table_byte tables.entry.quantisers.now d j }
{
    if j == 0 {
        d as u8
    } else {
        tables.quantisers[d * 64 + zigzag::raster(j - 1)] as u8
    }
}

const HEAD: [u8; 4] = [0xFF, 0xDB, 0x01, 0x06];

// Byte i of the segment of the four tables.
// Kept: byte by byte, as the definition: of `out` after a loop over `out[4..].chunks_exact_mut(65)` a proof knows the length alone, as in `row` of `picture`.
#[tactic(auto, unfolding(crate::specs::Dqt::exported_at))]
fn exported_at(tables: FourTables, i: usize) -> u8
    requires { i < 264 }
    ensures { result ≡ exported_at tables.entry.quantisers.now i }
{
    if i < 4 {
        HEAD[i]
    } else {
        table_byte(tables, (i - 4) / 65, (i - 4) % 65)
    }
}

fn export_all(tables: FourTables, out: &mut [u8; 264])
    ensures { out.new ≡ exported tables.entry.quantisers.now }
{
    put_each(out, |i| exported_at(tables, i));
}

// The four tables as one segment of 264 bytes, destinations rising.
// Rules out: a quantiser of 256 written as 0; a stated length of 264, which would count the marker; a segment that import refuses, or from which other tables come back.
#[tactic(auto, unfolding(crate::specs::Dqt::exporting))]
pub fn export(tables: &[u16], out: &mut [u8]) -> Result<(), Refusal>
    ensures written { filled (answer_number result) out.new ≡ exporting tables.now out.old }
    ensures undone { OnOk result (ImportedAs out.new tables.now) }
    ensures unchanged { OnErr result (out.new ≡ out.old) }
{
    let Some(tables) = tables.as_array::<256>() else {
        return Err(Refusal::Length);
    };
    let Some(out) = out.as_mut_array::<264>() else {
        return Err(Refusal::Length);
    };
    if !tables_ok(tables) {
        return Err(Refusal::Table);
    }
    let tables = FourTables { quantisers: tables };
    export_all(tables, out);
    Ok(())
}
