// Sizes that a caller's declarations must have: to be tested where they are declared, or at first use.
ghost use Rattle.std.specs.Prelude.{◌≡◌, length};
ghost use Rattle.contents.specs.declared.Sheet.{Sheet};
ghost use Rattle.smoother.specs.declared.LentRun.{LentRun};
ghost use Rattle.by_numbers.specs.Sheets.{numbers_of};
ghost use Rattle.smoother.specs.Sizes.{run_bytes};

use by_numbers::NUMBERS;

// The bytes of the run's record, which each call on a run is lent. Ruled out: 123, of marks of one byte without the three that follow; 60, of one channel for three.
#[unsafe(no_mangle)]
pub extern "C" fn smoother_run_bytes() -> u32
    ensures { (x : LentRun) → result ≡ run_bytes x }
{
    132
}

// The count of the sheet's numbers, which `smoother_read` lends out and `smoother_solve` takes. Ruled out: 15, the header's alone; 19, with one channel's.
#[unsafe(no_mangle)]
pub extern "C" fn smoother_sheet_numbers() -> u32
    ensures { (s : Sheet) → result ≡ length (numbers_of s) }
{
    NUMBERS as u32
}
