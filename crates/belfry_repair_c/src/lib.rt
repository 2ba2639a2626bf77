// The static library of belfry_repair: each export has the clauses of the call that it passes on.
//
// The repair of a damaged book for C and Rust, in the caller's memory. Returns 0 if a book was written, else the
// refusal number.

#![tactic(auto)]

ghost use Rattle.std.specs.Prelude.{◌≡◌};
ghost use Rattle.repair_book.specs.Repaired.{repair_outcome};
ghost use Rattle.belfry_repair.specs.Lent.{repair_memory, of_repair};

use repair_book::MOST_ENTRIES;

#[unsafe(no_mangle)]
pub extern "C" fn belfry_repair(
    input: &[u8],
    output: &mut [u8],
    fates: &mut [u16; MOST_ENTRIES],
    report: &mut [u64; 7],
) -> u64
    ensures { repair_memory result output.new fates.new report.new ≡ of_repair report.old
        (repair_outcome input.now output.old fates.old) }
{
    belfry_repair::belfry_repair(input, output, fates, report)
}
