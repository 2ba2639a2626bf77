// The repair of a damaged book for C and Rust, in the caller's memory. Returns 0 if a book was written, else the
// refusal number.

#![tactic(auto)]

ghost use Rattle.std.specs.Prelude.{◌≡◌};
ghost use Rattle.repair_book.specs.Repaired.{repair_outcome};
ghost use Rattle.belfry_repair.specs.Lent.{mark_of, report_in, repair_memory, of_repair};

use repair_book::{MOST_ENTRIES, Report};

fn mark_of(changed: bool) -> u64
    ensures { result ≡ mark_of changed }
{
    if changed { 1 } else { 0 }
}

fn report_in(report: Report) -> [u64; 7]
    ensures { result ≡ report_in report }
{
    let changed = report.changed;
    [
        report.looked as u64,
        report.kept as u64,
        report.written as u64,
        mark_of(changed.total),
        mark_of(changed.count),
        mark_of(changed.order),
        mark_of(changed.offsets),
    ]
}

#[unsafe(no_mangle)]
pub extern "C" fn belfry_repair(
    input: &[u8],
    output: &mut [u8],
    fates: &mut [u16; MOST_ENTRIES],
    report: &mut [u64; 7],
) -> u64
    ensures { repair_memory result output.new fates.new report.new ≡ of_repair report.old
        (repair_outcome input.now output.old fates.old) }
{
    match repair_book::repair(input, output, fates) {
        Ok(told) => {
            *report = report_in(told);
            0
        }
        Err(refusal) => refusal.number(),
    }
}
