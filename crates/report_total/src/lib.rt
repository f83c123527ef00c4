// 02, Note 3: "the sum of the lines above", which the report prints as its total.
#![tactic(auto)]

ghost use Rattle.std.specs.Prelude.{◌≡◌, ◌≤◌};
ghost use Rattle.kit.specs.Names.{length};
ghost use Rattle.report_order.specs.Counts.{ordered_tallies};
ghost use Rattle.report_total.specs.Totals.{total_of};

use report_order::count_of;

// The counts of the functions that stand first in an order, one for each line, added up.
pub fn total_of(counts: &[u16], order: &[u8], lines: usize) -> usize
    requires { (lines ≤ length order.now) × (lines ≤ 16) }
    ensures { result ≡ total_of (ordered_tallies counts.now lines order.now) }
{
    let mut total: usize = 0;
    for function in &order[..lines] {
        total += count_of(counts, *function as usize) as usize;
    }
    total
}
