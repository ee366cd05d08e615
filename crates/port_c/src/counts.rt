// Counts of a suite or report: they go in by value and come back by value.
ghost use Rattle.std.specs.Prelude.{◌≡◌};
ghost use Rattle.sheet_text.specs.of_tree_counts.Counts.{with_case, with_suite};
ghost use Rattle.port_values.specs.Values.{counted_port};
ghost use Rattle.port_values.specs.Codes.{outcomes, outcome_at, coded};

use port_values::codes::{OUTCOMES, outcome_at};
use port_values::{KCounted, counted, not_counted};
use sheet_text::the_tree_counts::Counts;

#[unsafe(no_mangle)]
pub extern "C" fn kerzhoma_add_case(counts: Counts, outcome: u32) -> KCounted
    ensures { result ≡ counted_port counts (coded outcomes outcome (with_case counts (outcome_at outcome))) }
{
    if outcome < OUTCOMES {
        return counted(counts.add_test_case(outcome_at(outcome)));
    }
    not_counted(counts)
}

#[unsafe(no_mangle)]
pub extern "C" fn kerzhoma_add_suite(counts: Counts, suite: Counts) -> KCounted
    ensures { result ≡ counted_port counts (with_suite counts suite) }
{
    counted(counts.add_test_suite(suite))
}
