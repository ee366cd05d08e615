// The first and the last start of a run; two halves of a run as one report.
ghost use Rattle.std.specs.Prelude.{◌≡◌, length};
ghost use Rattle.merger.specs.of_starts.Starts.{starts_of};
ghost use Rattle.merger.specs.of_tree_merge.Answer.{merged, records_left, text_left};
ghost use Rattle.port_values.specs.of_port_refusal.Port.{port_outcome};
ghost use Rattle.port_c.specs.Started.{started_port};

use port_values::the_port_refusal::{KRefusal, from_refusal};
use port_values::{KMoment, port_moment};

// All but the refusal is 0 where no case has a timestamp, and where the call refuses.
#[repr(C)]
#[derive(Clone, Copy)]
pub struct KStarted {
    pub found: bool,
    pub first: KMoment,
    pub last: KMoment,
    pub seconds: u64,
    pub nanos: u32,
    pub refusal: KRefusal,
}

#[unsafe(no_mangle)]
pub extern "C" fn kerzhoma_starts(records: &[u32], text: &[u8]) -> KStarted
    ensures { result ≡ started_port (starts_of records.now text.now) }
{
    let answer = merger::the_starts::starts(records, text);
    let verdict = answer.verdict;
    let extent = answer.starts;
    let refusal = answer.refusal;
    KStarted {
        found: extent.found,
        first: port_moment(extent.first),
        last: port_moment(extent.last),
        seconds: extent.seconds,
        nanos: extent.nanos,
        refusal: from_refusal(verdict, refusal),
    }
}

#[unsafe(no_mangle)]
pub extern "C" fn kerzhoma_merge(
    first: &[u32],
    first_text: &[u8],
    second: &[u32],
    second_text: &[u8],
    records: &mut [u32],
    text: &mut [u8],
) -> KRefusal
    ensures value { result ≡ port_outcome (merged first.now first_text.now second.now second_text.now
        (length records.old) (length text.old)) }
    ensures records_after { records.new ≡ records_left first.now first_text.now second.now second_text.now
        (length records.old) (length text.old) }
    ensures text_after { text.new ≡ text_left first.now first_text.now second.now second_text.now
        (length records.old) (length text.old) }
{
    let answer = merger::merge(first, first_text, second, second_text, records, text);
    let verdict = answer.verdict;
    let refusal = answer.refusal;
    from_refusal(verdict, refusal)
}
