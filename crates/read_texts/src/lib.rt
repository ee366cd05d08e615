// Texts kept in records.
#![tactic(auto)]

ghost use Rattle.std.specs.Prelude.{◌≡◌, ◌++◌, ◌+◌, ◌-◌, ◌*◌, ◌≤◌, length, take, drop};
ghost use Rattle.read_content.specs.of_area.Area.{stored_answer, placing, laid};
ghost use Rattle.read_content.specs.of_read_state.inside.Coded.{level_of, output_of};
ghost use Rattle.read_content.specs.of_read_place.inside.Coded.{marks_of};
ghost use Rattle.read_content.specs.Content.{record_of_it, cleaned, word_of, bit_of};
ghost use Rattle.read_texts.specs.inside.Promises.{ClosesStatus, ClosesText};
ghost use Rattle.read_texts.specs.inside.Stored.{kept_words, kept_to, stored_end};
ghost use Rattle.read_content.specs.of_read_element.inside.Refines.{areas};
ghost use Rattle.read_content.specs.of_refusal.declared.Cause.TheVariants as cause;

pub use read_content as the_read_content;
use read_content::the_read_fault::Fault;
use read_content::the_read_place::Marks;
use read_content::the_read_state::{Level, Output};
use read_content::the_refusal::Cause;
use read_content::the_text_filter::store;
use read_content::the_tree_put::put_text;
use read_content::the_tree_record::{bit, word};
use read_content::the_trim::trim;
pub use read_content::{
    the_names, the_read_attribute, the_read_fault, the_read_place, the_read_rules, the_read_state,
    the_refusal, the_table, the_tree_status,
};
use read_content::{Content, is_taken, refused};

fn word_of_output(output: Output) -> usize
    ensures { result ≡ word_of (output_of output) }
{
    match output {
        Output::Trace => word::STACK_TRACE,
        Output::Out => word::OUT,
        Output::Err => word::ERR,
    }
}

fn bit_of_output(output: Output) -> u32
    ensures { result ≡ bit_of (output_of output) }
{
    match output {
        Output::Trace => bit::STACK_TRACE,
        Output::Out => bit::OUT,
        Output::Err => bit::ERR,
    }
}

fn record_of(level: Level, marks: Marks) -> usize
    ensures { result ≡ record_of_it (level_of level) (marks_of marks) }
{
    match level {
        Level::Top => 0,
        Level::Suite => marks.suite_at,
        Level::Case => marks.case_at,
        Level::Status => marks.status_at,
    }
}

// A gathered text, trimmed and filtered (rule X10), stored (rule M4), and put into a record at word o with bit k, if it takes it.
fn keep_text(
    taken: bool,
    i: usize,
    o: usize,
    k: u32,
    gathered: &[u8],
    fill: usize,
    records: &mut [u32],
    text: &mut [u8],
) -> Option<usize>
    requires i_in_bounds { i * 32 ≤ length records.old }
    requires fill_in_bounds { fill ≤ length text.old }
    requires text_len_bound { length text.old ≤ 16777216 }
    ensures result_value { stored_answer cause.TextFull result ≡ placing cause.TextFull (length text.old - fill) (cleaned gathered.now) }
    ensures text_after { text.new ≡ take fill text.old ++ laid (drop fill text.old) (cleaned gathered.now) }
    ensures records_after { records.new ≡ kept_words result taken i o k fill records.old }
{
    let clean = trim(gathered);
    let n = store(&mut text[fill..], clean)?;
    if taken {
        let start = i * 32;
        put_text(&mut records[start..], o, k, fill as u32, n as u32);
    }
    Some(n)
}

fn kept_text(
    stored: Option<usize>,
    content: Content,
    description: usize,
    child: usize,
) -> Result<Content, Fault>
    requires { stored_end content.fill stored ≤ 16777216 }
    ensures { result ≡ kept_to stored description child content }
{
    let Some(n) = stored else {
        return refused(Cause::TextFull);
    };
    Ok(Content {
        fill: content.fill + n,
        description,
        child,
        gathered: 0,
        ..content
    })
}

// The open description, which no child's text was put over. One that trimming leaves empty is missing (rule X11), and nothing is
// stored for it (rule M5).
pub fn close_status(
    i: usize,
    content: Content,
    records: &mut [u32],
    text: &mut [u8],
    scratch: &[u8],
) -> Result<Content, Fault>
    requires i_in_bounds { i * 32 ≤ length records.old }
    requires fill_in_bounds { content.fill ≤ length text.old }
    requires text_len_bound { length text.old ≤ 16777216 }
    requires description_in_bounds { content.description ≤ length scratch.now }
    ensures { ClosesStatus i content
        (areas records.old text.old) (areas records.new text.new) scratch.now result }
{
    let description = &scratch[..content.description];
    if trim(description).len() == 0 {
        return kept_text(Some(0), content, 0, 0);
    }
    let stored = keep_text(
        true,
        i,
        word::DESCRIPTION,
        bit::DESCRIPTION,
        description,
        content.fill,
        records,
        text,
    );
    kept_text(stored, content, 0, 0)
}

// The text of a child, also an empty one (rule X12); one that was there with this name is replaced (rule R17).
pub fn close_text(
    level: Level,
    output: Output,
    marks: Marks,
    content: Content,
    records: &mut [u32],
    text: &mut [u8],
    scratch: &[u8],
) -> Result<Content, Fault>
    requires marks_in_bounds { record_of_it (level_of level) (marks_of marks) * 32 ≤ length records.old }
    requires fill_in_bounds { content.fill ≤ length text.old }
    requires text_len_bound { length text.old ≤ 16777216 }
    requires gathered_in_bounds { content.child + content.gathered ≤ length scratch.now }
    ensures { ClosesText (level_of level) (output_of output) (marks_of marks) content
        (areas records.old text.old) (areas records.new text.new) scratch.now result }
{
    let from = content.child;
    let to = from + content.gathered;
    let stored = keep_text(
        is_taken(level, marks),
        record_of(level, marks),
        word_of_output(output),
        bit_of_output(output),
        &scratch[from..to],
        content.fill,
        records,
        text,
    );
    kept_text(stored, content, content.description, from)
}
