// XML bytes in, event and attribute tables out.
#![tactic(auto)]

ghost use Rattle.std.specs.Prelude.{◌≡◌, ◌≤◌, length, replicate};
ghost use Rattle.xml_ends.specs.of_xml_machine.Tokens.{tokens};
ghost use Rattle.xml_ends.specs.of_xml_state.Answer.{result as given_result};
ghost use Rattle.xml_ends.specs.of_xml_state.inside.Tables.{class_table, next_table, act_table};
ghost use Rattle.xml_ends.specs.of_xml_state.inside.Turns.{cleared};

pub use xml_ends::the_area;

pub mod tables;

use xml_ends::the_area::{clear_words, limit};
use xml_ends::the_refusal::NOWHERE;
use xml_ends::the_xml_acts::begin;
use xml_ends::the_xml_put::act_on;
use xml_ends::the_xml_state::{Step, Tokenized};
use xml_ends::{finish, refused};
use xml_quick::{is_quick, quick};
use xml_skip::the_xml_moves::move_at;
use xml_skip::{ahead, pass_name};

fn run_with(
    source: &[u8],
    events: &mut [u32],
    attributes: &mut [u32],
    classes: &[u8],
    nexts: &[u8],
    acts: &[u8],
) -> Tokenized
    requires source_len_bound { length source.now ≤ 16777216 }
    requires events_value { (events.old ≡ replicate (length events.old) 0) × (attributes.old ≡ replicate (length attributes.old) 0) }
    requires classes_value { (classes.now ≡ class_table) × (nexts.now ≡ next_table) × (acts.now ≡ act_table) }
    ensures { cleared result events.new attributes.new ≡ tokens source.now (length events.old) (length attributes.old) }
{
    let mut st = begin();
    let mut at = 0;
    // while: each step passes as many bytes as leave the registers alone.
    while at < source.len() {
        let i = at;
        let b = source[i];
        let m = move_at(st.mode, b, classes, nexts, acts);
        at = ahead(m, source, i, st.mode, classes, nexts, acts);
        if at == i {
            at = i + 1;
            if m.act == b'.' {
                st.mode = m.mode;
            } else if is_quick(m.act) {
                st = quick(st, m, i as u32);
            } else {
                match act_on(st, m, b, i as u32, source, events, attributes) {
                    Step::Go(s) => {
                        st = s;
                        at = pass_name(source, at, s);
                    }
                    Step::Full => return Tokenized::Refused(16, NOWHERE),
                    Step::Bad => return refused(st, i as u32, source, events.len()),
                }
            }
        }
    }
    finish(st, at as u32, events)
}

// With the tables in memory once.
fn run(source: &[u8], events: &mut [u32], attributes: &mut [u32]) -> Tokenized
    requires source_len_bound { length source.now ≤ 16777216 }
    requires events_value { (events.old ≡ replicate (length events.old) 0) × (attributes.old ≡ replicate (length attributes.old) 0) }
    ensures { cleared result events.new attributes.new ≡ tokens source.now (length events.old) (length attributes.old) }
{
    run_with(
        source,
        events,
        attributes,
        &tables::CLASSES,
        &tables::NEXTS,
        &tables::ACTS,
    )
}

// By rules N1, N2, N3, N4, N5, N6, N7, N8, N9 and N10.
pub fn tokenize(source: &[u8], events: &mut [u32], attributes: &mut [u32]) -> Tokenized
    ensures { given_result result events.new attributes.new ≡ tokens source.now (length events.old) (length attributes.old) }
{
    clear_words(events);
    clear_words(attributes);
    if limit::BYTES < source.len() {
        return Tokenized::Refused(11, NOWHERE);
    }
    let a = run(source, events, attributes);
    match a {
        Tokenized::Table(_, _) => a,
        Tokenized::Refused(_, _) => {
            clear_words(events);
            clear_words(attributes);
            a
        }
    }
}
