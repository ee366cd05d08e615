// Elements read behind the records.
#![tactic(auto)]

ghost use Rattle.std.specs.Prelude.{◌*◌, ◌≤◌, length};
ghost use Rattle.read_lists.specs.of_read_state.inside.Coded.{level_of};
ghost use Rattle.read_lists.specs.of_read_element.inside.Refines.{tagged, areas};
ghost use Rattle.read_lists.specs.of_read_content.inside.Holds.{list_of};
ghost use Rattle.read_opening.specs.inside.Promises.{Ready, AddsElement, OpensReport, OpensSuite, OpensCase, OpensElement, ReadsProperty};

pub use read_lists as the_read_lists;
use read_lists::the_read_attribute::Range;
use read_lists::the_read_attributes::read_element;
use read_lists::the_read_content::the_read_fault::Fault;
use read_lists::the_read_content::{Content, List, property_kind};
use read_lists::the_read_state::Level;
use read_lists::the_tree_record::kind::{CASE, REPORT, SUITE};
use read_lists::{kill, list_of, with_list};

fn add_element(
    kind: u32,
    range: Range,
    content: Content,
    attributes: &[u32],
    source: &[u8],
    records: &mut [u32],
    text: &mut [u8],
) -> Result<Content, Fault>
    requires le_kind { 1 ≤ kind }
    requires kind_bound { kind ≤ 12 }
    requires ready { Ready range content (tagged attributes.now source.now) (areas records.old text.old) }
    ensures { AddsElement kind range content (tagged attributes.now source.now)
        (areas records.old text.old) (areas records.new text.new) result }
{
    let at = content.used * 32;
    let grown = read_element(
        kind,
        attributes,
        source,
        range,
        content.free,
        content.fill,
        &mut records[at..],
        text,
    )?;
    Ok(Content {
        used: content.used + grown.records,
        fill: grown.fill,
        free: grown.free,
        ..content
    })
}

// The report before is gone with its suites (rule R3).
fn open_report(
    range: Range,
    content: Content,
    attributes: &[u32],
    source: &[u8],
    records: &mut [u32],
    text: &mut [u8],
) -> Result<Content, Fault>
    requires { Ready range content (tagged attributes.now source.now) (areas records.old text.old) }
    ensures { OpensReport range content (tagged attributes.now source.now)
        (areas records.old text.old) (areas records.new text.new) result }
{
    kill(records, content.report_at, content.used);
    let c = Content {
        report_at: content.used,
        ..content
    };
    add_element(REPORT, range, c, attributes, source, records, text)
}

fn open_suite(
    range: Range,
    content: Content,
    attributes: &[u32],
    source: &[u8],
    records: &mut [u32],
    text: &mut [u8],
) -> Result<Content, Fault>
    requires { Ready range content (tagged attributes.now source.now) (areas records.old text.old) }
    ensures { OpensSuite range content (tagged attributes.now source.now)
        (areas records.old text.old) (areas records.new text.new) result }
{
    let c = Content {
        suite_list: List { first: 0, count: 0 },
        ..content
    };
    add_element(SUITE, range, c, attributes, source, records, text)
}

fn open_case(
    range: Range,
    content: Content,
    attributes: &[u32],
    source: &[u8],
    records: &mut [u32],
    text: &mut [u8],
) -> Result<Content, Fault>
    requires { Ready range content (tagged attributes.now source.now) (areas records.old text.old) }
    ensures { OpensCase range content (tagged attributes.now source.now)
        (areas records.old text.old) (areas records.new text.new) result }
{
    let c = Content {
        case_list: List { first: 0, count: 0 },
        ..content
    };
    add_element(CASE, range, c, attributes, source, records, text)
}

// An element by its record's kind, with its attributes (rule A1).
pub fn open_element(
    kind: u32,
    range: Range,
    content: Content,
    attributes: &[u32],
    source: &[u8],
    records: &mut [u32],
    text: &mut [u8],
) -> Result<Content, Fault>
    requires le_kind { 1 ≤ kind }
    requires kind_bound { kind ≤ 12 }
    requires ready { Ready range content (tagged attributes.now source.now) (areas records.old text.old) }
    ensures { OpensElement kind range content (tagged attributes.now source.now)
        (areas records.old text.old) (areas records.new text.new) result }
{
    match kind {
        REPORT => open_report(range, content, attributes, source, records, text),
        SUITE => open_suite(range, content, attributes, source, records, text),
        CASE => open_case(range, content, attributes, source, records, text),
        _ => add_element(kind, range, content, attributes, source, records, text),
    }
}

// A property of the open list, with its attributes (rule A1).
pub fn read_property(
    level: Level,
    range: Range,
    content: Content,
    attributes: &[u32],
    source: &[u8],
    records: &mut [u32],
    text: &mut [u8],
) -> Result<Content, Fault>
    requires content_in_bounds { (list_of (level_of level) content).count * 32 ≤ length records.old }
    requires ready { Ready range content (tagged attributes.now source.now) (areas records.old text.old) }
    ensures { ReadsProperty (level_of level) range content (tagged attributes.now source.now)
        (areas records.old text.old) (areas records.new text.new) result }
{
    let old = list_of(level, content);
    let list = List {
        count: old.count + 1,
        ..old
    };
    let added = add_element(
        property_kind(level),
        range,
        content,
        attributes,
        source,
        records,
        text,
    )?;
    Ok(with_list(level, added, list))
}
