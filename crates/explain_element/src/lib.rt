// One element of a path, put behind what the output area holds.
#![tactic(auto)]

ghost use Rattle.std.specs.Prelude.{◌≡◌};
ghost use Rattle.explain_name.specs.of_list_text.inside.Behind.{filled, Puts};
ghost use Rattle.explain_name.specs.of_explain_text.Explanation.{kind_names, attribute_names, named, has_name, index_text, element_text};

use explain_name::put_name;
use explain_name::the_area::{least, wide};
use explain_name::the_explain_lines::line_in;
use explain_name::the_list_text::{put, put_decimal};
use explain_name::the_names::tag;
use explain_name::the_refusal::PathElement;
pub use explain_name::{the_area, the_list_text, the_refusal};

const ATTRIBUTE: usize = 16;

// By rule E4.
fn put_kind(out: &mut [u8], k: Option<usize>, kind: usize) -> Option<usize>
    ensures { Puts (filled k out.old) (named kind_names kind) (filled result out.new) }
{
    let names =
        b"?\ntestsuites\ntestsuite\ntestcase\nproperties\nproperty\nfailure\nerror\nskipped\nflakyFailure\nflakyError\nrerunFailure\nrerunError\n?\nsystem-out\nsystem-err\n@\n?";
    put(out, k, line_in(names, least(kind, 17)))
}

fn put_attribute(out: &mut [u8], k: Option<usize>, code: usize) -> Option<usize>
    ensures { Puts (filled k out.old) (named attribute_names code) (filled result out.new) }
{
    let names =
        b"?\nname\nclassname\nuuid\ntimestamp\ntime\ntests\nfailures\nerrors\nskipped\ndisabled\nassertions\nmessage\ntype\nvalue\nstackTrace\nhostname\n?";
    put(out, k, line_in(names, least(code, 17)))
}

fn has_name(kind: usize) -> bool
    ensures { result ≡ has_name kind }
{
    (kind == tag::TESTSUITE) | (kind == tag::TESTCASE)
}

fn put_index(out: &mut [u8], k: Option<usize>, kind: usize, index: u32) -> Option<usize>
    ensures { Puts (filled k out.old) (index_text kind index) (filled result out.new) }
{
    if has_name(kind) | (kind == tag::PROPERTY) {
        let opened = put(out, k, b"[");
        let number = put_decimal(out, opened, index as u64);
        return put(out, number, b"]");
    }
    k
}

// By rule E2.
pub fn put_element(
    out: &mut [u8],
    k: Option<usize>,
    events: &[u32],
    attributes: &[u32],
    source: &[u8],
    e: PathElement,
) -> Option<usize>
    ensures { Puts (filled k out.old) (element_text events.now attributes.now source.now e) (filled result out.new) }
{
    let kind = wide(e.kind);
    let shown = put_kind(out, k, kind);
    let index = put_index(out, shown, kind, e.index);
    if has_name(kind) {
        return put_name(out, index, events, attributes, source, e.event);
    }
    if kind == ATTRIBUTE {
        return put_attribute(out, index, wide(e.index));
    }
    index
}
