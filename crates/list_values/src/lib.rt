// The fields of a line, each with one space before it.
#![tactic(auto)]

ghost use Rattle.std.specs.Prelude.{◌≡◌, ◌∷◌, ◌+◌, ◌*◌, ◌≤◌, take, drop};
ghost use Rattle.list_text.specs.of_digits.Digits.{decimal};
ghost use Rattle.list_text.specs.of_tree_record.Words as word;
ghost use Rattle.list_text.specs.of_tree_report.Fields as tree;
ghost use Rattle.list_text.specs.Listing.{quoted, or_dash, timed, fields, count_fields};
ghost use Rattle.list_text.specs.inside.Behind.{filled, Puts};

pub use list_text as the_list_text;
use list_text::put;
use list_text::the_area::least;
use list_text::the_tree_record::{bit, field, has_bit, word};
pub use list_text::{the_area, the_names, the_refusal, the_tree_record};

// The text that starts at `start`, cut at the text area's end.
pub fn part_of(text: &[u8], start: u32, len: u32) -> &[u8]
    ensures { result.now ≡ take len (drop start text.now) }
{
    let from = least(start as usize, text.len());
    let rest = &text[from..];
    let to = least(len as usize, rest.len());
    &rest[..to]
}

fn put_quoted(out: &mut [u8], k: Option<usize>, s: &[u8]) -> Option<usize>
    ensures { Puts (filled k out.old) (32 ∷ quoted s.now) (filled result out.new) }
{
    let opened = put(out, k, b" \"");
    let shown = list_text::put_escaped(out, opened, s);
    put(out, shown, b"\"")
}

// The name of a suite or case (rule L8).
pub fn put_name(out: &mut [u8], k: Option<usize>, text: &[u8], r: &[u32]) -> Option<usize>
    ensures { Puts (filled k out.old) (32 ∷ quoted (tree.text_at text.now r.now word.name)) (filled result out.new) }
{
    put_quoted(
        out,
        k,
        part_of(text, field(r, word::NAME), field(r, word::NAME + 1)),
    )
}

// The name of a report, which may be missing.
pub fn put_first(out: &mut [u8], k: Option<usize>, text: &[u8], r: &[u32]) -> Option<usize>
    ensures { Puts (filled k out.old) (32 ∷ or_dash quoted (tree.first text.now r.now)) (filled result out.new) }
{
    if has_bit(r, bit::NAME) {
        return put_name(out, k, text, r);
    }
    put(out, k, b" -")
}

pub fn put_classname(out: &mut [u8], k: Option<usize>, text: &[u8], r: &[u32]) -> Option<usize>
    ensures { Puts (filled k out.old) (32 ∷ or_dash quoted (tree.second text.now r.now)) (filled result out.new) }
{
    if has_bit(r, bit::CLASSNAME) {
        return put_quoted(
            out,
            k,
            part_of(
                text,
                field(r, word::CLASSNAME),
                field(r, word::CLASSNAME + 1),
            ),
        );
    }
    put(out, k, b" -")
}

pub fn put_time(out: &mut [u8], k: Option<usize>, r: &[u32]) -> Option<usize>
    ensures { Puts (filled k out.old) (32 ∷ or_dash timed (tree.time r.now)) (filled result out.new) }
{
    if has_bit(r, bit::TIME) {
        let space = put(out, k, b" ");
        return list_text::put_time(
            out,
            space,
            field(r, word::SECONDS),
            field(r, word::TIME_NANOS),
        );
    }
    put(out, k, b" -")
}

pub fn put_number(out: &mut [u8], k: Option<usize>, n: u64) -> Option<usize>
    ensures { Puts (filled k out.old) (32 ∷ decimal n) (filled result out.new) }
{
    let space = put(out, k, b" ");
    list_text::put_decimal(out, space, n)
}

fn number_of(low: u32, high: u32) -> u64
    ensures { result ≡ low + high * 4294967296 }
{
    low as u64 + high as u64 * 4294967296
}

// The count at the words o and o + 1.
fn put_count(out: &mut [u8], k: Option<usize>, r: &[u32], o: usize) -> Option<usize>
    requires { o ≤ 30 }
    ensures { Puts (filled k out.old) (32 ∷ decimal (tree.number_at r.now o)) (filled result out.new) }
{
    put_number(out, k, number_of(field(r, o), field(r, o + 1)))
}

fn put_disabled(out: &mut [u8], k: Option<usize>, r: &[u32]) -> Option<usize>
    ensures { Puts (filled k out.old) (32 ∷ or_dash decimal (tree.counts r.now).disabled) (filled result out.new) }
{
    if has_bit(r, bit::DISABLED) {
        return put_count(out, k, r, word::DISABLED);
    }
    put(out, k, b" -")
}

// The five counts of a report or suite.
pub fn put_counts(out: &mut [u8], k: Option<usize>, r: &[u32]) -> Option<usize>
    ensures { Puts (filled k out.old) (fields (count_fields (tree.counts r.now))) (filled result out.new) }
{
    let tests = put_count(out, k, r, word::TESTS);
    let failures = put_count(out, tests, r, word::FAILURES);
    let errors = put_count(out, failures, r, word::ERRORS);
    let skipped = put_count(out, errors, r, word::SKIPPED);
    put_disabled(out, skipped, r)
}
