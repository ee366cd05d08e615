// Whether a record is good by itself: docs/TREE.md.
#![tactic(auto)]

ghost use Rattle.std.specs.Prelude.{◌≡◌, ◌≤◌, length};
ghost use Rattle.tree_moments.specs.of_tree_report.Fields.{kind_of};
ghost use Rattle.tree_moments.specs.of_tree_report.Layout.{good_record};
ghost use Rattle.tree_moments.specs.of_tree_report.inside.Parts.{only_bits, bits_for, good_common, good_outputs, good_counts, good_host, good_report, good_suite, good_case, good_other};
ghost use Rattle.tree_shape.specs.inside.Records.{is_record};

use tree_moments::the_tree_record::{bit, has_bit, kind, word};
use tree_moments::the_tree_slots::{free_slot, is_zero, text_slot};
pub use tree_moments::{
    the_area, the_fixed, the_names, the_refusal, the_text_filter, the_timestamp, the_tree_record,
    the_tree_slots, the_utf8, the_uuids,
};
use tree_moments::{moment_slot, time_slot};

fn good_common(texts: &[u8], r: &[u32]) -> bool
    requires { 32 ≤ length r.now }
    ensures { result ≡ good_common texts.now r.now }
{
    text_slot(texts, r, bit::NAME, word::NAME) & (moment_slot(r) & time_slot(r))
}

fn good_outputs(texts: &[u8], r: &[u32]) -> bool
    requires { 32 ≤ length r.now }
    ensures { result ≡ good_outputs texts.now r.now }
{
    text_slot(texts, r, bit::OUT, word::OUT) & text_slot(texts, r, bit::ERR, word::ERR)
}

fn good_counts(r: &[u32]) -> bool
    requires { 32 ≤ length r.now }
    ensures { result ≡ good_counts r.now }
{
    free_slot(r, bit::DISABLED, word::DISABLED, 2) & is_zero(&r[28..32])
}

// What stands behind a suite's counts, and their last.
fn good_host(texts: &[u8], r: &[u32]) -> bool
    requires { 32 ≤ length r.now }
    ensures { result ≡ good_host texts.now r.now }
{
    free_slot(r, bit::DISABLED, word::DISABLED, 2)
        & (text_slot(texts, r, bit::HOSTNAME, word::HOSTNAME) & is_zero(&r[30..32]))
}

fn good_report(texts: &[u8], r: &[u32]) -> bool
    requires { 32 ≤ length r.now }
    ensures { result ≡ good_report texts.now r.now }
{
    let bits = r[word::BITS];
    // Name and UUID, timestamp and time, disabled.
    let only = bits == bits % 4 + bits / 8 % 4 * 8 + bits / 256 % 2 * 256;
    only & (good_common(texts, r) & (free_slot(r, bit::UUID, word::UUID, 4) & good_counts(r)))
}

fn good_suite(texts: &[u8], r: &[u32]) -> bool
    requires { 32 ≤ length r.now }
    ensures { result ≡ good_suite texts.now r.now }
{
    let bits = r[word::BITS];
    // From name to time, disabled, hostname.
    let only = bits == bits % 32 + bits / 256 % 2 * 256 + bits / 1024 % 2 * 1024;
    only & (has_bit(r, bit::NAME)
        & (good_common(texts, r) & (good_outputs(texts, r) & good_host(texts, r))))
}

fn good_case(texts: &[u8], r: &[u32]) -> bool
    requires { 32 ≤ length r.now }
    ensures { result ≡ good_case texts.now r.now }
{
    // From name to assertions.
    let only = r[word::BITS] < 128;
    let texts_good = good_outputs(texts, r)
        & (text_slot(texts, r, bit::CLASSNAME, word::CLASSNAME)
            & (free_slot(r, bit::ASSERTIONS, word::ASSERTIONS, 2) & is_zero(&r[22..32])));
    only & (has_bit(r, bit::NAME) & (good_common(texts, r) & texts_good))
}

// The presence bits of properties and extras (name or key, value), of mains (message, type and description, and the flaky bit
// but for skipped) and of runs (all texts, timestamp and time).
fn only_other(r: &[u32]) -> bool
    requires { 32 ≤ length r.now }
    ensures { result ≡ only_bits (bits_for (kind_of r.now)) r.now }
{
    let k = r[word::KIND];
    let bits = r[word::BITS];
    if (k <= kind::CASE_PROPERTY) | (kind::SUITE_EXTRA <= k) {
        return bits < 4;
    }
    if k <= kind::ERROR {
        return bits == bits % 2 + bits / 32 % 4 * 32 + bits / 512 % 2 * 512;
    }
    if k <= kind::SKIPPED {
        return bits == bits % 2 + bits / 32 % 4 * 32;
    }
    bits < 256
}

fn good_other(texts: &[u8], r: &[u32]) -> bool
    requires { 32 ≤ length r.now }
    ensures { result ≡ good_other texts.now r.now }
{
    let k = r[word::KIND];
    let whole = ((kind::FAILURE <= k) & (k <= kind::RERUN_ERROR))
        | (has_bit(r, bit::NAME) & has_bit(r, bit::VALUE));
    let reasons = text_slot(texts, r, bit::TYPE, word::TYPE)
        & (text_slot(texts, r, bit::DESCRIPTION, word::DESCRIPTION)
            & (text_slot(texts, r, bit::STACK_TRACE, word::STACK_TRACE) & is_zero(&r[24..32])));
    only_other(r) & (whole & (good_common(texts, r) & (good_outputs(texts, r) & reasons)))
}

fn good_record(texts: &[u8], r: &[u32]) -> bool
    requires { 32 ≤ length r.now }
    ensures { result ≡ good_record texts.now r.now }
{
    let k = r[word::KIND];
    if kind::DEAD <= k {
        // A dead record keeps its kind with 16 more.
        return (17 <= k) & (k <= 30);
    }
    match k {
        kind::REPORT => good_report(texts, r),
        kind::SUITE => good_suite(texts, r),
        kind::CASE => good_case(texts, r),
        _ => (k <= kind::CASE_EXTRA) & good_other(texts, r),
    }
}

// The record that the words begin with.
pub fn is_record(texts: &[u8], words: &[u32]) -> bool
    ensures { result ≡ is_record texts.now words.now }
{
    if words.len() < 32 {
        return false;
    }
    good_record(texts, &words[..32])
}
