// Whether two lent areas hold a report: docs/TREE.md.
#![tactic(auto)]

pub use tree_shape::{
    the_area, the_fixed, the_names, the_refusal, the_timestamp, the_tree_record, the_uuids,
};

mod texts;

ghost use Rattle.std.specs.Prelude.{◌≡◌, ◌≤◌, length};
ghost use Rattle.tree_order.specs.of_tree_report.Layout.{layout};
ghost use Rattle.tree_shape.specs.of_area.Limits.{most_words};
ghost use Rattle.tree_shape.specs.of_tree_status.Status.{Few};
ghost use Rattle.tree_order.specs.inside.Open.{state_of};
ghost use Rattle.tree_layout.specs.inside.Walk.{admits, behind, stands_at, walked};

use tree_order::State;
use tree_shape::the_area::{least, limit};
use tree_shape::the_tree_record::{kind, word};

// Whether a record stands at the word `at`: 32 words are left, and its kind isn't 0.
fn stands_at(words: &[u32], at: usize, limit: usize) -> bool
    requires { (at ≤ limit) × (limit ≤ length words.now) }
    ensures { result ≡ stands_at words.now at limit }
{
    if limit - at < 32 {
        return false;
    }
    words[at] != 0
}

fn admitted(texts: &[u8], state: State, r: &[u32]) -> bool
    requires { length r.now ≡ 32 }
    ensures { result ≡ admits texts.now (state_of state) r.now }
{
    tree_shape::is_record(texts, r)
        & (!(r[word::KIND] < kind::DEAD) | tree_order::may_follow(state, r))
}

fn next(state: State, r: &[u32]) -> State
    requires { (length r.now ≡ 32) × Few 4294967294 state.tally }
    ensures { state_of result ≡ behind (state_of state) r.now }
{
    if r[word::KIND] < kind::DEAD {
        return tree_order::following(state, r);
    }
    state
}

// The first `limit` words: good records in good order, and zeros behind them.
fn good_records(texts: &[u8], words: &[u32], limit: usize) -> bool
    requires { (limit ≤ length words.now) × (limit ≤ most_words) }
    ensures { result ≡ walked texts.now words.now limit }
{
    let mut at = 0;
    let mut state = tree_order::nothing();
    // while: ends where no record stands, and what is left is looked at behind it.
    while stands_at(words, at, limit) {
        let end = at + 32;
        let r = &words[at..end];
        at = end;
        if admitted(texts, state, r) {
            state = next(state, r);
        } else {
            return false;
        }
    }
    tree_order::may_stop(state) & tree_shape::the_tree_slots::is_zero(&words[at..limit])
}

// By rules M8 and M9.
pub fn is_layout(records: &[u32], text: &[u8]) -> bool
    ensures { result ≡ layout records.now text.now }
{
    let bytes = least(text.len(), limit::BYTES);
    let used = &text[..bytes];
    let fill = tree_shape::the_area::first_at(used, 0);
    let limit = least(records.len(), limit::WORDS);
    texts::is_good(used, fill) & good_records(&used[..fill], records, limit)
}
