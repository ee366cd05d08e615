// Runs of ASCII in texts and values that end nothing, sixteen bytes at a time.
#![tactic(auto)]

ghost use Rattle.std.specs.Prelude.{◌≡◌, ◌≤◌};
ghost use Rattle.xml_calm.specs.inside.Calm.{mild, mild_all, stop_of, Calm};

use xml_state::mode;

fn is_mild(b: u8, stop: u8) -> bool
    ensures { result ≡ mild stop b }
{
    ((0x1F < b) & ((b < 0x80) & ((b != b'<') & ((b != b'&') & (b != stop)))))
        | ((b == 0xA) | (b == 0x9))
}

// No exit before the end: so the compiler takes all bytes at a time.
fn is_calm(part: &[u8], stop: u8) -> bool
    ensures { result ≡ mild_all stop part.now }
{
    let mut odd = false;
    for b in part {
        odd = odd | !is_mild(*b, stop);
    }
    !odd
}

fn stop_of(mode: u8) -> u8
    ensures { result ≡ stop_of mode }
{
    match mode {
        mode::TEXT_IN => b']',
        mode::VALUE_DOUBLE => b'"',
        mode::VALUE_SINGLE => b'\'',
        _ => 0,
    }
}

// A place that only such bytes stand before, from `from` on.
pub fn calm_end(source: &[u8], from: usize, mode: u8) -> usize
    ensures { (from ≤ result) × Calm source.now mode from result }
{
    let stop = stop_of(mode);
    if stop == 0 {
        return from;
    }
    let mut at = from;
    // while: blocks of sixteen from any place on, and the last place is the answer.
    while at < source.len() {
        if source.len() - at < 16 {
            return at;
        }
        let end = at + 16;
        if is_calm(&source[at..end], stop) {
            at = end;
        } else {
            return at;
        }
    }
    at
}
