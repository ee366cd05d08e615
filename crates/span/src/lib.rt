// Two instants: which is sooner, and the time between them.
#![tactic(auto)]

ghost use Rattle.std.specs.Prelude.{◌≡◌, ◌-◌};
ghost use Rattle.span.specs.inside.Span as span;

pub use instant as the_instant;
pub use instant::the_timestamp;
use instant::{Instant, less};

pub fn sooner(a: Instant, b: Instant) -> bool
    ensures { result ≡ span.sooner a b }
{
    (a.seconds < b.seconds) | ((a.seconds == b.seconds) & (a.nanos < b.nanos))
}

// What n nanoseconds lack to a second.
fn nanos_under(n: u32) -> u32
    ensures { result ≡ 1000000000 - n }
{
    if 1000000000 < n {
        return 0;
    }
    1000000000 - n
}

pub fn seconds_between(a: Instant, b: Instant) -> u64
    ensures { result ≡ span.seconds_between a b }
{
    let seconds = less(b.seconds, a.seconds);
    if b.nanos < a.nanos {
        return less(seconds, 1);
    }
    seconds
}

pub fn nanos_between(a: Instant, b: Instant) -> u32
    ensures { result ≡ span.nanos_between a b }
{
    if b.nanos < a.nanos {
        return nanos_under(a.nanos - b.nanos);
    }
    b.nanos - a.nanos
}
