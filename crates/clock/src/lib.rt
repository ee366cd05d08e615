// The clock of a timestamp.
#![tactic(auto)]

ghost use Rattle.std.specs.Prelude.{◌≡◌, ◌≤◌, length};
ghost use Rattle.clock.specs.inside.Leaves.{clock_of};

pub use fixed as the_fixed;
use fixed::decimal_at;

// Hour, minute and second. By rule V7.
pub fn clock_of(s: &[u8]) -> Option<(u8, u8, u8)>
    requires { 20 ≤ length s.now }
    ensures { result ≡ clock_of s.now }
{
    let hour = decimal_at(s, 11, 2, 23)?;
    let minute = decimal_at(s, 14, 2, 59)?;
    let second = decimal_at(s, 17, 2, 59)?;
    let letter = (s[10] == 0x54) | (s[10] == 0x74);
    if letter & (s[13] == 0x3a) & (s[16] == 0x3a) {
        return Some((hour as u8, minute as u8, second as u8));
    }
    None
}
