// A part of an area moved to its front.
#![tactic(auto)]

ghost use Rattle.std.specs.Prelude.{◌≡◌, ◌+◌, ◌≤◌, length, take, drop};
ghost use Rattle.area.specs.Area.{laid};

pub use area as the_area;
pub use area::the_refusal;

// The n bytes from number `from` on are put at the front; what they don't reach stays.
pub fn move_front(area: &mut [u8], from: usize, n: usize)
    requires { from + n ≤ length area.old }
    ensures { area.new ≡ laid area.old (take n (drop from area.old)) }
{
    area.copy_within(from..from + n, 0);
}
