// Numbers of two bytes each, the low one first.
ghost use Rattle.std.specs.Prelude.{◌≡◌, ◌<◌, length, get_or, set};
ghost use Rattle.key_sort.specs.inside.Numbers.{numbers_in};

// The number at place i.
pub fn number_at(bytes: &[u8], i: usize) -> u32
    requires { i < length (numbers_in bytes.now) }
    ensures value { result ≡ get_or (numbers_in bytes.now) i 0 }
    ensures upper_bound { result < 65536 }
{
    let at = i + i;
    bytes[at] as u32 + bytes[at + 1] as u32 * 256
}

pub fn put_number(bytes: &mut [u8], i: usize, v: u32)
    requires i_in_bounds { i < length (numbers_in bytes.old) }
    requires v_bound { v < 65536 }
    ensures { numbers_in bytes.new ≡ set (numbers_in bytes.old) i v }
{
    let at = i + i;
    bytes[at] = (v % 256) as u8;
    bytes[at + 1] = (v / 256) as u8;
}
