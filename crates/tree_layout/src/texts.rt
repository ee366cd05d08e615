// The text area.
ghost use Rattle.std.specs.Prelude.{◌≡◌, length};
ghost use Rattle.tree_order.specs.of_tree_report.Layout.{filled, all_zero, good_text};

// No exit before the end: so the compiler takes many bytes at a time.
fn is_zero(s: &[u8]) -> bool
    ensures { result ≡ all_zero s.now }
{
    let mut odd = false;
    for b in s {
        odd = odd | (*b != 0);
    }
    !odd
}

// By rule M10.
pub fn is_good(s: &[u8], fill: usize) -> bool
    requires { fill ≡ length (filled s.now) }
    ensures { result ≡ good_text s.now }
{
    tree_shape::the_utf8::is_utf8(&s[..fill])
        & (tree_shape::the_text_filter::is_clean(&s[..fill]) & is_zero(&s[fill..]))
}
