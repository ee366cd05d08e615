// Where a byte stands in a document: its line and its column, counted from 1 (rule N13).
#![tactic(auto)]

ghost use Rattle.std.specs.Prelude.{◌≡◌, take};
ghost use Rattle.explain_spot.specs.Spots.{line_behind, column_behind};

pub use area as the_area;

// The bytes before the one at `at`; all of them where there are fewer.
pub fn before(s: &[u8], at: usize) -> &[u8]
    ensures { result.now ≡ take at s.now }
{
    if at < s.len() {
        return &s[..at];
    }
    s
}

// By rule N13.
pub fn line_behind(s: &[u8]) -> usize
    ensures { result ≡ line_behind s.now }
{
    let mut line = 1;
    for b in s {
        if *b == b'\n' {
            line += 1;
        }
    }
    line
}

// By rule N13.
pub fn column_behind(s: &[u8]) -> usize
    ensures { result ≡ column_behind s.now }
{
    let mut column = 1;
    for b in s {
        if *b == b'\n' {
            column = 1;
        } else if (*b < 0x80) | (0xBF < *b) {
            column += 1;
        }
    }
    column
}
