//! The code points of a text (ECMA-262, 11.1.4).
ghost use Rattle.std.specs.Prelude.{◌≡◌, ◌<◌, length};
ghost use Rattle.js_semantics.specs.Iteration.{is_pair};
ghost use Rattle.js_operators.specs.Points.{EndsPoint};

use wl_text::Units;

// Whether two units are a pair of surrogates.
fn is_pair(high: u16, low: u16) -> bool
    ensures { result ≡ is_pair high low }
{
    55_296 <= high && high <= 56_319 && 56_320 <= low && low <= 57_343
}

/// Where the code point ends that begins at a place of the text: two units behind it for a pair of surrogates, and else
/// one. So the code points of a text are walked from place to place, with no list of them.
///
/// The place is before the text's end.
pub fn point_end(text: &Units, at: usize) -> usize
    requires { at < length text.now }
    ensures { EndsPoint text.now at result }
{
    let units = text.as_slice();
    if at + 1 == units.len() {
        return at + 1;
    }
    if is_pair(units[at], units[at + 1]) {
        return at + 2;
    }
    at + 1
}
