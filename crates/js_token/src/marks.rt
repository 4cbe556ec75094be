//! The marks of a script, which are its punctuators (ECMA-262, 12.8).
ghost use Rattle.std.specs.Prelude.{◌≡◌, ◌<◌, ◌≤◌, length, nat_eq, IfSome};
ghost use Rattle.std.specs.Option.{option_map};
ghost use Rattle.std.specs.Cmp.Lexicographic.{pointwise};
ghost use Rattle.js_token.specs.Characters.{symbols};
ghost use Rattle.js_token.specs.Marks.{mark_place, mark_of_size, mark_at};

use crate::characters::Placed;

/// The marks, in the order of their numbers.
const MARKS: [&str; 43] = [
    "{", "}", "(", ")", "[", "]", ";", ",", ".", "...", "<", ">", "<=", ">=", "===", "!==", "+",
    "-", "*", "/", "%", "<<", ">>", ">>>", "&", "|", "^", "!", "~", "&&", "||", "??", "?", ":",
    "=", "+=", "-=", "*=", "/=", "%=", "++", "--", "=>",
];

// Whether the characters are those of the mark.
fn is_spelled(chars: &[Placed], mark: &str) -> bool
    ensures { result ≡ pointwise nat_eq (symbols chars.now) mark.now }
{
    let mut letters = mark.as_bytes();
    let mut rest = chars;
    'letters: while let Some((first, more)) = rest.split_first() {
        let Some((letter, more_letters)) = letters.split_first() else {
            return false;
        };
        if first.symbol as u32 != u32::from(*letter) {
            return false;
        }
        letters = more_letters;
        rest = more;
    }
    letters.is_empty()
}

// The number of the mark that the characters spell, if they spell one.
#[tactic(auto, unfolding(crate::specs::Marks::mark_place))]
fn mark_place(chars: &[Placed]) -> Option<usize>
    ensures value { result ≡ mark_place (symbols chars.now) }
    ensures range { IfSome result (λ number. number < 43) }
{
    MARKS.iter().position(|mark| is_spelled(chars, mark))
}

// The mark of so many characters at the front, and what stands behind it.
fn mark_of_size(size: usize, chars: &[Placed]) -> Option<(u8, &[Placed])>
    requires size { 1 ≤ size }
    requires some { 1 ≤ length chars.now }
    ensures value { option_map (λ x. (x.0, x.1.now)) result ≡ mark_of_size size chars.now }
    ensures within { IfSome result (λ x. length x.1.now < length chars.now) }
{
    let (text, rest) = chars.split_at(size.min(chars.len()));
    let number = mark_place(text)?;
    Some((number as u8, rest))
}

/// The longest mark at the front, and what stands behind it.
#[tactic(auto, unfolding(crate::specs::Marks::mark_at))]
pub(crate) fn mark_at(chars: &[Placed]) -> Option<(u8, &[Placed])>
    requires { 1 ≤ length chars.now }
    ensures value { option_map (λ x. (x.0, x.1.now)) result ≡ mark_at chars.now }
    ensures within { IfSome result (λ x. length x.1.now < length chars.now) }
{
    if let Some(found) = mark_of_size(3, chars) {
        return Some(found);
    }
    if let Some(found) = mark_of_size(2, chars) {
        return Some(found);
    }
    mark_of_size(1, chars)
}
