//! Laws on lists of tokens.
ghost use Rattle.std.specs.Prelude.{◌≡◌, ℕ, List, length, true, Ok};
ghost use Rattle.js_token.specs.declared.token.Token.{Token};
ghost use Rattle.js_token.specs.Lists.{EndsAt, AscendFrom, are_nested};
ghost use Rattle.js_token.specs.Tokens.{tokens_of};

/// The tokens of a text end with the one `End`, at the text's length; before it each name is one by `is_name`, each
/// word is one, each number is at most 2^53 - 1, and each mark has one of the marks' numbers.
pub fn tokens_end_once()
    ensures { (bytes : List ℕ) (list : List Token) → tokens_of bytes ≡ Ok list → EndsAt (length bytes) list }
{}

/// The stretches of templates nest in the tokens of a text: behind each that is not its template's last the next one
/// comes.
pub fn templates_nest()
    ensures { (bytes : List ℕ) (list : List Token) → tokens_of bytes ≡ Ok list → are_nested 0 list ≡ true }
{}

/// The places of the tokens of a text ascend strictly.
pub fn places_ascend()
    ensures { (bytes : List ℕ) (list : List Token) → tokens_of bytes ≡ Ok list → AscendFrom 0 list }
{}
