//! The numbers of the marks, which are the punctuators of a script (ECMA-262, 12.8).
ghost use Rattle.std.specs.Prelude.{◌≡◌, [], ◌∷◌, map};
ghost use Rattle.js_token.specs.Marks.{marks, mark_number};

/// `{`
pub const OPEN_BRACE: u8 = 0;
/// `}`
pub const CLOSE_BRACE: u8 = 1;
/// `(`
pub const OPEN_PAREN: u8 = 2;
/// `)`
pub const CLOSE_PAREN: u8 = 3;
/// `[`
pub const OPEN_BRACKET: u8 = 4;
/// `]`
pub const CLOSE_BRACKET: u8 = 5;
/// `;`
pub const SEMICOLON: u8 = 6;
/// `,`
pub const COMMA: u8 = 7;
/// `.`
pub const DOT: u8 = 8;
/// `...`
pub const ELLIPSIS: u8 = 9;
/// `<`
pub const LESS: u8 = 10;
/// `>`
pub const GREATER: u8 = 11;
/// `<=`
pub const LESS_EQUAL: u8 = 12;
/// `>=`
pub const GREATER_EQUAL: u8 = 13;
/// `===`
pub const STRICT_EQUAL: u8 = 14;
/// `!==`
pub const STRICT_NOT_EQUAL: u8 = 15;
/// `+`
pub const PLUS: u8 = 16;
/// `-`
pub const MINUS: u8 = 17;
/// `*`
pub const STAR: u8 = 18;
/// `/`
pub const SLASH: u8 = 19;
/// `%`
pub const PERCENT: u8 = 20;
/// `<<`
pub const SHIFT_LEFT: u8 = 21;
/// `>>`
pub const SHIFT_RIGHT: u8 = 22;
/// `>>>`
pub const SHIFT_RIGHT_UNSIGNED: u8 = 23;
/// `&`
pub const BIT_AND: u8 = 24;
/// `|`
pub const BIT_OR: u8 = 25;
/// `^`
pub const BIT_XOR: u8 = 26;
/// `!`
pub const NOT: u8 = 27;
/// `~`
pub const BIT_NOT: u8 = 28;
/// `&&`
pub const AND: u8 = 29;
/// `||`
pub const OR: u8 = 30;
/// `??`
pub const COALESCE: u8 = 31;
/// `?`
pub const QUESTION: u8 = 32;
/// `:`
pub const COLON: u8 = 33;
/// `=`
pub const ASSIGN: u8 = 34;
/// `+=`
pub const ADD_ASSIGN: u8 = 35;
/// `-=`
pub const SUBTRACT_ASSIGN: u8 = 36;
/// `*=`
pub const MULTIPLY_ASSIGN: u8 = 37;
/// `/=`
pub const DIVIDE_ASSIGN: u8 = 38;
/// `%=`
pub const REMAINDER_ASSIGN: u8 = 39;
/// `++`
pub const INCREMENT: u8 = 40;
/// `--`
pub const DECREMENT: u8 = 41;
/// `=>`
pub const ARROW: u8 = 42;

/// A law: in their order, the constants are the numbers of the marks.
pub fn numbers_of_marks()
    ensures { OPEN_BRACE ∷ CLOSE_BRACE ∷ OPEN_PAREN ∷ CLOSE_PAREN ∷ OPEN_BRACKET ∷ CLOSE_BRACKET ∷ SEMICOLON ∷
        COMMA ∷ DOT ∷ ELLIPSIS ∷ LESS ∷ GREATER ∷ LESS_EQUAL ∷ GREATER_EQUAL ∷ STRICT_EQUAL ∷
        STRICT_NOT_EQUAL ∷ PLUS ∷ MINUS ∷ STAR ∷ SLASH ∷ PERCENT ∷ SHIFT_LEFT ∷ SHIFT_RIGHT ∷
        SHIFT_RIGHT_UNSIGNED ∷ BIT_AND ∷ BIT_OR ∷ BIT_XOR ∷ NOT ∷ BIT_NOT ∷ AND ∷ OR ∷ COALESCE ∷
        QUESTION ∷ COLON ∷ ASSIGN ∷ ADD_ASSIGN ∷ SUBTRACT_ASSIGN ∷ MULTIPLY_ASSIGN ∷ DIVIDE_ASSIGN ∷
        REMAINDER_ASSIGN ∷ INCREMENT ∷ DECREMENT ∷ ARROW ∷ [] ≡ map mark_number marks }
{}
