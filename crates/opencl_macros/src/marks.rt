//! Signs, told apart.

ghost use Rattle.std.specs.Prelude.{◌≡◌};
ghost use Rattle.opencl_tokens.specs.Spelling.{sign};
ghost use Rattle.opencl_macros.specs.SignNumbers.{sign_number, same_sign};

use opencl_tokens::Sign;

/// Other signs have other numbers.
fn sign_number(mark: Sign) -> u8
    ensures { result ≡ sign_number (sign mark) }
{
    match mark {
        Sign::LeftShiftEqual => 0,
        Sign::RightShiftEqual => 1,
        Sign::LeftShift => 2,
        Sign::RightShift => 3,
        Sign::LessEqual => 4,
        Sign::GreaterEqual => 5,
        Sign::EqualEqual => 6,
        Sign::NotEqual => 7,
        Sign::AndAnd => 8,
        Sign::OrOr => 9,
        Sign::PlusEqual => 10,
        Sign::MinusEqual => 11,
        Sign::StarEqual => 12,
        Sign::SlashEqual => 13,
        Sign::PercentEqual => 14,
        Sign::AndEqual => 15,
        Sign::OrEqual => 16,
        Sign::CaretEqual => 17,
        Sign::PlusPlus => 18,
        Sign::MinusMinus => 19,
        Sign::LeftParenthesis => 20,
        Sign::RightParenthesis => 21,
        Sign::LeftBrace => 22,
        Sign::RightBrace => 23,
        Sign::LeftBracket => 24,
        Sign::RightBracket => 25,
        Sign::Semicolon => 26,
        Sign::Comma => 27,
        Sign::Star => 28,
        Sign::Plus => 29,
        Sign::Minus => 30,
        Sign::Slash => 31,
        Sign::Percent => 32,
        Sign::And => 33,
        Sign::Or => 34,
        Sign::Caret => 35,
        Sign::Tilde => 36,
        Sign::Not => 37,
        Sign::Less => 38,
        Sign::Greater => 39,
        Sign::Equal => 40,
        Sign::Question => 41,
        Sign::Colon => 42,
        Sign::Arrow => 43,
        Sign::Dot => 44,
        Sign::Ellipsis => 45,
        Sign::Hash => 46,
        Sign::HashHash => 47,
    }
}

pub fn same_sign(a: Sign, b: Sign) -> bool
    ensures { result ≡ same_sign (sign a) (sign b) }
{
    sign_number(a) == sign_number(b)
}
