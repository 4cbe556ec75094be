//! Numbers of 32 and of 8 bits.
ghost use Rattle.std.specs.Prelude.{◌≡◌};
ghost use Rattle.js_semantics.specs.Operators.{to_unsigned, to_signed};
ghost use Rattle.js_semantics.specs.Properties.{byte_of};

/// The number modulo 2^32 (ECMA-262, 7.1.7: ToUint32).
pub(crate) fn to_unsigned(number: i64) -> u32
    ensures { result ≡ to_unsigned number }
{
    (number.cast_unsigned() % 4_294_967_296) as u32
}

/// The number of 32 bits with a sign (ECMA-262, 7.1.6: ToInt32).
pub(crate) fn to_signed(bits: u32) -> i32
    ensures { result ≡ to_signed bits }
{
    bits.cast_signed()
}

/// The byte that a number is, modulo 256 (ECMA-262, 7.1.11: ToUint8).
pub fn byte_of(number: i64) -> u8
    ensures { result ≡ byte_of number }
{
    (number.cast_unsigned() % 256) as u8
}
