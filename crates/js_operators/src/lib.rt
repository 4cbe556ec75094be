//! Operators and conversions over values: whole numbers, texts, booleans and objects.
#![tactic(auto)]

mod answer;
mod binary;
mod bits;
mod convert;
mod numbers;
mod points;
mod texts;
mod types;
mod unary;

pub use answer::{Answer, settled_alike};
pub use binary::of_operands;
pub use bits::byte_of;
pub use convert::{is_truthy, key_of, primitive_text, same_text, short_text, strictly_equal};
pub use numbers::of_numbers;
pub use points::point_end;
pub use texts::{joined_text, made_text, of_texts};
pub use types::{is_callable, is_callable_value, type_word};
pub use unary::{moved, unary_of};

#[cfg(test)]
mod tests;
