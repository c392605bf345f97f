//! The tokens of a JSON text that any number of bytes spell: numbers and strings, read some bytes at a time.

mod bounded_number;
mod byte_sequence;
mod character;
mod code_unit;
mod high_surrogate;
mod number_token;
mod text_token;
mod unescaped;

pub(crate) use bounded_number::BoundedNumber;
pub(crate) use number_token::NumberToken;
pub(crate) use text_token::TextToken;
pub(crate) use unescaped::string_without_escapes;
