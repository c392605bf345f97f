//! The machine that reads a JSON text, some bytes at a time, with no recursion.

mod array;
mod byte_order_mark;
mod container;
mod literal;
mod machine;
mod member;
mod mode;
mod number;
mod object;
mod string;
mod value;
mod white_space;

pub(crate) use container::Container;
pub(crate) use literal::Literal;
pub(crate) use machine::Machine;
pub(crate) use mode::Mode;
pub(crate) use white_space::is_white_space;
