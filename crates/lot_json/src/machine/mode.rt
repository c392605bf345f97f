use crate::Json;
use crate::machine::Literal;
use crate::tokens::{BoundedNumber, TextToken};

/// What comes next in a JSON text. White space may come before it, except within a byte order mark or a token.
#[derive(Drop)]
pub(crate) enum Mode {
    /// A byte order mark or a value: nothing was read.
    Start,
    /// The second byte of a byte order mark.
    MarkSecond,
    /// The third byte of a byte order mark.
    MarkThird,
    /// A value.
    Value,
    /// The first item of an array or its `]`, after the `[`. The array is not on the stack yet.
    Items,
    /// A `,` or the `]`, after an item of the innermost array.
    AfterItem,
    /// The first name of an object or its `}`, after the `{`. The object is not on the stack yet.
    Members,
    /// A name, after a `,` of the innermost object.
    NextMember,
    /// The rest of a name of the innermost object.
    Name(TextToken),
    /// A `:`, after a name of the innermost object.
    Colon,
    /// A `,` or the `}`, after a member of the innermost object.
    AfterMember,
    /// The rest of a string.
    Text(TextToken),
    /// The rest of a number, or the byte after it.
    Number(BoundedNumber),
    /// The rest of a literal name, after this many of its letters.
    Literal(Literal, usize),
    /// White space alone: the root's value was read.
    Done(Json),
}
