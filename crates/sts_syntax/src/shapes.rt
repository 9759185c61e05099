// Types as a program writes them.

/// A type as it is written, at a name, a parameter or a result.
pub enum Shape {
    /// `number`
    Number,
    /// `boolean`
    Boolean,
    /// `string`
    Text,
    /// `void`, which stands only as a result
    Nothing,
    /// Another name, which should be a class.
    Named {
        /// the place of the name in the text, in bytes
        at: u32,
        /// the name's number in `Tables::names`
        name: u32,
    },
    /// The item type with `[]` behind it.
    List(Box<Shape>),
}

/// Takes the type apart in a loop, since a text has room for 32,000 `[]`.
impl Drop for Shape {
    fn drop(mut self) {
        loop {
            match self {
                Shape::List(item) => self = Box::into_inner(item),
                Shape::Number | Shape::Boolean | Shape::Text | Shape::Nothing => return,
                Shape::Named { at: _, name: _ } => return,
            }
        }
    }
}
