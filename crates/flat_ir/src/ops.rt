// The types of flat code.

use sts_base::Seq;

/// One op. Temporaries are numbers from 0, the parameters of the function first. An op writes the temporary `to` and
/// reads the others that it names; places of ops are counted from 0 in the function's `ops`.
#[derive(Drop)]
pub enum Op {
    /// a whole number; a truth value is 1 or 0, and null is 0
    Const {
        /// where the number goes
        to: u32,
        /// the number
        value: i32,
    },
    /// a further copy of a value
    Copy {
        /// where the value goes
        to: u32,
        /// where it stands
        from: u32,
    },
    /// an operator of one operand
    Unary {
        /// where the result goes
        to: u32,
        /// the operator, by its number among the prefix operators
        op: u8,
        /// the operand
        from: u32,
    },
    /// an operator of two operands
    Binary {
        /// where the result goes
        to: u32,
        /// the operator, by its number among the binary operators
        op: u8,
        /// the left operand
        left: u32,
        /// the right operand
        right: u32,
    },
    /// reads a global
    GlobalGet {
        /// where its value goes
        to: u32,
        /// the global, by its number
        slot: u32,
    },
    /// writes a global
    GlobalSet {
        /// the global, by its number
        slot: u32,
        /// where its new value stands
        from: u32,
    },
    /// reads a field of an object; panic 105 through null
    FieldGet {
        /// where its value goes
        to: u32,
        /// where the object stands
        object: u32,
        /// the field, by its number in the object's class, from 0
        field: u32,
    },
    /// writes a field of an object; panic 105 through null
    FieldSet {
        /// where the object stands
        object: u32,
        /// the field, by its number in the object's class, from 0
        field: u32,
        /// where its new value stands
        from: u32,
    },
    /// reads an item of an array
    ItemGet {
        /// where its value goes
        to: u32,
        /// where the array stands
        array: u32,
        /// where the item's index stands
        index: u32,
    },
    /// writes an item of an array
    ItemSet {
        /// where the array stands
        array: u32,
        /// where the item's index stands
        index: u32,
        /// where its new value stands
        from: u32,
    },
    /// the number of an array's items; panic 105 through null
    Length {
        /// where the number goes
        to: u32,
        /// where the array stands
        array: u32,
    },
    /// takes the last item off an array
    Pop {
        /// where the item goes
        to: u32,
        /// where the array stands
        array: u32,
    },
    /// a text
    TextOf {
        /// where it goes
        to: u32,
        /// the text, by its number in the program's table of texts
        text: u32,
    },
    /// a new object, each field with its default
    MakeObject {
        /// where it goes
        to: u32,
        /// its class, by its number in `FlatCode::classes`
        class: u32,
    },
    /// a new array without items
    MakeArray {
        /// where it goes
        to: u32,
        /// how many items it has room for
        room: u32,
    },
    /// calls a function; the next op follows when it has returned
    Call {
        /// where its result goes
        to: u32,
        /// the function, by its number in `FlatCode::functions`
        function: u32,
        /// where the arguments stand
        args: Seq<u32>,
    },
    /// calls the method that stands in a slot of the class of the first argument; panic 105 through null
    CallSlot {
        /// where its result goes
        to: u32,
        /// the slot, by its number in `FlatClass::slots`
        slot: u32,
        /// where the arguments stand, the receiver first
        args: Seq<u32>,
    },
    /// a function as a value
    HandlerOf {
        /// where it goes
        to: u32,
        /// the function, by its number in `FlatCode::functions`
        function: u32,
    },
    /// asks for a service of the board
    Ask {
        /// where its answer goes
        to: u32,
        /// the service's number, below 24
        service: u8,
        /// where the arguments stand
        args: Seq<u32>,
    },
    /// goes on at another op
    Jump {
        /// its place
        target: u32,
    },
    /// goes on at another op where a value isn't 0, and else at the next one
    Branch {
        /// where the value stands
        when: u32,
        /// the place of the other op
        target: u32,
    },
    /// returns to the caller
    Return {
        /// where the result stands
        from: u32,
    },
}

/// A function. Its temporaries are the parameters, then the locals, then the operands.
#[derive(Drop)]
pub struct Function {
    /// how many parameters it has
    pub params: u32,
    /// how many locals it has
    pub locals: u32,
    /// how many operands it has at once, at most
    pub operands: u32,
    /// how many words of its frame are for the arguments of calls
    pub outgoing: u32,
    /// its ops; it begins with the first
    pub ops: Seq<Op>,
}

/// A class.
#[derive(Drop)]
pub struct FlatClass {
    /// how many words an object takes, its header among them
    pub words: u32,
    /// the method in each slot, by its number in `FlatCode::functions`
    pub slots: Seq<u32>,
}

/// A whole program.
#[derive(Drop)]
pub struct FlatCode {
    /// the functions, by their number
    pub functions: Seq<Function>,
    /// the classes, by their number
    pub classes: Seq<FlatClass>,
    /// the number of the main function
    pub main: u32,
}
