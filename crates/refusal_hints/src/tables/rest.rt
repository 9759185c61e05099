// Rows: the first that fits is told.
use around_place::Inside::Bracket;
use around_place::Test::{Is, Name};
use around_place::{ANYWHERE, Row};

/// Code 9: names that stand twice.
pub fn twice() -> &'static [Row] {
    &TWICE
}

static TWICE: [Row; 3] = [
    Row {
        before: &[Is("let")],
        at: &[Name],
        sentence: "The name is there twice: to set it anew leave `let` out.",
        example: "a = 2",
        ..ANYWHERE
    },
    Row {
        before: &[Is("const")],
        at: &[Name],
        sentence: "The name is there twice, and a `const` is never set anew: give one of them another name.",
        example: "const second = 2",
        ..ANYWHERE
    },
    Row {
        before: &[Is("function")],
        at: &[Name],
        sentence: "Two functions, or a function and a global, have this name: give one of them another.",
        example: "function second(): void { }",
        ..ANYWHERE
    },
];

/// Code 10: what a handler can't reach.
pub fn captured() -> &'static [Row] {
    &CAPTURED
}

static CAPTURED: [Row; 2] = [
    Row {
        at: &[Is("this")],
        sentence: "A handler can't use `this` of the method around it: let a global hold the object.",
        example: "let player = new Player()",
        ..ANYWHERE
    },
    Row {
        at: &[Name],
        sentence: "A handler can't use a local of the function around it: make it a global, declared outside.",
        example: "let n = 0",
        ..ANYWHERE
    },
];

/// Code 12: types that can't be told.
pub fn untold() -> &'static [Row] {
    &UNTOLD
}

static UNTOLD: [Row; 8] = [
    Row {
        before: &[Is("let")],
        at: &[Name, Is("="), Is("["), Is("]")],
        sentence: "An empty list wants its type.",
        example: "let a: number[] = []",
        ..ANYWHERE
    },
    Row {
        before: &[Is("let")],
        at: &[Name, Is("="), Is("null")],
        sentence: "What is null at first wants its type.",
        example: "let p: string = null",
        ..ANYWHERE
    },
    Row {
        before: &[Is("let")],
        at: &[Name],
        sentence: "A name without a value wants its type.",
        example: "let x: number",
        ..ANYWHERE
    },
    Row {
        line: &[Is("function")],
        at: &[Name],
        inside: Bracket(b'('),
        sentence: "A parameter wants its type.",
        example: "function f(n: number): void { }",
        ..ANYWHERE
    },
    Row {
        before: &[Is("."), Name, Is("(")],
        at: &[Name],
        sentence: "The type of this name isn't known: `for` .. `of` goes through a list alone, and a name gets its type from its value, or from what is written after a `:`.",
        example: "for (let x of [1, 2]) { basic.showNumber(x) }",
        ..ANYWHERE
    },
    Row {
        at: &[Name],
        inside: Bracket(b'('),
        sentence: "A parameter wants its type.",
        example: "class A { f(n: number): void { } }",
        ..ANYWHERE
    },
    Row {
        at: &[Name, Is("(")],
        sentence: "A function that calls itself wants the type of its result.",
        example: "function f(): number { return f() }",
        ..ANYWHERE
    },
    Row {
        at: &[Name],
        sentence: "A name without a value wants its type.",
        example: "class A { x: number }",
        ..ANYWHERE
    },
];

/// Code 13: functions and handlers.
pub fn handlers_1() -> &'static [Row] {
    &HANDLERS_1
}

static HANDLERS_1: [Row; 10] = [
    Row {
        before: &[Is("basic"), Is("."), Is("forever"), Is("(")],
        sentence: "`basic.forever` takes a handler: a function without parameters that gives no value.",
        example: "basic.forever(function () { })",
        ..ANYWHERE
    },
    Row {
        before: &[Is("control"), Is("."), Is("inBackground"), Is("(")],
        sentence: "`control.inBackground` takes a handler: a function without parameters that gives no value.",
        example: "control.inBackground(function () { })",
        ..ANYWHERE
    },
    Row {
        before: &[
            Is("input"),
            Is("."),
            Is("onButtonPressed"),
            Is("("),
            Is("Button"),
            Is("."),
            Name,
            Is(","),
        ],
        sentence: "`input.onButtonPressed` takes a button and a handler: a function without parameters that gives no value.",
        example: "input.onButtonPressed(Button.A, function () { })",
        ..ANYWHERE
    },
    Row {
        at: &[Is("basic"), Is("."), Is("forever"), Is("("), Name, Is("(")],
        sentence: "A handler is given by its name alone, without parentheses.",
        example: "basic.forever(f)",
        ..ANYWHERE
    },
    Row {
        at: &[
            Is("control"),
            Is("."),
            Is("inBackground"),
            Is("("),
            Name,
            Is("("),
        ],
        sentence: "A handler is given by its name alone, without parentheses.",
        example: "control.inBackground(f)",
        ..ANYWHERE
    },
    Row {
        at: &[
            Is("input"),
            Is("."),
            Is("onButtonPressed"),
            Is("("),
            Is("Button"),
            Is("."),
            Name,
            Is(","),
            Name,
            Is("("),
        ],
        sentence: "A handler is given by its name alone, without parentheses.",
        example: "input.onButtonPressed(Button.A, f)",
        ..ANYWHERE
    },
    Row {
        at: &[Is("basic"), Is("."), Is("forever"), Is("(")],
        sentence: "`basic.forever` takes a handler: a function without parameters that gives no value.",
        example: "basic.forever(function () { })",
        ..ANYWHERE
    },
    Row {
        at: &[Is("control"), Is("."), Is("inBackground"), Is("(")],
        sentence: "`control.inBackground` takes a handler: a function without parameters that gives no value.",
        example: "control.inBackground(function () { })",
        ..ANYWHERE
    },
    Row {
        at: &[Is("input"), Is("."), Is("onButtonPressed"), Is("(")],
        sentence: "`input.onButtonPressed` takes a button and a handler: a function without parameters that gives no value.",
        example: "input.onButtonPressed(Button.A, function () { })",
        ..ANYWHERE
    },
    Row {
        at: &[Is("control"), Is("."), Is("onEvent"), Is("(")],
        sentence: "`control.onEvent` takes a source, a value and a handler: a function without parameters that gives no value. What came is given by `control.eventValue()`.",
        example: "control.onEvent(200, 0, function () { serial.writeNumber(control.eventValue()) })",
        ..ANYWHERE
    },
];

/// Code 13: functions and handlers, part 2.
pub fn handlers_2() -> &'static [Row] {
    &HANDLERS_2
}

static HANDLERS_2: [Row; 10] = [
    Row {
        at: &[Is("control"), Is("."), Is("onEventFlags"), Is("(")],
        sentence: "`control.onEventFlags` takes a source, a value, a handler and flags. A handler is a function without parameters that gives no value: what came is given by `control.eventValue()`.",
        example: "control.onEventFlags(50, 1, function () { }, EventFlags.DropIfBusy)",
        ..ANYWHERE
    },
    Row {
        at: &[Name, Is("."), Name, Is("[")],
        sentence: "What a call is given is in `( )`.",
        example: "basic.pause(100)",
        ..ANYWHERE
    },
    Row {
        at: &[Name, Is("."), Name, Is("=")],
        sentence: "A call of the board is no variable: what it is given is in `( )`.",
        example: "led.plot(2, 2)",
        ..ANYWHERE
    },
    Row {
        at: &[Name, Is("."), Name, Is("(")],
        sentence: "What is before the dot is a function of the program, which has no members. If the board is meant: the function's name hides the board's, so give it another.",
        example: "function lights(): void { }",
        ..ANYWHERE
    },
    Row {
        at: &[Name, Is("."), Name],
        sentence: "A call has parentheses after its name, also where it is given nothing.",
        example: "basic.clearScreen()",
        ..ANYWHERE
    },
    Row {
        line: &[Is("control"), Is("."), Is("onEvent"), Is("(")],
        inside: Bracket(b'('),
        sentence: "`control.onEvent` takes a source, a value and a handler: a function without parameters that gives no value. What came is given by `control.eventValue()`.",
        example: "control.onEvent(200, 0, function () { serial.writeNumber(control.eventValue()) })",
        ..ANYWHERE
    },
    Row {
        line: &[Is("control"), Is("."), Is("onEventFlags"), Is("(")],
        inside: Bracket(b'('),
        sentence: "`control.onEventFlags` takes a source, a value, a handler and flags. A handler is a function without parameters that gives no value: what came is given by `control.eventValue()`.",
        example: "control.onEventFlags(50, 1, function () { }, EventFlags.DropIfBusy)",
        ..ANYWHERE
    },
    Row {
        at: &[Is("function")],
        sentence: "A function without a name is a handler in a call alone: write it by its name.",
        example: "function f(): void { }",
        ..ANYWHERE
    },
    Row {
        at: &[Is("(")],
        sentence: "An arrow is a handler in a call alone: write a function by its name.",
        example: "function f(): void { }",
        ..ANYWHERE
    },
    Row {
        at: &[Name],
        sentence: "A function is no value: parentheses after its name call it.",
        example: "f()",
        ..ANYWHERE
    },
];
