// Rows: the first that fits is told.
use around_place::Inside::{Bracket, Nothing, Unclosed};
use around_place::Test::{Any, Is, Name, Number, Sign, Text};
use around_place::{ANYWHERE, Row};

/// Code 6: brackets that are missing around a function's body.
pub fn bodies() -> &'static [Row] {
    &BODIES
}

static BODIES: [Row; 3] = [
    Row {
        before: &[Is("function"), Name, Is("("), Is(")")],
        at: &[Is("return")],
        sentence: "The body of a function is in `{ }`, also where it is one statement.",
        example: "function f(): number { return 5 }",
        ..ANYWHERE
    },
    Row {
        line: &[Is("function")],
        before: &[Is(")")],
        at: &[Is("return")],
        sentence: "The body of a function is in `{ }`, also where it is one statement.",
        example: "function f(): number { return 5 }",
        ..ANYWHERE
    },
    Row {
        before: &[Is(")"), Is(":"), Name],
        at: &[Is("return")],
        sentence: "The body of a function is in `{ }`, also where it is one statement.",
        example: "function f(): number { return 5 }",
        ..ANYWHERE
    },
];

/// Code 6: brackets and marks that are missing or too many.
pub fn marks_1() -> &'static [Row] {
    &MARKS_1
}

static MARKS_1: [Row; 10] = [
    Row {
        last: true,
        inside: Unclosed(b'{'),
        sentence: "A `{` isn't closed: a `}` is missing, here at the end at the latest. The first line that is less far in than it should shows where.",
        example: "if (true) { basic.pause(1) }",
        ..ANYWHERE
    },
    Row {
        last: true,
        inside: Unclosed(b'('),
        sentence: "A `(` isn't closed: a `)` is missing.",
        example: "basic.pause(1)",
        ..ANYWHERE
    },
    Row {
        last: true,
        inside: Unclosed(b'['),
        sentence: "A `[` isn't closed: a `]` is missing.",
        example: "let a = [1, 2]",
        ..ANYWHERE
    },
    Row {
        at: &[Is(")")],
        inside: Unclosed(b'{'),
        sentence: "A `{` isn't closed: a `}` is missing before this `)`. The first line that is less far in than it should shows where.",
        example: "basic.forever(function () { basic.pause(1) })",
        ..ANYWHERE
    },
    Row {
        at: &[Is(")")],
        inside: Unclosed(b'['),
        sentence: "A `[` isn't closed: a `]` is missing before this `)`.",
        example: "serial.writeNumber(a[0])",
        ..ANYWHERE
    },
    Row {
        at: &[Is("]")],
        inside: Unclosed(b'('),
        sentence: "A `(` isn't closed: a `)` is missing before this `]`.",
        example: "let x = a[(1 + 2)]",
        ..ANYWHERE
    },
    Row {
        at: &[Is("]")],
        inside: Unclosed(b'{'),
        sentence: "A `{` isn't closed: a `}` is missing before this `]`.",
        example: "",
        ..ANYWHERE
    },
    Row {
        at: &[Is("}")],
        inside: Unclosed(b'('),
        sentence: "A `(` isn't closed: a `)` is missing before this `}`.",
        example: "if (true) { basic.pause(1) }",
        ..ANYWHERE
    },
    Row {
        before: &[Is(",")],
        at: &[Is("]")],
        sentence: "A comma is between two items alone: take it out, or write what is missing after it.",
        example: "let a = [1, 2]",
        ..ANYWHERE
    },
    Row {
        before: &[Is("function"), Name, Is("("), Is(")")],
        at: &[Any],
        sentence: "The body of a function is in `{ }`, also where it is one statement.",
        example: "function f(): void { }",
        ..ANYWHERE
    },
];

/// Code 6: brackets and marks that are missing or too many, part 2.
pub fn marks_2() -> &'static [Row] {
    &MARKS_2
}

static MARKS_2: [Row; 8] = [
    Row {
        at: &[Is("}")],
        inside: Unclosed(b'['),
        sentence: "A `[` isn't closed: a `]` is missing before this `}`.",
        example: "if (true) { a = [1, 2] }",
        ..ANYWHERE
    },
    Row {
        at: &[Is("{")],
        inside: Unclosed(b'('),
        sentence: "A `(` isn't closed: a `)` is missing before this `{`.",
        example: "while (a == 1) { }",
        ..ANYWHERE
    },
    Row {
        at: &[Is(";")],
        inside: Unclosed(b'('),
        sentence: "A `(` isn't closed: a `)` is missing before this `;`.",
        example: "basic.pause(1);",
        ..ANYWHERE
    },
    Row {
        at: &[Is(";")],
        inside: Unclosed(b'['),
        sentence: "A `[` isn't closed: a `]` is missing before this `;`.",
        example: "let a = [1, 2];",
        ..ANYWHERE
    },
    Row {
        alone: true,
        at: &[Any],
        inside: Unclosed(b'('),
        sentence: "A `(` isn't closed: a `)` is missing before this line.",
        example: "basic.pause(1)",
        ..ANYWHERE
    },
    Row {
        alone: true,
        at: &[Any],
        inside: Unclosed(b'['),
        sentence: "A `[` isn't closed: a `]` is missing before this line.",
        example: "let a = [1, 2]",
        ..ANYWHERE
    },
    Row {
        at: &[Is(")")],
        inside: Nothing,
        sentence: "This `)` closes nothing: take it out, or see where its `(` is missing.",
        example: "",
        ..ANYWHERE
    },
    Row {
        at: &[Is("]")],
        inside: Nothing,
        sentence: "This `]` closes nothing: take it out, or see where its `[` is missing.",
        example: "",
        ..ANYWHERE
    },
];

/// Code 6: brackets and marks that are missing or too many, part 3.
pub fn marks_3() -> &'static [Row] {
    &MARKS_3
}

static MARKS_3: [Row; 10] = [
    Row {
        at: &[Is("}")],
        inside: Nothing,
        sentence: "This `}` closes nothing: take it out, or see where its `{` is missing.",
        example: "",
        ..ANYWHERE
    },
    Row {
        before: &[Number],
        at: &[Is("=")],
        sentence: "What is set is on the left of `=`.",
        example: "x = 5",
        ..ANYWHERE
    },
    Row {
        before: &[Is(")")],
        at: &[Is("=")],
        sentence: "What is set by `=` is a name, a member or an item. Equal is written `==`.",
        example: "if (f(x) == 3) { }",
        ..ANYWHERE
    },
    Row {
        before: &[Is("++"), Name, Is("++")],
        sentence: "`++` is before a name or after it, not on both sides.",
        example: "a++",
        ..ANYWHERE
    },
    Row {
        before: &[Is("--"), Name, Is("--")],
        sentence: "`--` is before a name or after it, not on both sides.",
        example: "a--",
        ..ANYWHERE
    },
    Row {
        before: &[Sign],
        sentence: "A value is missing after this sign.",
        example: "let x = 5 + 3",
        ..ANYWHERE
    },
    Row {
        before: &[Number],
        at: &[Number],
        inside: Bracket(b'('),
        sentence: "A comma is missing between two arguments.",
        example: "led.plot(1, 2)",
        ..ANYWHERE
    },
    Row {
        before: &[Number],
        at: &[Name],
        inside: Bracket(b'('),
        sentence: "A comma or a sign is missing between these two.",
        example: "led.plot(1, i)",
        ..ANYWHERE
    },
    Row {
        before: &[Name],
        at: &[Number],
        inside: Bracket(b'('),
        sentence: "A comma or a sign is missing between these two.",
        example: "led.plot(i, 1)",
        ..ANYWHERE
    },
    Row {
        before: &[Name],
        at: &[Name],
        inside: Bracket(b'('),
        sentence: "A comma or a sign is missing between these two.",
        example: "led.plot(i, i)",
        ..ANYWHERE
    },
];

/// Code 6: brackets and marks that are missing or too many, part 4.
pub fn marks_4() -> &'static [Row] {
    &MARKS_4
}

static MARKS_4: [Row; 10] = [
    Row {
        before: &[Number],
        at: &[Is("if")],
        sentence: "A choice of two values is written with `?` and `:`.",
        example: "let a = test ? 5 : 6",
        ..ANYWHERE
    },
    Row {
        before: &[Number],
        at: &[Number],
        inside: Bracket(b'['),
        sentence: "A comma or a sign is missing between these two.",
        example: "let a = [1, 2]",
        ..ANYWHERE
    },
    Row {
        before: &[Number],
        at: &[Name],
        inside: Bracket(b'['),
        sentence: "A comma or a sign is missing between these two.",
        example: "let a = [1, n]",
        ..ANYWHERE
    },
    Row {
        before: &[Name],
        at: &[Number],
        inside: Bracket(b'['),
        sentence: "A comma or a sign is missing between these two.",
        example: "let a = [n, 1]",
        ..ANYWHERE
    },
    Row {
        before: &[Name],
        at: &[Name],
        inside: Bracket(b'['),
        sentence: "A comma or a sign is missing between these two.",
        example: "let a = [n, n]",
        ..ANYWHERE
    },
    Row {
        before: &[Text],
        at: &[Text],
        inside: Bracket(b'['),
        sentence: "A comma is missing between these two.",
        example: "let a = [\"a\", \"b\"]",
        ..ANYWHERE
    },
    Row {
        before: &[Text],
        at: &[Text],
        inside: Bracket(b'('),
        sentence: "Texts aren't joined: a call of the board takes one text. Between two arguments is a comma.",
        example: "serial.writeString(\"a\"); serial.writeString(\"b\")",
        ..ANYWHERE
    },
    Row {
        before: &[Text],
        at: &[Number],
        inside: Bracket(b'('),
        sentence: "Texts aren't joined: a call of the board takes one text. Between two arguments is a comma.",
        example: "serial.writeString(\"x = \"); serial.writeNumber(5)",
        ..ANYWHERE
    },
    Row {
        before: &[Name],
        at: &[Text],
        inside: Bracket(b'('),
        sentence: "Texts aren't joined: a call of the board takes one text. Between two arguments is a comma.",
        example: "serial.writeNumber(x); serial.writeString(\" points\")",
        ..ANYWHERE
    },
    Row {
        before: &[Text],
        at: &[Text],
        sentence: "Texts aren't joined. A statement ends where its line ends, or with `;`.",
        example: "let s = \"a\"; let t = \"b\"",
        ..ANYWHERE
    },
];

/// Code 6: brackets and marks that are missing or too many, part 5.
pub fn marks_5() -> &'static [Row] {
    &MARKS_5
}

static MARKS_5: [Row; 9] = [
    Row {
        before: &[Is("class"), Name],
        at: &[Is("<")],
        sentence: "A class takes no types: write one for each type.",
        example: "class Numbers { items: number[] }",
        ..ANYWHERE
    },
    Row {
        before: &[Is("function"), Name],
        at: &[Is("<")],
        sentence: "A function takes no types: write one for each type.",
        example: "function first(items: number[]): number { return items[0] }",
        ..ANYWHERE
    },
    Row {
        before: &[Text],
        at: &[Name],
        inside: Bracket(b'('),
        sentence: "Texts aren't joined: a call takes one text.",
        example: "serial.writeString(\"x = \"); serial.writeNumber(x)",
        ..ANYWHERE
    },
    Row {
        line: &[Is("let")],
        before: &[Number, Is(",")],
        at: &[Number],
        sentence: "A number is whole, so there is none with a comma: count in tenths.",
        example: "let tenths = 35",
        ..ANYWHERE
    },
    Row {
        before: &[Number],
        at: &[Name],
        sentence: "A statement ends where its line ends, or with `;`; or a sign is missing between these two.",
        example: "x = 5; y = 6",
        ..ANYWHERE
    },
    Row {
        before: &[Is(")")],
        at: &[Is("{")],
        sentence: "A `{` is here after a closed `)`: after `else` comes no test, and the handler of a call is within its parentheses.",
        example: "basic.forever(function () { })",
        ..ANYWHERE
    },
    Row {
        before: &[Is(")")],
        at: &[Name],
        sentence: "A statement ends where its line ends, or with `;`; or a sign is missing between these two.",
        example: "basic.pause(1); basic.clearScreen()",
        ..ANYWHERE
    },
    Row {
        before: &[Text],
        at: &[Name],
        sentence: "A statement ends where its line ends, or with `;`.",
        example: "let s = \"a\"; let t = \"b\"",
        ..ANYWHERE
    },
    Row {
        before: &[Name],
        at: &[Name],
        sentence: "Two names are side by side: a statement ends where its line ends, or with `;`; or a sign is missing between these two.",
        example: "x = y; y = z",
        ..ANYWHERE
    },
];
