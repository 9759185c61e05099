// Rows: the first that fits is told.
use around_place::Inside::{Bracket, Nothing};
use around_place::Test::{Any, Is, Name, Number, Text};
use around_place::{ANYWHERE, Row};

/// Code 6: what other languages and later TypeScript have.
pub fn modern_1() -> &'static [Row] {
    &MODERN_1
}

static MODERN_1: [Row; 10] = [
    Row {
        line: &[Is("foreach")],
        sentence: "There is no `foreach`: `for` goes through a list by `let` and `of`.",
        example: "for (let x of list) { }",
        ..ANYWHERE
    },
    Row {
        line: &[Is("forEach")],
        sentence: "There is no `foreach`: `for` goes through a list by `let` and `of`.",
        example: "for (let x of list) { }",
        ..ANYWHERE
    },
    Row {
        before: &[Is("forever")],
        at: &[Is("{")],
        sentence: "`forever` is a call of the board, and its handler is within parentheses.",
        example: "basic.forever(function () { })",
        ..ANYWHERE
    },
    Row {
        before: &[Is("constructor"), Is("(")],
        at: &[Is("public")],
        sentence: "A constructor's parameter makes no field: declare the field in the class, and set it by `this.name = name`.",
        example: "class P { name: string; constructor(name: string) { this.name = name } }",
        ..ANYWHERE
    },
    Row {
        before: &[Is("constructor"), Is("(")],
        at: &[Is("private")],
        sentence: "A constructor's parameter makes no field: declare the field in the class, and set it by `this.name = name`.",
        example: "class P { age: number; constructor(age: number) { this.age = age } }",
        ..ANYWHERE
    },
    Row {
        line: &[Is("constructor"), Is("(")],
        at: &[Is("public")],
        inside: Bracket(b'('),
        sentence: "A constructor's parameter makes no field: declare the field in the class, and set it by `this.name = name`.",
        example: "class P { name: string; constructor(name: string) { this.name = name } }",
        ..ANYWHERE
    },
    Row {
        line: &[Is("constructor"), Is("(")],
        at: &[Is("private")],
        inside: Bracket(b'('),
        sentence: "A constructor's parameter makes no field: declare the field in the class, and set it by `this.name = name`.",
        example: "class P { age: number; constructor(age: number) { this.age = age } }",
        ..ANYWHERE
    },
    Row {
        before: &[Is("constructor"), Is("("), Is("readonly")],
        sentence: "A constructor's parameter makes no field: declare the field in the class, and set it by `this.name = name`.",
        example: "class P { age: number; constructor(age: number) { this.age = age } }",
        ..ANYWHERE
    },
    Row {
        line: &[Is("constructor"), Is("(")],
        before: &[Is(")")],
        at: &[Is(":")],
        sentence: "A constructor has no type of its own: take the `:` and the type out.",
        example: "class P { constructor() { } }",
        ..ANYWHERE
    },
    Row {
        before: &[Is("constructor"), Is("("), Is(")")],
        at: &[Is(":")],
        sentence: "A constructor has no type of its own: take the `:` and the type out.",
        example: "class P { constructor() { } }",
        ..ANYWHERE
    },
];

/// Code 6: what other languages and later TypeScript have, part 2.
pub fn modern_2() -> &'static [Row] {
    &MODERN_2
}

static MODERN_2: [Row; 10] = [
    Row {
        before: &[Name, Is("++")],
        at: &[Is("=")],
        sentence: "`x++` is a statement by itself, and nothing is set by it: write `x = 5`.",
        example: "x = 5",
        ..ANYWHERE
    },
    Row {
        before: &[Name, Is("--")],
        at: &[Is("=")],
        sentence: "`x--` is a statement by itself, and nothing is set by it: write `x = 5`.",
        example: "x = 5",
        ..ANYWHERE
    },
    Row {
        before: &[Is("=")],
        at: &[Is("=")],
        sentence: "Equal is written `==`, with no space in it.",
        example: "if (a == 1) { }",
        ..ANYWHERE
    },
    Row {
        before: &[Is(">")],
        at: &[Is("=")],
        sentence: "At least is written `>=`, with no space in it.",
        example: "if (a >= 1) { }",
        ..ANYWHERE
    },
    Row {
        before: &[Is("<")],
        at: &[Is("=")],
        sentence: "At most is written `<=`, with no space in it.",
        example: "if (a <= 1) { }",
        ..ANYWHERE
    },
    Row {
        before: &[Is("!")],
        at: &[Is("=")],
        sentence: "Not equal is written `!=`, with no space in it.",
        example: "if (a != 1) { }",
        ..ANYWHERE
    },
    Row {
        at: &[Is("as"), Name],
        sentence: "There is no `as`: each name has one type, by its value or by what is after its `:`.",
        example: "let y: number = x",
        ..ANYWHERE
    },
    Row {
        at: &[Is("instanceof")],
        sentence: "There is no `instanceof`: each name has one class, which is known before the program runs.",
        example: "let a = new A()",
        ..ANYWHERE
    },
    Row {
        before: &[Is(":")],
        at: &[Is("[")],
        sentence: "A list's items have one type, so there are no lists of one text and one number: write a class.",
        example: "class Pair { n: number; s: string }",
        ..ANYWHERE
    },
    Row {
        before: &[Is(":"), Name],
        at: &[Is("|")],
        sentence: "A name has one type: write one of them alone.",
        example: "let x: number = 5",
        ..ANYWHERE
    },
];

/// Code 6: what other languages and later TypeScript have, part 3.
pub fn modern_3() -> &'static [Row] {
    &MODERN_3
}

static MODERN_3: [Row; 10] = [
    Row {
        before: &[Is(":"), Name],
        at: &[Is("&")],
        sentence: "A name has one type: write one of them alone.",
        example: "let x: number = 5",
        ..ANYWHERE
    },
    Row {
        before: &[Is("let"), Name],
        at: &[Is("!:")],
        sentence: "There is no `!` after a name: give it a value at once, or a type alone.",
        example: "let x: number = 5",
        ..ANYWHERE
    },
    Row {
        before: &[Is("let"), Name],
        at: &[Is("!")],
        sentence: "There is no `!` after a name: a name has letters, digits and `_`.",
        example: "let x = 5",
        ..ANYWHERE
    },
    Row {
        before: &[Name],
        at: &[Is("!:")],
        sentence: "There is no `!` after a field: give it a value, or a type alone.",
        example: "class P { x: number }",
        ..ANYWHERE
    },
    Row {
        before: &[Is("let"), Name],
        at: &[Is("?:")],
        sentence: "Nothing can be left out here: take the `?` out.",
        example: "let x: number = 5",
        ..ANYWHERE
    },
    Row {
        before: &[Name],
        at: &[Is("?:")],
        inside: Bracket(b'{'),
        sentence: "A field is always there: take the `?` out.",
        example: "class P { x: number }",
        ..ANYWHERE
    },
    Row {
        before: &[Is("("), Name],
        at: &[Is(":")],
        sentence: "An argument has no name: write the values alone, in their order.",
        example: "led.plot(1, 2)",
        ..ANYWHERE
    },
    Row {
        before: &[Is(","), Name],
        at: &[Is(":")],
        inside: Bracket(b'('),
        sentence: "An argument has no name: write the values alone, in their order.",
        example: "led.plot(1, 2)",
        ..ANYWHERE
    },
    Row {
        before: &[Is("="), Is("("), Any],
        at: &[Is(",")],
        sentence: "Parentheses are around one value: for two write two variables, or a list.",
        example: "let p = [1, 2]",
        ..ANYWHERE
    },
    Row {
        before: &[Number],
        at: &[Number],
        inside: Nothing,
        sentence: "A sign is missing between these two numbers, or one of them is too many.",
        example: "let x = 5 + 6",
        ..ANYWHERE
    },
];

/// Code 6: what other languages and later TypeScript have, part 4.
pub fn modern_4() -> &'static [Row] {
    &MODERN_4
}

static MODERN_4: [Row; 10] = [
    Row {
        before: &[Number],
        at: &[Number],
        inside: Bracket(b'{'),
        sentence: "A sign is missing between these two numbers, or one of them is too many.",
        example: "let x = 5 + 6",
        ..ANYWHERE
    },
    Row {
        at: &[Is("with"), Is("(")],
        sentence: "There is no `with`: write the name and a dot before each call.",
        example: "led.plot(1, 1)",
        ..ANYWHERE
    },
    Row {
        at: &[Is("debugger")],
        sentence: "There is no `debugger`: write to the serial port what you want to know.",
        example: "serial.writeNumber(5)",
        ..ANYWHERE
    },
    Row {
        before: &[Is("=")],
        at: &[Is("void")],
        sentence: "There is no `void` value: nothing is called `null`.",
        example: "let p: string = null",
        ..ANYWHERE
    },
    Row {
        before: &[Is(":"), Is("Promise")],
        at: &[Is("<")],
        sentence: "There is no `Promise`: a function gives its value itself, and waits where it has to.",
        example: "function f(): number { return 5 }",
        ..ANYWHERE
    },
    Row {
        before: &[Is(":"), Is("Array")],
        at: &[Is("<")],
        sentence: "A list's type is written with `[]` after that of its items.",
        example: "let a: number[] = []",
        ..ANYWHERE
    },
    Row {
        before: &[Is(":"), Name],
        at: &[Is("<")],
        sentence: "A type has no `< >`: write a list as `number[]`, and a class by its name.",
        example: "let a: number[] = []",
        ..ANYWHERE
    },
    Row {
        before: &[Is("step")],
        at: &[Number],
        sentence: "A step is written as the third part of `for`, as `i += 3`.",
        example: "for (let i = 0; i < 10; i += 3) { }",
        ..ANYWHERE
    },
    Row {
        line: &[Is("for"), Is("("), Is("let"), Name, Is("="), Number],
        at: &[Is("to")],
        sentence: "Counting is written with three parts: `let i = 0; i <= 10; i++`.",
        example: "for (let i = 0; i <= 10; i++) { }",
        ..ANYWHERE
    },
    Row {
        line: &[Is("for"), Is("("), Is("let"), Name, Is("="), Number],
        at: &[Is("until")],
        sentence: "Counting is written with three parts: `let i = 0; i <= 10; i++`.",
        example: "for (let i = 0; i <= 10; i++) { }",
        ..ANYWHERE
    },
];

/// Code 6: what other languages and later TypeScript have, part 5.
pub fn modern_5() -> &'static [Row] {
    &MODERN_5
}

static MODERN_5: [Row; 10] = [
    Row {
        before: &[Is(")")],
        at: &[Is(",")],
        inside: Nothing,
        sentence: "A statement ends where its line ends: take the comma out.",
        example: "basic.pause(100)",
        ..ANYWHERE
    },
    Row {
        before: &[Is(")")],
        at: &[Is(",")],
        inside: Bracket(b'{'),
        sentence: "A statement ends where its line ends: take the comma out.",
        example: "basic.pause(100)",
        ..ANYWHERE
    },
    Row {
        before: &[Is(",")],
        at: &[Is("let")],
        sentence: "A comma at the end of a line goes on with the next line: take it out.",
        example: "let a = 1",
        ..ANYWHERE
    },
    Row {
        before: &[Is(",")],
        last: true,
        inside: Nothing,
        sentence: "A comma at the end of a line goes on with the next line: take it out.",
        example: "let a = 1",
        ..ANYWHERE
    },
    Row {
        before: &[Is(",")],
        at: &[Is("}")],
        sentence: "A comma at the end of a line goes on with the next line: take it out.",
        example: "let a = 1",
        ..ANYWHERE
    },
    Row {
        before: &[Is(";")],
        at: &[Is(";")],
        sentence: "Two semicolons, or one where no statement ends: take one out.",
        example: "let a = 1;",
        ..ANYWHERE
    },
    Row {
        before: &[Is(":"), Is("("), Is(")")],
        at: &[Is("=>")],
        sentence: "There is no `=>` type: functions are no values, so write the function by its name.",
        example: "function f(): void { }",
        ..ANYWHERE
    },
    Row {
        before: &[Is("="), Name],
        at: &[Is("=>"), Number],
        sentence: "At least is written `>=`; an arrow `=>` is in a handler alone.",
        example: "let b = a >= 5",
        ..ANYWHERE
    },
    Row {
        before: &[Is("("), Name],
        at: &[Is("=>"), Number],
        sentence: "At least is written `>=`; an arrow `=>` is in a handler alone.",
        example: "while (a >= 1) { }",
        ..ANYWHERE
    },
    Row {
        line: &[Is("var")],
        at: &[Name],
        inside: Bracket(b'{'),
        sentence: "There is no `let` in a class: a field is its name and its value.",
        example: "class P { x = 1 }",
        ..ANYWHERE
    },
];

/// Code 6: what other languages and later TypeScript have, part 6.
pub fn modern_6() -> &'static [Row] {
    &MODERN_6
}

static MODERN_6: [Row; 10] = [
    Row {
        at: &[Is("implements")],
        sentence: "There is no `implements`: a class has what is written in it, and by `extends` what its base has.",
        example: "class B extends A { }",
        ..ANYWHERE
    },
    Row {
        line: &[Is("while")],
        before: &[Is(")")],
        at: &[Is(":")],
        sentence: "A block begins with `{` and ends with `}`; no `:` is before it.",
        example: "while (true) { basic.pause(100) }",
        ..ANYWHERE
    },
    Row {
        line: &[Is("if")],
        before: &[Is(")")],
        at: &[Is(":")],
        sentence: "A block begins with `{` and ends with `}`; no `:` is before it.",
        example: "if (a == 1) { basic.pause(100) }",
        ..ANYWHERE
    },
    Row {
        line: &[Is("for")],
        before: &[Is(")")],
        at: &[Is(":")],
        sentence: "A block begins with `{` and ends with `}`; no `:` is before it.",
        example: "for (let i = 0; i < 5; i++) { }",
        ..ANYWHERE
    },
    Row {
        before: &[Is("else")],
        at: &[Is(":")],
        sentence: "A block begins with `{` and ends with `}`; no `:` is before it.",
        example: "if (a == 1) { } else { }",
        ..ANYWHERE
    },
    Row {
        before: &[Is("let"), Name],
        at: &[Number],
        sentence: "A `=` is missing between the name and its value.",
        example: "let x = 5",
        ..ANYWHERE
    },
    Row {
        before: &[Is("let"), Name],
        at: &[Text],
        sentence: "A `=` is missing between the name and its value.",
        example: "let s = \"a\"",
        ..ANYWHERE
    },
    Row {
        before: &[Is("map"), Is("("), Name],
        at: &[Is("=>")],
        sentence: "An arrow's parameters are in parentheses, and an arrow is a handler alone: a list has no `map`; go through it by `for (let x of a)`.",
        example: "for (let x of a) { b.push(x + 1) }",
        ..ANYWHERE
    },
    Row {
        before: &[Is("forEach"), Is("("), Name],
        at: &[Is("=>")],
        sentence: "An arrow's parameters are in parentheses, and an arrow is a handler alone: a list has no `forEach`; go through it by `for (let x of a)`.",
        example: "for (let x of a) { basic.showNumber(x) }",
        ..ANYWHERE
    },
    Row {
        before: &[Is("filter"), Is("("), Name],
        at: &[Is("=>")],
        sentence: "An arrow's parameters are in parentheses, and an arrow is a handler alone: a list has no `filter`; go through it by `for (let x of a)`.",
        example: "for (let x of a) { if (x > 1) { b.push(x) } }",
        ..ANYWHERE
    },
];
