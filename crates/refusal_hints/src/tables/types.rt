// Rows: the first that fits is told.
use around_place::Test::{Any, Is, Name, Number, Sign, Text};
use around_place::{ANYWHERE, Row};

/// Code 11: texts that are put in order.
pub fn orders() -> &'static [Row] {
    &ORDERS
}

static ORDERS: [Row; 8] = [
    Row {
        at: &[Text, Is("<")],
        sentence: "Texts have no order: `==` and `!=` compare them. A number is without quotes.",
        example: "if (s == \"b\") { }",
        ..ANYWHERE
    },
    Row {
        at: &[Any, Is("<"), Text],
        sentence: "Texts have no order: `==` and `!=` compare them. A number is without quotes.",
        example: "if (s == \"b\") { }",
        ..ANYWHERE
    },
    Row {
        at: &[Text, Is("<=")],
        sentence: "Texts have no order: `==` and `!=` compare them. A number is without quotes.",
        example: "if (s == \"b\") { }",
        ..ANYWHERE
    },
    Row {
        at: &[Any, Is("<="), Text],
        sentence: "Texts have no order: `==` and `!=` compare them. A number is without quotes.",
        example: "if (s == \"b\") { }",
        ..ANYWHERE
    },
    Row {
        at: &[Text, Is(">")],
        sentence: "Texts have no order: `==` and `!=` compare them. A number is without quotes.",
        example: "if (s == \"b\") { }",
        ..ANYWHERE
    },
    Row {
        at: &[Any, Is(">"), Text],
        sentence: "Texts have no order: `==` and `!=` compare them. A number is without quotes.",
        example: "if (s == \"b\") { }",
        ..ANYWHERE
    },
    Row {
        at: &[Text, Is(">=")],
        sentence: "Texts have no order: `==` and `!=` compare them. A number is without quotes.",
        example: "if (s == \"b\") { }",
        ..ANYWHERE
    },
    Row {
        at: &[Any, Is(">="), Text],
        sentence: "Texts have no order: `==` and `!=` compare them. A number is without quotes.",
        example: "if (s == \"b\") { }",
        ..ANYWHERE
    },
];

/// Code 11: types that don't fit.
pub fn types_1() -> &'static [Row] {
    &TYPES_1
}

static TYPES_1: [Row; 10] = [
    Row {
        at: &[Text, Is("+")],
        sentence: "`+` adds numbers; texts can't be joined. Write the parts by a call each.",
        example: "serial.writeString(\"x = \"); serial.writeNumber(x)",
        ..ANYWHERE
    },
    Row {
        at: &[Any, Is("+"), Text],
        sentence: "`+` adds numbers; texts can't be joined. Write the parts by a call each.",
        example: "serial.writeNumber(x); serial.writeString(\" points\")",
        ..ANYWHERE
    },
    Row {
        at: &[Name, Is("."), Name, Is("+"), Text],
        sentence: "`+` adds numbers; texts can't be joined. Write the parts by a call each.",
        example: "serial.writeNumber(x); serial.writeString(\" points\")",
        ..ANYWHERE
    },
    Row {
        at: &[Name, Is("+="), Text],
        sentence: "`+=` adds numbers; texts can't be joined.",
        example: "score += 1",
        ..ANYWHERE
    },
    Row {
        at: &[Any, Is("?")],
        sentence: "What is before `?` is true or false, and the two values after it have one type; for a number write a comparison.",
        example: "let a = n != 0 ? 2 : 3",
        ..ANYWHERE
    },
    Row {
        at: &[Text, Is("=="), Any],
        sentence: "The two sides of a comparison have one type: a number or a text is on both.",
        example: "let same = n == 1",
        ..ANYWHERE
    },
    Row {
        at: &[Text, Sign],
        sentence: "Signs of arithmetic take numbers: without its quotes it is one.",
        example: "let x = 5 * 2",
        ..ANYWHERE
    },
    Row {
        at: &[Is("-"), Text],
        sentence: "Signs of arithmetic take numbers: without its quotes it is one.",
        example: "let x = -5",
        ..ANYWHERE
    },
    Row {
        at: &[Is("if"), Is("("), Name, Is("="), Any],
        sentence: "`=` sets; equal is written `==`.",
        example: "if (a == 3) { }",
        ..ANYWHERE
    },
    Row {
        at: &[Is("if"), Is("("), Name, Is("."), Name, Is("="), Any],
        sentence: "`=` sets; equal is written `==`.",
        example: "if (p.x == 3) { }",
        ..ANYWHERE
    },
];

/// Code 11: types that don't fit, part 2.
pub fn types_2() -> &'static [Row] {
    &TYPES_2
}

static TYPES_2: [Row; 10] = [
    Row {
        at: &[Is("while"), Is("("), Name, Is("="), Any],
        sentence: "`=` sets; equal is written `==`.",
        example: "while (a == 3) { }",
        ..ANYWHERE
    },
    Row {
        line: &[Is("if"), Is("(")],
        before: &[Name, Is("=")],
        at: &[Is("!")],
        sentence: "Not equal is written `!=`.",
        example: "if (a != 1) { }",
        ..ANYWHERE
    },
    Row {
        at: &[Is("if"), Is("("), Name, Is(")")],
        sentence: "A test is true or false; for a number write a comparison.",
        example: "if (a != 0) { }",
        ..ANYWHERE
    },
    Row {
        at: &[Is("while"), Is("("), Name, Is(")")],
        sentence: "A test is true or false; for a number write a comparison.",
        example: "while (a != 0) { }",
        ..ANYWHERE
    },
    Row {
        at: &[Is("if"), Is("("), Number, Is(")")],
        sentence: "A test is true or false; for a number write a comparison.",
        example: "if (a != 0) { }",
        ..ANYWHERE
    },
    Row {
        at: &[Is("while"), Is("("), Number, Is(")")],
        sentence: "A test is true or false.",
        example: "while (true) { }",
        ..ANYWHERE
    },
    Row {
        at: &[Is("if"), Is("(")],
        sentence: "A test is true or false; for a number write a comparison.",
        example: "if (a != 0) { }",
        ..ANYWHERE
    },
    Row {
        at: &[Is("while"), Is("(")],
        sentence: "A test is true or false; for a number write a comparison.",
        example: "while (a != 0) { }",
        ..ANYWHERE
    },
    Row {
        at: &[Is("!"), Any],
        sentence: "`!` takes true or false; for a number write a comparison.",
        example: "if (a == 0) { }",
        ..ANYWHERE
    },
    Row {
        at: &[Any, Is("&&")],
        sentence: "`&&` takes true or false on both sides; for a number write a comparison.",
        example: "if (a != 0 && b != 0) { }",
        ..ANYWHERE
    },
];

/// Code 11: types that don't fit, part 3.
pub fn types_3() -> &'static [Row] {
    &TYPES_3
}

static TYPES_3: [Row; 10] = [
    Row {
        at: &[Any, Is("||")],
        sentence: "`||` takes true or false on both sides; for a number write a comparison.",
        example: "if (a != 0 || b != 0) { }",
        ..ANYWHERE
    },
    Row {
        at: &[Any, Is("==")],
        sentence: "The two sides of a comparison have one type.",
        example: "if (a == 1) { }",
        ..ANYWHERE
    },
    Row {
        at: &[Any, Is("===")],
        sentence: "The two sides of a comparison have one type.",
        example: "if (a == 1) { }",
        ..ANYWHERE
    },
    Row {
        at: &[Any, Is("!=")],
        sentence: "The two sides of a comparison have one type.",
        example: "if (a != 1) { }",
        ..ANYWHERE
    },
    Row {
        at: &[Is("for"), Is("("), Is("let"), Name, Is("of")],
        sentence: "`for` goes through a list by `of`; counting has three parts.",
        example: "for (let i = 0; i < 5; i++) { }",
        ..ANYWHERE
    },
    Row {
        at: &[Is("return")],
        sentence: "What is returned isn't of the type that the function's result has.",
        example: "function f(): number { return 5 }",
        ..ANYWHERE
    },
    Row {
        before: &[Is("let")],
        at: &[Name, Is(":"), Is("string")],
        sentence: "The value isn't of the type that is written: a text is in quotes.",
        example: "let s: string = \"5\"",
        ..ANYWHERE
    },
    Row {
        before: &[Is("let")],
        at: &[Name, Is(":"), Is("number"), Is("="), Text],
        sentence: "The value isn't of the type that is written: a number is without quotes.",
        example: "let x: number = 5",
        ..ANYWHERE
    },
    Row {
        before: &[Is("let")],
        at: &[Name, Is(":"), Is("boolean")],
        sentence: "The value isn't of the type that is written: it is `true` or `false`, or a comparison.",
        example: "let b: boolean = true",
        ..ANYWHERE
    },
    Row {
        at: &[Is("super"), Is("."), Name],
        sentence: "`super.` calls a method of the base with the arguments that it takes. A field of the base is one of `this`, as `this.x`.",
        example: "class B extends A { f(): void { this.x = 2 } }",
        ..ANYWHERE
    },
];

/// Code 11: types that don't fit, part 4.
pub fn types_4() -> &'static [Row] {
    &TYPES_4
}

static TYPES_4: [Row; 10] = [
    Row {
        before: &[Is("let")],
        at: &[Name, Is(":")],
        sentence: "The value isn't of the type that is written.",
        example: "let x: number = 5",
        ..ANYWHERE
    },
    Row {
        at: &[Is("Button"), Is("."), Any, Is("=")],
        sentence: "`Button.A` is a number that is never set.",
        example: "let button = Button.A",
        ..ANYWHERE
    },
    Row {
        at: &[Is("[")],
        sentence: "All items of a list have one type, that of the first.",
        example: "let a = [1, 2]",
        ..ANYWHERE
    },
    Row {
        at: &[Is("new"), Name, Is("(")],
        sentence: "The number or the types of the arguments aren't those of the constructor.",
        example: "let p = new Point(1, 2)",
        ..ANYWHERE
    },
    Row {
        at: &[Name, Is("."), Is("length"), Is("(")],
        sentence: "`length` is without parentheses.",
        example: "serial.writeNumber(a.length)",
        ..ANYWHERE
    },
    Row {
        at: &[Name, Is("."), Is("length"), Is("=")],
        sentence: "A list's length isn't set: `push` and `pop` change it.",
        example: "a.pop()",
        ..ANYWHERE
    },
    Row {
        at: &[Name, Is("["), Number, Is("]"), Is("=")],
        sentence: "What is set isn't of the type that the list's items have.",
        example: "a[0] = 5",
        ..ANYWHERE
    },
    Row {
        at: &[Name, Is("[")],
        sentence: "Only a list has items, and an item is asked by a number. The letters of a text can't be asked.",
        example: "let b = a[0]",
        ..ANYWHERE
    },
    Row {
        at: &[Name, Is("++")],
        sentence: "A `const` is never set anew: declare it by `let`. Only a number is counted up.",
        example: "let c = 1",
        ..ANYWHERE
    },
    Row {
        at: &[Name, Is("--")],
        sentence: "A `const` is never set anew: declare it by `let`. Only a number is counted down.",
        example: "let c = 1",
        ..ANYWHERE
    },
];

/// Code 11: types that don't fit, part 5.
pub fn types_5() -> &'static [Row] {
    &TYPES_5
}

static TYPES_5: [Row; 10] = [
    Row {
        at: &[Name, Is("=")],
        sentence: "What is set isn't of the type that the name has; or it is a `const`, which is never set anew: declare it by `let`.",
        example: "let c = 1",
        ..ANYWHERE
    },
    Row {
        at: &[Name, Is("+=")],
        sentence: "`+=` takes a number that isn't `const`.",
        example: "score += 1",
        ..ANYWHERE
    },
    Row {
        at: &[Name, Is("-=")],
        sentence: "`-=` takes a number that isn't `const`.",
        example: "score -= 1",
        ..ANYWHERE
    },
    Row {
        at: &[Is("super")],
        sentence: "A constructor calls `super(..)` first, and only that of a class with a base.",
        example: "class B extends A { constructor() { super() } }",
        ..ANYWHERE
    },
    Row {
        at: &[Is("constructor")],
        sentence: "The constructor of a class with a base begins with `super(..)`.",
        example: "class B extends A { constructor() { super() } }",
        ..ANYWHERE
    },
    Row {
        at: &[Name, Is("(")],
        sentence: "The number or the types of the arguments aren't those of the function.",
        example: "f(1, 2)",
        ..ANYWHERE
    },
    Row {
        at: &[Is("true")],
        sentence: "A sign of arithmetic takes numbers.",
        example: "let x = 1 + 1",
        ..ANYWHERE
    },
    Row {
        at: &[Is("false")],
        sentence: "A sign of arithmetic takes numbers.",
        example: "let x = 1 + 1",
        ..ANYWHERE
    },
    Row {
        at: &[Is("null")],
        sentence: "A sign of arithmetic takes numbers.",
        example: "let x = 1 + 1",
        ..ANYWHERE
    },
    Row {
        at: &[Any, Is("+"), Is("true")],
        sentence: "`+` adds numbers.",
        example: "let x = 1 + 1",
        ..ANYWHERE
    },
];

/// Code 11: types that don't fit, part 6.
pub fn types_6() -> &'static [Row] {
    &TYPES_6
}

static TYPES_6: [Row; 8] = [
    Row {
        at: &[Any, Is("<"), Any, Is("<")],
        sentence: "Compare twice, with `&&` between.",
        example: "if (3 < x && x < 9) { }",
        ..ANYWHERE
    },
    Row {
        at: &[Any, Is("<"), Any, Is("<=")],
        sentence: "Compare twice, with `&&` between.",
        example: "if (3 < x && x <= 9) { }",
        ..ANYWHERE
    },
    Row {
        at: &[Any, Is("<="), Any, Is("<")],
        sentence: "Compare twice, with `&&` between.",
        example: "if (3 <= x && x < 9) { }",
        ..ANYWHERE
    },
    Row {
        at: &[Any, Is("<="), Any, Is("<=")],
        sentence: "Compare twice, with `&&` between.",
        example: "if (3 <= x && x <= 9) { }",
        ..ANYWHERE
    },
    Row {
        at: &[Any, Is(">"), Any, Is(">")],
        sentence: "Compare twice, with `&&` between.",
        example: "if (9 > x && x > 3) { }",
        ..ANYWHERE
    },
    Row {
        at: &[Any, Is(">"), Any, Is(">=")],
        sentence: "Compare twice, with `&&` between.",
        example: "if (9 > x && x >= 3) { }",
        ..ANYWHERE
    },
    Row {
        at: &[Any, Is(">="), Any, Is(">")],
        sentence: "Compare twice, with `&&` between.",
        example: "if (9 >= x && x > 3) { }",
        ..ANYWHERE
    },
    Row {
        at: &[Any, Is(">="), Any, Is(">=")],
        sentence: "Compare twice, with `&&` between.",
        example: "if (9 >= x && x >= 3) { }",
        ..ANYWHERE
    },
];
