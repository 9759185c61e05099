// Rows: the first that fits is told.
use around_place::Inside::Bracket;
use around_place::Test::{Any, Is, Name};
use around_place::{ANYWHERE, Row};

/// Code 6: tests and loops that are written otherwise, and forms that aren't here.
pub fn control_1() -> &'static [Row] {
    &CONTROL_1
}

static CONTROL_1: [Row; 10] = [
    Row {
        before: &[Is("for"), Is("("), Is("let"), Name],
        at: &[Is("in")],
        sentence: "`for` goes through a list by `of`, which gives its items; `in` isn't here.",
        example: "for (let x of list) { }",
        ..ANYWHERE
    },
    Row {
        before: &[Is("for"), Is("("), Is("const"), Name],
        at: &[Is("in")],
        sentence: "`for` goes through a list by `of`, which gives its items; `in` isn't here.",
        example: "for (const x of list) { }",
        ..ANYWHERE
    },
    Row {
        line: &[Is("for"), Is("("), Name],
        at: &[Is("of")],
        sentence: "What `for` declares begins with `let`.",
        example: "for (let x of list) { }",
        ..ANYWHERE
    },
    Row {
        before: &[Is("for")],
        at: &[Name, Is("in"), Is("range")],
        sentence: "Counting is written with three parts in parentheses.",
        example: "for (let i = 0; i < 5; i++) { }",
        ..ANYWHERE
    },
    Row {
        before: &[Is("for")],
        at: &[Name, Is("in")],
        sentence: "`for` goes through a list by `let` and `of`, in parentheses.",
        example: "for (let x of list) { }",
        ..ANYWHERE
    },
    Row {
        before: &[Is("for")],
        at: &[Any],
        sentence: "What `for` counts is in parentheses.",
        example: "for (let i = 0; i < 5; i++) { }",
        ..ANYWHERE
    },
    Row {
        before: &[Is("for"), Is("("), Name],
        at: &[Name],
        sentence: "A variable is declared by `let`, without its type before it.",
        example: "for (let i = 0; i < 5; i++) { }",
        ..ANYWHERE
    },
    Row {
        line: &[Is("for"), Is("(")],
        before: &[Is(","), Name],
        at: &[Any],
        sentence: "The three parts of a `for` have `;` between them, not `,`.",
        example: "for (let i = 0; i < 5; i++) { }",
        ..ANYWHERE
    },
    Row {
        line: &[Is("for"), Is("(")],
        at: &[Is(",")],
        sentence: "The three parts of a `for` have `;` between them, not `,`.",
        example: "for (let i = 0; i < 5; i++) { }",
        ..ANYWHERE
    },
    Row {
        before: &[Is("for"), Is("("), Name, Is("="), Any],
        at: &[Is(",")],
        sentence: "The three parts of a `for` have `;` between them, not `,`.",
        example: "for (let i = 0; i < 5; i++) { }",
        ..ANYWHERE
    },
];

/// Code 6: tests and loops that are written otherwise, and forms that aren't here, part 2.
pub fn control_2() -> &'static [Row] {
    &CONTROL_2
}

static CONTROL_2: [Row; 10] = [
    Row {
        line: &[Is("for"), Is("(")],
        at: &[Is(";")],
        inside: Bracket(b'('),
        sentence: "A `for` has three parts, with two `;` between them.",
        example: "for (let i = 0; i < 5; i++) { }",
        ..ANYWHERE
    },
    Row {
        line: &[Is("for"), Is("(")],
        at: &[Is(")")],
        inside: Bracket(b'('),
        sentence: "A `for` has three parts, with two `;` between them.",
        example: "for (let i = 0; i < 5; i++) { }",
        ..ANYWHERE
    },
    Row {
        line: &[Is("}"), Is("elseif")],
        sentence: "`else if` is two words.",
        example: "if (a == 1) { } else if (a == 2) { }",
        ..ANYWHERE
    },
    Row {
        line: &[Is("elseif")],
        sentence: "`else if` is two words.",
        example: "if (a == 1) { } else if (a == 2) { }",
        ..ANYWHERE
    },
    Row {
        line: &[Is("}"), Is("elif")],
        sentence: "`elif` is written `else if`.",
        example: "if (a == 1) { } else if (a == 2) { }",
        ..ANYWHERE
    },
    Row {
        line: &[Is("elif")],
        sentence: "`elif` is written `else if`.",
        example: "if (a == 1) { } else if (a == 2) { }",
        ..ANYWHERE
    },
    Row {
        before: &[Is("elif"), Is("("), Any, Any, Any, Is(")")],
        at: &[Is("{")],
        sentence: "`elif` is written `else if`.",
        example: "if (a == 1) { } else if (a == 2) { }",
        ..ANYWHERE
    },
    Row {
        line: &[Is("}"), Is("else"), Is("(")],
        at: &[Is("{")],
        sentence: "After `else` comes no test: take it out, or write `else if`.",
        example: "if (a == 1) { } else { }",
        ..ANYWHERE
    },
    Row {
        line: &[Is("else"), Is("(")],
        at: &[Is("{")],
        sentence: "After `else` comes no test: take it out, or write `else if`.",
        example: "if (a == 1) { } else { }",
        ..ANYWHERE
    },
    Row {
        before: &[Is("else"), Is("if")],
        at: &[Is("{")],
        sentence: "After `else if` comes a test in parentheses.",
        example: "if (a == 1) { } else if (a == 2) { }",
        ..ANYWHERE
    },
];

/// Code 6: tests and loops that are written otherwise, and forms that aren't here, part 3.
pub fn control_3() -> &'static [Row] {
    &CONTROL_3
}

static CONTROL_3: [Row; 9] = [
    Row {
        before: &[Is("then")],
        sentence: "There is no `then`: the block follows the test.",
        example: "if (a == 1) { }",
        ..ANYWHERE
    },
    Row {
        before: &[Is("else")],
        at: &[Is(":")],
        sentence: "There is no `:` after `else`: its block is in `{ }`.",
        example: "if (a == 1) { } else { }",
        ..ANYWHERE
    },
    Row {
        before: &[Is("if")],
        at: &[Any],
        sentence: "What `if` tests is in parentheses.",
        example: "if (a == 1) { }",
        ..ANYWHERE
    },
    Row {
        before: &[Is("while")],
        at: &[Any],
        sentence: "What `while` tests is in parentheses.",
        example: "while (a < 5) { }",
        ..ANYWHERE
    },
    Row {
        line: &[Is("if")],
        before: &[Is(")")],
        at: &[Is("&&")],
        sentence: "The whole test is in one pair of parentheses.",
        example: "if (a == 1 && b == 2) { }",
        ..ANYWHERE
    },
    Row {
        line: &[Is("if")],
        before: &[Is(")")],
        at: &[Is("||")],
        sentence: "The whole test is in one pair of parentheses.",
        example: "if (a == 1 || b == 2) { }",
        ..ANYWHERE
    },
    Row {
        before: &[Is("if"), Is("("), Name],
        at: &[Is("=>")],
        sentence: "At least is written `>=`.",
        example: "if (a >= 1) { }",
        ..ANYWHERE
    },
    Row {
        before: &[Is("while"), Is("("), Name],
        at: &[Is("=>")],
        sentence: "At least is written `>=`.",
        example: "while (a >= 1) { }",
        ..ANYWHERE
    },
    Row {
        before: &[Is("=")],
        at: &[Is("<")],
        sentence: "At most is written `<=`.",
        example: "if (a <= 1) { }",
        ..ANYWHERE
    },
];

/// Code 6: tests and loops that are written otherwise, and forms that aren't here, part 4.
pub fn control_4() -> &'static [Row] {
    &CONTROL_4
}

static CONTROL_4: [Row; 9] = [
    Row {
        before: &[Is("<")],
        at: &[Is(">")],
        sentence: "Not equal is written `!=`.",
        example: "if (a != 1) { }",
        ..ANYWHERE
    },
    Row {
        at: &[Is("else")],
        sentence: "An `else` is right after the block of its `if`, with no `;` between them.",
        example: "if (a == 1) { } else { }",
        ..ANYWHERE
    },
    Row {
        line: &[Is("repeat")],
        sentence: "There is no `repeat`: count with `for`.",
        example: "for (let i = 0; i < 5; i++) { }",
        ..ANYWHERE
    },
    Row {
        line: &[Is("loop")],
        sentence: "There is no `loop`: write `while (true)`, or `basic.forever` with a handler.",
        example: "basic.forever(function () { })",
        ..ANYWHERE
    },
    Row {
        at: &[Is("until")],
        sentence: "There is no `until`: write `while`, with the test turned round.",
        example: "do { } while (a < 5)",
        ..ANYWHERE
    },
    Row {
        line: &[Is("until")],
        sentence: "There is no `until`: write `while`, with the test turned round.",
        example: "while (a < 5) { }",
        ..ANYWHERE
    },
    Row {
        line: &[Is("If"), Is("(")],
        at: &[Is("{")],
        sentence: "`if` is written in small letters.",
        example: "if (a == 1) { }",
        ..ANYWHERE
    },
    Row {
        line: &[Is("While"), Is("(")],
        at: &[Is("{")],
        sentence: "`while` is written in small letters.",
        example: "while (a < 5) { }",
        ..ANYWHERE
    },
    Row {
        before: &[Is("Let")],
        at: &[Name],
        sentence: "`let` is written in small letters.",
        example: "let x = 5",
        ..ANYWHERE
    },
];

/// Code 6: tests and loops that are written otherwise, and forms that aren't here, part 5.
pub fn control_5() -> &'static [Row] {
    &CONTROL_5
}

static CONTROL_5: [Row; 10] = [
    Row {
        at: &[Is("switch")],
        sentence: "There is no `switch`: write `if` and `else if`.",
        example: "if (a == 1) { } else if (a == 2) { }",
        ..ANYWHERE
    },
    Row {
        at: &[Is("case")],
        sentence: "There is no `switch` and no `case`: write `if` and `else if`.",
        example: "if (a == 1) { } else if (a == 2) { }",
        ..ANYWHERE
    },
    Row {
        at: &[Is("var")],
        sentence: "A variable is declared by `let`.",
        example: "let x = 5",
        ..ANYWHERE
    },
    Row {
        at: &[Is("enum")],
        sentence: "There is no `enum`: give each a number by `const`.",
        example: "const LEFT = 0",
        ..ANYWHERE
    },
    Row {
        at: &[Is("import")],
        sentence: "Nothing is imported: the board's calls are known by themselves.",
        example: "basic.showNumber(5)",
        ..ANYWHERE
    },
    Row {
        before: &[Is("from")],
        sentence: "Nothing is imported: the board's calls are known by themselves.",
        example: "basic.showNumber(5)",
        ..ANYWHERE
    },
    Row {
        at: &[Is("export")],
        sentence: "Nothing is exported: take `export` out.",
        example: "function f(): void { }",
        ..ANYWHERE
    },
    Row {
        at: &[Is("interface")],
        sentence: "There is no `interface`: write a class.",
        example: "class Point { x: number; y: number }",
        ..ANYWHERE
    },
    Row {
        before: &[Is("type")],
        at: &[Name, Is("=")],
        sentence: "No type gets a name of its own: write the type itself, or a class.",
        example: "let x: number = 5",
        ..ANYWHERE
    },
    Row {
        at: &[Is("typeof")],
        sentence: "There is no `typeof`: each name has one type, known before the program runs.",
        example: "let x: number = 5",
        ..ANYWHERE
    },
];

/// Code 6: tests and loops that are written otherwise, and forms that aren't here, part 6.
pub fn control_6() -> &'static [Row] {
    &CONTROL_6
}

static CONTROL_6: [Row; 10] = [
    Row {
        at: &[Is("try")],
        sentence: "There is no `try`, since nothing is thrown: test beforehand by `if`.",
        example: "if (list.length > 0) { }",
        ..ANYWHERE
    },
    Row {
        at: &[Is("throw")],
        sentence: "Nothing is thrown: `control.panic` ends the run with a number.",
        example: "control.panic(5)",
        ..ANYWHERE
    },
    Row {
        before: &[Is("static")],
        sentence: "There is no `static`: make it a global or a function outside the class.",
        example: "let count = 0",
        ..ANYWHERE
    },
    Row {
        before: &[Is("readonly")],
        sentence: "There is no `readonly`: leave it out.",
        example: "class A { x = 5 }",
        ..ANYWHERE
    },
    Row {
        before: &[Is("abstract")],
        at: &[Is("class")],
        sentence: "There is no `abstract`: leave it out.",
        example: "class A { }",
        ..ANYWHERE
    },
    Row {
        before: &[Is("get")],
        at: &[Name],
        sentence: "There is no `get`: write a method.",
        example: "class A { x(): number { return 5 } }",
        ..ANYWHERE
    },
    Row {
        before: &[Is("set")],
        at: &[Name],
        sentence: "There is no `set`: write a method.",
        example: "class A { put(x: number): void { } }",
        ..ANYWHERE
    },
    Row {
        before: &[Is("async")],
        sentence: "There is no `async`: handlers and `control.inBackground` go on side by side.",
        example: "control.inBackground(function () { })",
        ..ANYWHERE
    },
    Row {
        before: &[Is("await")],
        sentence: "There is no `await`: a call that takes time ends when it is done.",
        example: "basic.pause(100)",
        ..ANYWHERE
    },
    Row {
        at: &[Is("delete")],
        sentence: "There is no `delete`: `pop` takes the last item from a list.",
        example: "a.pop()",
        ..ANYWHERE
    },
];

/// Code 6: tests and loops that are written otherwise, and forms that aren't here, part 7.
pub fn control_7() -> &'static [Row] {
    &CONTROL_7
}

static CONTROL_7: [Row; 4] = [
    Row {
        before: &[Is(":")],
        at: &[Is("("), Is(")"), Is("=>")],
        sentence: "There are no function types, since functions are no values: write the function by its name.",
        example: "function f(): void { }",
        ..ANYWHERE
    },
    Row {
        before: &[Is(":")],
        at: &[Is("("), Name, Is(":")],
        sentence: "There are no function types, since functions are no values: write the function by its name.",
        example: "function f(n: number): void { }",
        ..ANYWHERE
    },
    Row {
        before: &[Is(":"), Name],
        at: &[Is("["), Any, Is("]")],
        sentence: "A type has `[]` without a number: a list grows by `push`.",
        example: "let a: number[] = [1, 2, 3]",
        ..ANYWHERE
    },
    Row {
        at: &[Is(":=")],
        sentence: "A value is given by `=` alone, without `:`.",
        example: "x = 5",
        ..ANYWHERE
    },
];
