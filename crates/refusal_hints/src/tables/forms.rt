// Rows: the first that fits is told.
use around_place::Inside::{Bracket, Unclosed};
use around_place::Test::{Any, Is, Name, Number, Text};
use around_place::{ANYWHERE, Row};

/// Code 6: declarations, functions and calls that are written otherwise.
pub fn forms_1() -> &'static [Row] {
    &FORMS_1
}

static FORMS_1: [Row; 10] = [
    Row {
        line: &[Is("class")],
        at: &[Is(",")],
        inside: Bracket(b'{'),
        sentence: "Fields have `;` between them, or a line each.",
        example: "class P { x = 0; y = 0 }",
        ..ANYWHERE
    },
    Row {
        line: &[Is("class")],
        before: &[Is("let")],
        at: &[Name],
        sentence: "A field of a class is written without `let`.",
        example: "class A { x = 5 }",
        ..ANYWHERE
    },
    Row {
        before: &[Is("}"), Is("let")],
        at: &[Name],
        inside: Bracket(b'{'),
        sentence: "A field of a class is written without `let`.",
        example: "class A { x = 5 }",
        ..ANYWHERE
    },
    Row {
        before: &[Is("let")],
        at: &[Name, Is("=")],
        sentence: "This word is reserved: choose another name. And a field of a class is written without `let`.",
        example: "let kind = 5",
        ..ANYWHERE
    },
    Row {
        before: &[Is("let")],
        at: &[Name, Is(":")],
        sentence: "This word is reserved: choose another name. And a field of a class is written without `let`.",
        example: "let kind: number = 5",
        ..ANYWHERE
    },
    Row {
        before: &[Is("let")],
        at: &[Is("[")],
        sentence: "One name is declared at a time.",
        example: "let a = list[0]",
        ..ANYWHERE
    },
    Row {
        before: &[Is("let")],
        at: &[Is("{")],
        sentence: "One name is declared at a time.",
        example: "let x = p.x",
        ..ANYWHERE
    },
    Row {
        before: &[Is("let")],
        at: &[Is("=")],
        sentence: "The name is missing after `let`.",
        example: "let x = 5",
        ..ANYWHERE
    },
    Row {
        before: &[Is("const")],
        at: &[Name, Is("=")],
        sentence: "This word is reserved: choose another name.",
        example: "const KIND = 5",
        ..ANYWHERE
    },
    Row {
        before: &[Is("class")],
        at: &[Any],
        sentence: "The name is missing after `class`; a reserved word is none.",
        example: "class A { x = 5 }",
        ..ANYWHERE
    },
];

/// Code 6: declarations, functions and calls that are written otherwise, part 2.
pub fn forms_2() -> &'static [Row] {
    &FORMS_2
}

static FORMS_2: [Row; 10] = [
    Row {
        before: &[Is("const"), Name],
        sentence: "A `const` gets its value at once, by `=`.",
        example: "const x = 5",
        ..ANYWHERE
    },
    Row {
        before: &[Is("const"), Name, Is(":"), Name],
        sentence: "A `const` gets its value at once, by `=`.",
        example: "const x: number = 5",
        ..ANYWHERE
    },
    Row {
        before: &[Is("let"), Name],
        at: &[Is("number")],
        sentence: "Between a name and its type is `:`.",
        example: "let x: number = 5",
        ..ANYWHERE
    },
    Row {
        before: &[Is("let"), Name],
        at: &[Is("string")],
        sentence: "Between a name and its type is `:`.",
        example: "let s: string = \"\"",
        ..ANYWHERE
    },
    Row {
        before: &[Is("let"), Name],
        at: &[Is("boolean")],
        sentence: "Between a name and its type is `:`.",
        example: "let b: boolean = true",
        ..ANYWHERE
    },
    Row {
        before: &[Is("let"), Name],
        at: &[Is("-")],
        sentence: "A name has no `-` in it.",
        example: "let myNumber = 5",
        ..ANYWHERE
    },
    Row {
        before: &[Is("let"), Name],
        at: &[Name],
        sentence: "A name is one word.",
        example: "let myNumber = 5",
        ..ANYWHERE
    },
    Row {
        before: &[Is("let"), Name],
        at: &[Is("==")],
        sentence: "A name is given its value by one `=`.",
        example: "let x = 5",
        ..ANYWHERE
    },
    Row {
        before: &[Is("let"), Name],
        at: &[Is("<-")],
        sentence: "A value is given by `=`.",
        example: "let x = 5",
        ..ANYWHERE
    },
    Row {
        before: &[Is("let"), Name, Is(":")],
        at: &[Is(":")],
        sentence: "Between a name and its type is one `:`.",
        example: "let x: number = 5",
        ..ANYWHERE
    },
];

/// Code 6: declarations, functions and calls that are written otherwise, part 3.
pub fn forms_3() -> &'static [Row] {
    &FORMS_3
}

static FORMS_3: [Row; 10] = [
    Row {
        before: &[Is("let"), Name, Is(":")],
        at: &[Is("=")],
        sentence: "A value is given by `=` alone, without `:`.",
        example: "let x = 5",
        ..ANYWHERE
    },
    Row {
        before: &[Is(":"), Is("Array")],
        at: &[Is("<")],
        sentence: "A list's type is written with `[]` after that of its items.",
        example: "let a: number[] = []",
        ..ANYWHERE
    },
    Row {
        before: &[Is(":"), Is("function")],
        sentence: "Functions are no values, so none is declared by `let`: write it by its name.",
        example: "function f(): void { }",
        ..ANYWHERE
    },
    Row {
        before: &[Is("let"), Name, Is(":")],
        at: &[Is("function")],
        sentence: "Functions are no values, so none is declared by `let`: write it by its name.",
        example: "function f(): void { }",
        ..ANYWHERE
    },
    Row {
        before: &[Is(":")],
        at: &[Is("void")],
        sentence: "Only a function's result has the type `void`.",
        example: "let x: number = 5",
        ..ANYWHERE
    },
    Row {
        before: &[Is("def")],
        at: &[Name],
        sentence: "A function begins with `function`, and its body is in `{ }`.",
        example: "function f(): void { }",
        ..ANYWHERE
    },
    Row {
        before: &[Is("func")],
        at: &[Name],
        sentence: "A function begins with `function`.",
        example: "function f(): void { }",
        ..ANYWHERE
    },
    Row {
        before: &[Is("fn")],
        at: &[Name],
        sentence: "A function begins with `function`.",
        example: "function f(): void { }",
        ..ANYWHERE
    },
    Row {
        before: &[Is("fun")],
        at: &[Name],
        sentence: "A function begins with `function`.",
        example: "function f(): void { }",
        ..ANYWHERE
    },
    Row {
        at: &[Is("void"), Name],
        sentence: "A function begins with `function`; the type of its result is after its parameters.",
        example: "function f(): void { }",
        ..ANYWHERE
    },
];

/// Code 6: declarations, functions and calls that are written otherwise, part 4.
pub fn forms_4() -> &'static [Row] {
    &FORMS_4
}

static FORMS_4: [Row; 10] = [
    Row {
        before: &[Is("int")],
        at: &[Name, Is("(")],
        sentence: "A function begins with `function`; the type of its result is after its parameters.",
        example: "function f(): number { return 5 }",
        ..ANYWHERE
    },
    Row {
        before: &[Is("int")],
        at: &[Name],
        sentence: "A variable is declared by `let`, and the type of whole numbers is `number`.",
        example: "let x = 5",
        ..ANYWHERE
    },
    Row {
        before: &[Is("float")],
        at: &[Name],
        sentence: "A variable is declared by `let`, and numbers are whole.",
        example: "let x = 5",
        ..ANYWHERE
    },
    Row {
        line: &[Is("number")],
        before: &[Is("number")],
        at: &[Name],
        sentence: "A variable is declared by `let`; its type may be after its name.",
        example: "let x: number = 5",
        ..ANYWHERE
    },
    Row {
        line: &[Is("string")],
        before: &[Is("string")],
        at: &[Name],
        sentence: "A variable is declared by `let`; its type may be after its name.",
        example: "let s: string = \"\"",
        ..ANYWHERE
    },
    Row {
        line: &[Is("boolean")],
        before: &[Is("boolean")],
        at: &[Name],
        sentence: "A variable is declared by `let`; its type may be after its name.",
        example: "let b: boolean = true",
        ..ANYWHERE
    },
    Row {
        line: &[Is("function")],
        before: &[Is("number")],
        at: &[Name],
        sentence: "The type of a parameter is after its name.",
        example: "function f(a: number): void { }",
        ..ANYWHERE
    },
    Row {
        line: &[Is("function")],
        before: &[Is("string")],
        at: &[Name],
        sentence: "The type of a parameter is after its name.",
        example: "function f(s: string): void { }",
        ..ANYWHERE
    },
    Row {
        line: &[Is("function")],
        before: &[Is("boolean")],
        at: &[Name],
        sentence: "The type of a parameter is after its name.",
        example: "function f(b: boolean): void { }",
        ..ANYWHERE
    },
    Row {
        line: &[Is("function")],
        at: &[Is("?:")],
        sentence: "No parameter can be left out at a call: take the `?` out.",
        example: "function f(a: number, b: number): void { }",
        ..ANYWHERE
    },
];

/// Code 6: declarations, functions and calls that are written otherwise, part 5.
pub fn forms_5() -> &'static [Row] {
    &FORMS_5
}

static FORMS_5: [Row; 10] = [
    Row {
        line: &[Is("function")],
        before: &[Name],
        at: &[Is("=")],
        inside: Bracket(b'('),
        sentence: "A parameter has no value of its own: give it at the call.",
        example: "function f(a: number, b: number): void { }",
        ..ANYWHERE
    },
    Row {
        line: &[Is("function")],
        before: &[Is("number")],
        at: &[Is("=")],
        inside: Bracket(b'('),
        sentence: "A parameter has no value of its own: give it at the call.",
        example: "function f(a: number, b: number): void { }",
        ..ANYWHERE
    },
    Row {
        at: &[Is("."), Is("."), Is(".")],
        sentence: "A function has as many arguments as parameters: `...` isn't here.",
        example: "function f(a: number[]): void { }",
        ..ANYWHERE
    },
    Row {
        line: &[Is("function")],
        before: &[Is(")")],
        at: &[Is("->")],
        sentence: "The type of a result is after `:`.",
        example: "function f(): number { return 5 }",
        ..ANYWHERE
    },
    Row {
        line: &[Is("function")],
        before: &[Is(")")],
        at: &[Is("void")],
        sentence: "The type of a result is after `:`.",
        example: "function f(): void { }",
        ..ANYWHERE
    },
    Row {
        line: &[Is("function")],
        before: &[Is(")")],
        at: &[Is("number")],
        sentence: "The type of a result is after `:`.",
        example: "function f(): number { return 5 }",
        ..ANYWHERE
    },
    Row {
        line: &[Is("function")],
        before: &[Is(":")],
        at: &[Is("{")],
        sentence: "The type of the result is missing after `:`.",
        example: "function f(): void { }",
        ..ANYWHERE
    },
    Row {
        before: &[Is("function")],
        at: &[Is("{")],
        sentence: "Parentheses are after `function`.",
        example: "basic.forever(function () { })",
        ..ANYWHERE
    },
    Row {
        line: &[Is("function")],
        alone: true,
        at: &[Is("(")],
        sentence: "A function outside a call has a name.",
        example: "function f(): void { }",
        ..ANYWHERE
    },
    Row {
        line: &[Is("basic"), Is("."), Is("forever"), Is("("), Is(")")],
        at: &[Is("{")],
        sentence: "The handler is within the parentheses of the call.",
        example: "basic.forever(function () { })",
        ..ANYWHERE
    },
];

/// Code 6: declarations, functions and calls that are written otherwise, part 6.
pub fn forms_6() -> &'static [Row] {
    &FORMS_6
}

static FORMS_6: [Row; 10] = [
    Row {
        line: &[Is("input"), Is("."), Is("onButtonPressed")],
        before: &[Is(")")],
        at: &[Is("{")],
        sentence: "The handler is within the parentheses of the call, after a comma.",
        example: "input.onButtonPressed(Button.A, function () { })",
        ..ANYWHERE
    },
    Row {
        line: &[Is("input"), Is("."), Is("onButtonPressed")],
        before: &[Is("(")],
        at: &[Is(")")],
        sentence: "A handler without `function` is written with `=>`.",
        example: "input.onButtonPressed(Button.A, () => { })",
        ..ANYWHERE
    },
    Row {
        line: &[Is("input"), Is("."), Is("onButtonPressed")],
        before: &[Is("Button"), Is("."), Name],
        at: &[Is("(")],
        sentence: "A comma is between `Button.A` and the handler.",
        example: "input.onButtonPressed(Button.A, function () { })",
        ..ANYWHERE
    },
    Row {
        before: &[Is("."), Name],
        at: &[Is("function")],
        sentence: "What a call is given is in parentheses.",
        example: "basic.forever(function () { })",
        ..ANYWHERE
    },
    Row {
        at: &[Is("function"), Name, Is("(")],
        inside: Unclosed(b'{'),
        sentence: "A function is outside blocks: a `{` before it isn't closed.",
        example: "function f(): void { }",
        ..ANYWHERE
    },
    Row {
        before: &[Is("function")],
        at: &[Name, Is("(")],
        inside: Bracket(b'{'),
        sentence: "A method of a class is written without `function`.",
        example: "class A { f(): void { } }",
        ..ANYWHERE
    },
    Row {
        before: &[Is("=>")],
        sentence: "An arrow's body is in `{ }`.",
        example: "basic.forever(() => { basic.pause(1) })",
        ..ANYWHERE
    },
    Row {
        before: &[Name],
        at: &[Is("=>")],
        sentence: "An arrow's parameters are in parentheses; and an arrow is a handler in a call alone.",
        example: "basic.forever(() => { })",
        ..ANYWHERE
    },
    Row {
        at: &[Is("and")],
        sentence: "`and` is written `&&`.",
        example: "if (a == 1 && b == 2) { }",
        ..ANYWHERE
    },
    Row {
        before: &[Is("function"), Name],
        at: &[Is("{")],
        sentence: "Parentheses are after a function's name, also where it has no parameters.",
        example: "function f(): void { }",
        ..ANYWHERE
    },
];

/// Code 6: declarations, functions and calls that are written otherwise, part 7.
pub fn forms_7() -> &'static [Row] {
    &FORMS_7
}

static FORMS_7: [Row; 10] = [
    Row {
        at: &[Is("or")],
        sentence: "`or` is written `||`.",
        example: "if (a == 1 || b == 2) { }",
        ..ANYWHERE
    },
    Row {
        at: &[Is("is")],
        sentence: "Equal is written `==`.",
        example: "if (a == 1) { }",
        ..ANYWHERE
    },
    Row {
        at: &[Is("mod")],
        sentence: "The rest of a division is written `%`.",
        example: "let x = 7 % 2",
        ..ANYWHERE
    },
    Row {
        before: &[Is("not")],
        sentence: "`not` is written `!`.",
        example: "if (!done) { }",
        ..ANYWHERE
    },
    Row {
        before: &[Is("*")],
        at: &[Is("*")],
        sentence: "There is no `**`: multiply, in a loop where it is often.",
        example: "let x = 2 * 2 * 2",
        ..ANYWHERE
    },
    Row {
        before: &[Is("?")],
        at: &[Is(".")],
        sentence: "There is no `?.`: test first whether it is null.",
        example: "if (a != null) { }",
        ..ANYWHERE
    },
    Row {
        before: &[Is("?")],
        at: &[Is("?")],
        sentence: "There is no `??`: test first whether it is null.",
        example: "if (a != null) { }",
        ..ANYWHERE
    },
    Row {
        before: &[Is("-")],
        at: &[Is(">")],
        sentence: "Between an object and its member is a dot.",
        example: "basic.pause(100)",
        ..ANYWHERE
    },
    Row {
        before: &[Is(".")],
        at: &[Is(".")],
        sentence: "One dot is between an object and its member.",
        example: "basic.pause(100)",
        ..ANYWHERE
    },
    Row {
        before: &[Is("basic")],
        at: &[Is(",")],
        sentence: "Between an object and its member is a dot.",
        example: "basic.pause(100)",
        ..ANYWHERE
    },
];

/// Code 6: declarations, functions and calls that are written otherwise, part 8.
pub fn forms_8() -> &'static [Row] {
    &FORMS_8
}

static FORMS_8: [Row; 10] = [
    Row {
        before: &[Is("led")],
        at: &[Is(",")],
        sentence: "Between an object and its member is a dot.",
        example: "led.plot(2, 2)",
        ..ANYWHERE
    },
    Row {
        line: &[Is("basic")],
        alone: true,
        at: &[Is(":")],
        sentence: "Between an object and its member is a dot.",
        example: "basic.pause(100)",
        ..ANYWHERE
    },
    Row {
        line: &[Is("led")],
        alone: true,
        at: &[Is(":")],
        sentence: "Between an object and its member is a dot.",
        example: "led.plot(2, 2)",
        ..ANYWHERE
    },
    Row {
        line: &[Is("try")],
        alone: true,
        at: &[Is(":")],
        sentence: "There is no `try`, since nothing is thrown: test beforehand by `if`.",
        example: "if (list.length > 0) { }",
        ..ANYWHERE
    },
    Row {
        line: &[Is("class")],
        before: &[Name],
        at: &[Is(":")],
        sentence: "There is no `:` after a class's name: its members are in `{ }`.",
        example: "class A { x = 5 }",
        ..ANYWHERE
    },
    Row {
        before: &[Is("class"), Name],
        at: &[Is("(")],
        sentence: "What a class is based on is after `extends`; its parameters are those of `constructor`.",
        example: "class B extends A { }",
        ..ANYWHERE
    },
    Row {
        line: &[Name],
        alone: true,
        at: &[Is(":")],
        sentence: "A declaration begins with `let`.",
        example: "let b: number = 2",
        ..ANYWHERE
    },
    Row {
        line: &[Name],
        alone: true,
        at: &[Is(",")],
        sentence: "One name is set at a time.",
        example: "a = 1; b = 2",
        ..ANYWHERE
    },
    Row {
        before: &[Is("."), Name],
        at: &[Number],
        sentence: "What a call is given is in parentheses.",
        example: "basic.pause(100)",
        ..ANYWHERE
    },
    Row {
        before: &[Is("."), Name],
        at: &[Text],
        sentence: "What a call is given is in parentheses.",
        example: "serial.writeLine(\"x\")",
        ..ANYWHERE
    },
];

/// Code 6: declarations, functions and calls that are written otherwise, part 9.
pub fn forms_9() -> &'static [Row] {
    &FORMS_9
}

static FORMS_9: [Row; 10] = [
    Row {
        before: &[Is("print")],
        at: &[Text],
        sentence: "There is no `print`: the serial line takes a text by `serial.writeLine`.",
        example: "serial.writeLine(\"x\")",
        ..ANYWHERE
    },
    Row {
        before: &[Is("Button"), Is("."), Name],
        at: &[Is("{")],
        sentence: "A comma is after the button, and then a handler: `function () {`.",
        example: "input.onButtonPressed(Button.A, function () { })",
        ..ANYWHERE
    },
    Row {
        before: &[Is("."), Name],
        at: &[Is("{")],
        sentence: "What a call is given is in `( )`.",
        example: "basic.pause(100)",
        ..ANYWHERE
    },
    Row {
        before: &[Is(".")],
        at: &[Number],
        sentence: "An item of a list is in `[ ]`.",
        example: "let b = a[0]",
        ..ANYWHERE
    },
    Row {
        before: &[Is("led"), Is("."), Is("plot"), Is("["), Number],
        at: &[Is(",")],
        sentence: "What a call is given is in `( )`.",
        example: "led.plot(1, 2)",
        ..ANYWHERE
    },
    Row {
        before: &[Is("["), Number],
        at: &[Is(",")],
        inside: Bracket(b'['),
        sentence: "A list in a list has its items one after the other, each index in brackets of its own.",
        example: "let b = a[1][2]",
        ..ANYWHERE
    },
    Row {
        at: &[Is("."), Number],
        sentence: "Numbers are whole, so none begins with a point: count in tenths.",
        example: "let tenths = 5",
        ..ANYWHERE
    },
    Row {
        before: &[Is("=")],
        at: &[Is("{")],
        sentence: "There are no objects without a class: write a class, and make one by `new`.",
        example: "class Point { x = 1; y = 2 }",
        ..ANYWHERE
    },
    Row {
        before: &[Is("(")],
        at: &[Is("{")],
        sentence: "There are no objects without a class: write a class, and make one by `new`.",
        example: "class Point { x = 1; y = 2 }",
        ..ANYWHERE
    },
    Row {
        before: &[Is("return")],
        at: &[Is("{")],
        sentence: "There are no objects without a class: write a class, and make one by `new`.",
        example: "class Point { x = 1; y = 2 }",
        ..ANYWHERE
    },
];

/// Code 6: declarations, functions and calls that are written otherwise, part 10.
pub fn forms_10() -> &'static [Row] {
    &FORMS_10
}

static FORMS_10: [Row; 10] = [
    Row {
        before: &[Is("extends")],
        at: &[Is("{")],
        sentence: "The name of the base is missing after `extends`.",
        example: "class B extends A { }",
        ..ANYWHERE
    },
    Row {
        before: &[Is(",")],
        at: &[Is(")")],
        sentence: "A comma is between two arguments alone: take it out, or write what is missing after it.",
        example: "basic.pause(100)",
        ..ANYWHERE
    },
    Row {
        at: &[Is("return")],
        sentence: "`return` is in a function, a method or a handler alone.",
        example: "function f(): number { return 5 }",
        ..ANYWHERE
    },
    Row {
        at: &[Is("break")],
        sentence: "`break` is in a loop alone.",
        example: "while (true) { break }",
        ..ANYWHERE
    },
    Row {
        at: &[Is("continue")],
        sentence: "`continue` is in a loop alone.",
        example: "while (true) { continue }",
        ..ANYWHERE
    },
    Row {
        at: &[Is("public")],
        sentence: "`public` is before a member of a class alone: declare by `let`.",
        example: "let x = 1",
        ..ANYWHERE
    },
    Row {
        at: &[Is("private")],
        sentence: "`private` is before a member of a class alone: declare by `let`.",
        example: "let x = 1",
        ..ANYWHERE
    },
    Row {
        before: &[Is("new"), Name],
        sentence: "Parentheses are after the class's name, also where there are no arguments.",
        example: "let p = new P()",
        ..ANYWHERE
    },
    Row {
        at: &[Is("<!--")],
        sentence: "A comment begins with `//`.",
        example: "// a comment",
        ..ANYWHERE
    },
    Row {
        at: &[Is("--")],
        sentence: "A comment begins with `//`.",
        example: "let x = 5 // a comment",
        ..ANYWHERE
    },
];
