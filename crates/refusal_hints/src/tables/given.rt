// Rows: the first that fits is told.
use around_place::Inside::Bracket;
use around_place::Test::{Any, Is, Name, Number, Sign, Text};
use around_place::{ANYWHERE, Row};

/// Code 11: what is given to calls and signs.
pub fn given_1() -> &'static [Row] {
    &GIVEN_1
}

static GIVEN_1: [Row; 10] = [
    Row {
        at: &[
            Is("basic"),
            Is("."),
            Is("showString"),
            Is("("),
            Any,
            Is(","),
        ],
        sentence: "`basic.showString` takes one text alone: there is no time to set. Take the comma and what is after it out.",
        example: "basic.showString(\"hi\")",
        ..ANYWHERE
    },
    Row {
        at: &[
            Is("basic"),
            Is("."),
            Is("showNumber"),
            Is("("),
            Any,
            Is(","),
        ],
        sentence: "`basic.showNumber` takes one number alone: there is no time to set. Take the comma and what is after it out.",
        example: "basic.showNumber(5)",
        ..ANYWHERE
    },
    Row {
        at: &[Is("basic"), Is("."), Is("showLeds"), Is("("), Any, Is(",")],
        sentence: "`basic.showLeds` takes one picture alone: there is no time to set. Take the comma and what is after it out.",
        example: "basic.showLeds(`.#.#. ##### ##### .###. ..#..`)",
        ..ANYWHERE
    },
    Row {
        at: &[
            Is("basic"),
            Is("."),
            Is("showNumber"),
            Is("("),
            Name,
            Is("("),
        ],
        sentence: "`basic.showNumber` takes a number, and this function gives none: its `return` is missing.",
        example: "function add(a: number, b: number): number { return a + b }",
        ..ANYWHERE
    },
    Row {
        at: &[
            Is("basic"),
            Is("."),
            Is("showString"),
            Is("("),
            Name,
            Is("("),
        ],
        sentence: "`basic.showString` takes a text, and this function gives none: its `return` is missing.",
        example: "function name(): string { return \"Ada\" }",
        ..ANYWHERE
    },
    Row {
        at: &[
            Is("serial"),
            Is("."),
            Is("writeNumber"),
            Is("("),
            Name,
            Is("("),
        ],
        sentence: "`serial.writeNumber` takes a number, and this function gives none: its `return` is missing.",
        example: "function add(a: number, b: number): number { return a + b }",
        ..ANYWHERE
    },
    Row {
        at: &[Name, Is("."), Is("push"), Is("("), Is(")")],
        sentence: "`push` takes one item, and nothing is here.",
        example: "a.push(2)",
        ..ANYWHERE
    },
    Row {
        at: &[Name, Is("."), Is("push"), Is("("), Any, Is(",")],
        sentence: "`push` takes one item at a time.",
        example: "a.push(1); a.push(2)",
        ..ANYWHERE
    },
    Row {
        at: &[Name, Is("."), Is("push"), Is("(")],
        sentence: "`push` takes an item of the type that the list's items have.",
        example: "a.push(2)",
        ..ANYWHERE
    },
    Row {
        at: &[Is("this"), Is("."), Name, Is("."), Is("push"), Is("(")],
        sentence: "`push` takes an item of the type that the list's items have.",
        example: "class A { list: number[] = []; f(): void { this.list.push(2) } }",
        ..ANYWHERE
    },
];

/// Code 11: what is given to calls and signs, part 2.
pub fn given_2() -> &'static [Row] {
    &GIVEN_2
}

static GIVEN_2: [Row; 10] = [
    Row {
        at: &[Name, Is("."), Is("pop"), Is("("), Any],
        sentence: "`pop` takes nothing, and gives the last item.",
        example: "let last = a.pop()",
        ..ANYWHERE
    },
    Row {
        at: &[Is("true"), Is("&")],
        sentence: "Both is written `&&`; one `&` is for the bits of numbers.",
        example: "if (a && b) { }",
        ..ANYWHERE
    },
    Row {
        at: &[Is("false"), Is("&")],
        sentence: "Both is written `&&`; one `&` is for the bits of numbers.",
        example: "if (a && b) { }",
        ..ANYWHERE
    },
    Row {
        at: &[Is("true"), Is("|")],
        sentence: "Either is written `||`; one `|` is for the bits of numbers.",
        example: "if (a || b) { }",
        ..ANYWHERE
    },
    Row {
        at: &[Is("false"), Is("|")],
        sentence: "Either is written `||`; one `|` is for the bits of numbers.",
        example: "if (a || b) { }",
        ..ANYWHERE
    },
    Row {
        at: &[Any, Is("=="), Any, Is("&")],
        sentence: "Both is written `&&`; one `&` is for the bits of numbers.",
        example: "if (a == 1 && b == 2) { }",
        ..ANYWHERE
    },
    Row {
        at: &[Any, Is("=="), Any, Is("|")],
        sentence: "Either is written `||`; one `|` is for the bits of numbers.",
        example: "if (a == 1 || b == 2) { }",
        ..ANYWHERE
    },
    Row {
        at: &[Any, Is("=="), Any, Is("||"), Any],
        sentence: "Each side of `||` is a test of its own.",
        example: "if (a == 1 || a == 2) { }",
        ..ANYWHERE
    },
    Row {
        at: &[Any, Is("=="), Any, Is("&&"), Any],
        sentence: "Each side of `&&` is a test of its own.",
        example: "if (a == 1 && b == 2) { }",
        ..ANYWHERE
    },
    Row {
        at: &[Is("if"), Is("("), Any, Is("=="), Any, Is("||"), Number],
        sentence: "Each side of `||` is a test of its own.",
        example: "if (a == 1 || a == 2) { }",
        ..ANYWHERE
    },
];

/// Code 11: what is given to calls and signs, part 3.
pub fn given_3() -> &'static [Row] {
    &GIVEN_3
}

static GIVEN_3: [Row; 10] = [
    Row {
        at: &[Is("if"), Is("("), Any, Is("=="), Any, Is("&&"), Number],
        sentence: "Each side of `&&` is a test of its own.",
        example: "if (a == 1 && b == 2) { }",
        ..ANYWHERE
    },
    Row {
        at: &[Is("while"), Is("("), Any, Is("=="), Any, Is("||"), Number],
        sentence: "Each side of `||` is a test of its own.",
        example: "while (a == 1 || a == 2) { }",
        ..ANYWHERE
    },
    Row {
        at: &[Name, Is("("), Is(")")],
        sentence: "The function takes arguments, and none are here; or this is no function but a variable: take the `( )` out.",
        example: "f(1)",
        ..ANYWHERE
    },
    Row {
        at: &[Is("["), Number, Is(","), Text],
        sentence: "All items of a list have one type, that of the first: a text is in quotes, a number is without.",
        example: "let a = [1, 2]",
        ..ANYWHERE
    },
    Row {
        at: &[Is("["), Text, Is(","), Number],
        sentence: "All items of a list have one type, that of the first: a text is in quotes, a number is without.",
        example: "let a = [\"1\", \"2\"]",
        ..ANYWHERE
    },
    Row {
        at: &[Name, Is("++")],
        sentence: "A `const` is never set anew: declare it by `let`. Only a number is counted.",
        example: "let c = 1",
        ..ANYWHERE
    },
    Row {
        at: &[Name, Is("--")],
        sentence: "A `const` is never set anew: declare it by `let`. Only a number is counted.",
        example: "let c = 1",
        ..ANYWHERE
    },
    Row {
        at: &[Name, Is("+"), Is("basic"), Is(".")],
        sentence: "A line that ends with a sign goes on with the next line: take the sign out, or write what is missing after it.",
        example: "let y = x + 1",
        ..ANYWHERE
    },
    Row {
        at: &[Name, Is("+"), Is("led"), Is(".")],
        sentence: "A line that ends with a sign goes on with the next line: take the sign out, or write what is missing after it.",
        example: "let y = x + 1",
        ..ANYWHERE
    },
    Row {
        at: &[Name, Is("+"), Is("serial"), Is(".")],
        sentence: "A line that ends with a sign goes on with the next line: take the sign out, or write what is missing after it.",
        example: "let y = x + 1",
        ..ANYWHERE
    },
];

/// Code 11: heads of methods, and calls that give nothing.
pub fn heads() -> &'static [Row] {
    &HEADS
}

static HEADS: [Row; 7] = [
    Row {
        at: &[Is("super"), Is("(")],
        sentence: "A constructor calls `super(..)` first, and only that of a class with a base.",
        example: "class B extends A { constructor() { super() } }",
        ..ANYWHERE
    },
    Row {
        at: &[Is("constructor")],
        sentence: "The constructor of a class with a base begins with `super(..)`.",
        example: "class B extends A { constructor() { super() } }",
        ..ANYWHERE
    },
    Row {
        at: &[Name, Is("("), Name, Is(":")],
        sentence: "A method of this name is in the base, with other parameters or another result: write those, or choose another name.",
        example: "class B extends A { second(x: number): void { } }",
        ..ANYWHERE
    },
    Row {
        alone: true,
        at: &[Name, Is("("), Is(")"), Is(":")],
        sentence: "A method of this name is in the base, with other parameters or another result: write those, or choose another name.",
        example: "class B extends A { second(): void { } }",
        ..ANYWHERE
    },
    Row {
        alone: true,
        at: &[Name, Is("("), Is(")"), Is("{")],
        sentence: "A method of this name is in the base, with other parameters or another result: write those, or choose another name.",
        example: "class B extends A { second(): void { } }",
        ..ANYWHERE
    },
    Row {
        at: &[Name, Is("("), Is(")"), Sign],
        sentence: "The function gives no value: its `return` is missing; or it takes arguments, and none are here; or this is no function but a variable.",
        example: "function add(a: number, b: number): number { return a + b }",
        ..ANYWHERE
    },
    Row {
        at: &[Text, Is("[")],
        sentence: "A text is shown and written as a whole: its letters can't be asked.",
        example: "basic.showString(\"HELLO\")",
        ..ANYWHERE
    },
];

/// Code 11: what is given to methods.
pub fn methods() -> &'static [Row] {
    &METHODS
}

static METHODS: [Row; 2] = [
    Row {
        at: &[Is("this"), Is("."), Name, Is("(")],
        sentence: "The number or the types of the arguments aren't those of the method.",
        example: "class D { bark(n: number): void { this.bark(1) } }",
        ..ANYWHERE
    },
    Row {
        at: &[Name, Is("."), Name, Is("(")],
        sentence: "The number or the types of the arguments aren't those of the method.",
        example: "d.bark(1)",
        ..ANYWHERE
    },
];

/// Code 9: what is there twice.
pub fn doubled() -> &'static [Row] {
    &DOUBLED
}

static DOUBLED: [Row; 7] = [
    Row {
        before: &[Is("class")],
        at: &[Name],
        sentence: "Two classes have this name: give one of them another.",
        example: "class Cat { }",
        ..ANYWHERE
    },
    Row {
        at: &[Name],
        inside: Bracket(b'('),
        sentence: "Two parameters have this name: give one of them another.",
        example: "function f(a: number, b: number): void { }",
        ..ANYWHERE
    },
    Row {
        at: &[Is("constructor"), Is("(")],
        sentence: "A class has one constructor: put what the two do into one.",
        example: "class A { constructor() { } }",
        ..ANYWHERE
    },
    Row {
        at: &[Name, Is("(")],
        sentence: "The class, or its base, has a method or a field of this name: give one of them another.",
        example: "class A { f(): void { }; g(): void { } }",
        ..ANYWHERE
    },
    Row {
        at: &[Name, Is("=")],
        inside: Bracket(b'{'),
        sentence: "The class, or its base, has a field or a method of this name: give one of them another.",
        example: "class A { x = 1; y = 2 }",
        ..ANYWHERE
    },
    Row {
        at: &[Name, Is(":")],
        inside: Bracket(b'{'),
        sentence: "The class, or its base, has a field or a method of this name: give one of them another.",
        example: "class A { x: number; y: number }",
        ..ANYWHERE
    },
    Row {
        before: &[Is(",")],
        at: &[Name],
        sentence: "The name is declared twice: give one of them another.",
        example: "let a = 1, b = 2",
        ..ANYWHERE
    },
];

/// Code 12: lines that end with a sign.
pub fn ended() -> &'static [Row] {
    &ENDED
}

static ENDED: [Row; 1] = [Row {
    before: &[Sign, Name, Is("."), Name, Is("(")],
    at: &[Name],
    sentence: "A line that ends with a sign goes on with the next line: take the sign out, or write what is missing after it.",
    example: "let y = x + 1",
    ..ANYWHERE
}];
