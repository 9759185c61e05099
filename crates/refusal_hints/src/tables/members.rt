// Rows: the first that fits is told.
use around_place::Inside::Nothing;
use around_place::Test::{Is, Name, Text};
use around_place::{ANYWHERE, Row};

/// Code 3: what C writes.
pub fn includes() -> &'static [Row] {
    &INCLUDES
}

static INCLUDES: [Row; 2] = [
    Row {
        at: &[Is("#"), Is("include")],
        sentence: "Nothing is included: the board's calls are known by themselves.",
        example: "basic.showNumber(5)",
        ..ANYWHERE
    },
    Row {
        at: &[Is("#"), Is("define")],
        sentence: "Nothing is imported or defined so: a value gets a name by `const`.",
        example: "const MOST = 5",
        ..ANYWHERE
    },
];

/// Code 8: what lists, texts and objects don't have.
pub fn members_1() -> &'static [Row] {
    &MEMBERS_1
}

static MEMBERS_1: [Row; 10] = [
    Row {
        at: &[Is("pins"), Is("."), Is("map")],
        sentence: "`map` isn't here: multiply first, then divide.",
        example: "let y = x * 4 / 1023",
        ..ANYWHERE
    },
    Row {
        at: &[Is("this")],
        inside: Nothing,
        sentence: "`this` is an object within its class alone.",
        example: "class A { x = 1; f(): void { this.x = 2 } }",
        ..ANYWHERE
    },
    Row {
        at: &[Is("this"), Is("."), Name],
        sentence: "The class has no such field or method: declare it in the class, outside its methods, as `age: number`. Outside a class there is no `this`.",
        example: "class P { age: number; constructor() { this.age = 1 } }",
        ..ANYWHERE
    },
    Row {
        at: &[Is("convertToText")],
        sentence: "There is no `convertToText`: a number is shown by `basic.showNumber` and written by `serial.writeNumber`.",
        example: "basic.showNumber(n)",
        ..ANYWHERE
    },
    Row {
        at: &[Name, Is("."), Is("forEach")],
        sentence: "A list has `push`, `pop` and `length` alone: there is no `forEach`; go through it by `for (let x of a)`.",
        example: "for (let x of a) { basic.showNumber(x) }",
        ..ANYWHERE
    },
    Row {
        at: &[Name, Is("."), Is("map")],
        sentence: "A list has `push`, `pop` and `length` alone: there is no `map`; go through it by `for (let x of a)`.",
        example: "for (let x of a) { b.push(x + 1) }",
        ..ANYWHERE
    },
    Row {
        at: &[Name, Is("."), Is("filter")],
        sentence: "A list has `push`, `pop` and `length` alone: there is no `filter`; go through it by `for (let x of a)`.",
        example: "for (let x of a) { if (x > 1) { b.push(x) } }",
        ..ANYWHERE
    },
    Row {
        at: &[Name, Is("."), Is("reduce")],
        sentence: "A list has `push`, `pop` and `length` alone: there is no `reduce`; go through it by `for (let x of a)`.",
        example: "for (let x of a) { sum += x }",
        ..ANYWHERE
    },
    Row {
        at: &[Name, Is("."), Is("sort")],
        sentence: "A list has `push`, `pop` and `length` alone: there is no `sort`; exchange two items that are in the wrong order, until none is.",
        example: "if (a[i] > a[i + 1]) { let t = a[i]; a[i] = a[i + 1]; a[i + 1] = t }",
        ..ANYWHERE
    },
    Row {
        at: &[Name, Is("."), Is("indexOf")],
        sentence: "A list has `push`, `pop` and `length` alone: there is no `indexOf`; go through it by `for (let x of a)`.",
        example: "for (let i = 0; i < a.length; i++) { if (a[i] == 2) { at = i } }",
        ..ANYWHERE
    },
];

/// Code 8: what lists, texts and objects don't have, part 2.
pub fn members_2() -> &'static [Row] {
    &MEMBERS_2
}

static MEMBERS_2: [Row; 10] = [
    Row {
        at: &[Name, Is("."), Is("includes")],
        sentence: "A list has `push`, `pop` and `length` alone: there is no `includes`; go through it by `for (let x of a)`.",
        example: "for (let x of a) { if (x == 3) { found = true } }",
        ..ANYWHERE
    },
    Row {
        at: &[Name, Is("."), Is("find")],
        sentence: "A list has `push`, `pop` and `length` alone: there is no `find`; go through it by `for (let x of a)`.",
        example: "for (let x of a) { if (x == 3) { found = true } }",
        ..ANYWHERE
    },
    Row {
        at: &[Name, Is("."), Is("join")],
        sentence: "A list has `push`, `pop` and `length` alone: there is no `join`; go through it by `for (let x of a)`.",
        example: "for (let x of a) { serial.writeNumber(x) }",
        ..ANYWHERE
    },
    Row {
        at: &[Name, Is("."), Is("reverse")],
        sentence: "A list has `push`, `pop` and `length` alone: there is no `reverse`; go through it from its end.",
        example: "for (let i = a.length - 1; i >= 0; i--) { b.push(a[i]) }",
        ..ANYWHERE
    },
    Row {
        at: &[Name, Is("."), Is("slice")],
        sentence: "A list has `push`, `pop` and `length` alone: there is no `slice`; put the items that you want into another list.",
        example: "for (let i = 1; i < a.length; i++) { b.push(a[i]) }",
        ..ANYWHERE
    },
    Row {
        at: &[Name, Is("."), Is("splice")],
        sentence: "A list has `push`, `pop` and `length` alone: there is no `splice`; put the items that stay into another list.",
        example: "for (let x of a) { if (x != 2) { b.push(x) } }",
        ..ANYWHERE
    },
    Row {
        at: &[Name, Is("."), Is("concat")],
        sentence: "A list has `push`, `pop` and `length` alone: there is no `concat`; push the items of the second one by one.",
        example: "for (let x of b) { a.push(x) }",
        ..ANYWHERE
    },
    Row {
        at: &[Name, Is("."), Is("shift")],
        sentence: "A list has `push`, `pop` and `length` alone: there is no `shift`; `pop` takes the last item.",
        example: "let last = a.pop()",
        ..ANYWHERE
    },
    Row {
        at: &[Name, Is("."), Is("unshift")],
        sentence: "A list has `push`, `pop` and `length` alone: there is no `unshift`; `push` puts an item after the last one.",
        example: "a.push(2)",
        ..ANYWHERE
    },
    Row {
        at: &[Name, Is("."), Is("insertAt")],
        sentence: "A list has `push`, `pop` and `length` alone: there is no `insertAt`; `push` puts an item after the last one.",
        example: "a.push(2)",
        ..ANYWHERE
    },
];

/// Code 8: what lists, texts and objects don't have, part 3.
pub fn members_3() -> &'static [Row] {
    &MEMBERS_3
}

static MEMBERS_3: [Row; 6] = [
    Row {
        at: &[Name, Is("."), Is("removeAt")],
        sentence: "A list has `push`, `pop` and `length` alone: there is no `removeAt`; `pop` takes the last item.",
        example: "a.pop()",
        ..ANYWHERE
    },
    Row {
        at: &[Text, Is("."), Is("length")],
        sentence: "A text is shown and written as a whole: it has no `length`, and its letters can't be asked.",
        example: "basic.showString(\"HELLO\")",
        ..ANYWHERE
    },
    Row {
        at: &[Text, Is(".")],
        sentence: "A text is shown and written as a whole: it has no members.",
        example: "basic.showString(\"HELLO\")",
        ..ANYWHERE
    },
    Row {
        at: &[Name, Is("."), Is("substr")],
        sentence: "A text is shown and written as a whole: it has no `substr`.",
        example: "basic.showString(\"HELLO\")",
        ..ANYWHERE
    },
    Row {
        at: &[Name, Is("."), Is("split")],
        sentence: "A text is shown and written as a whole: it has no `split`.",
        example: "basic.showString(\"HELLO\")",
        ..ANYWHERE
    },
    Row {
        at: &[Name, Is("."), Is("toUpperCase")],
        sentence: "A text is shown and written as a whole: it has no `toUpperCase`.",
        example: "basic.showString(\"HELLO\")",
        ..ANYWHERE
    },
];
