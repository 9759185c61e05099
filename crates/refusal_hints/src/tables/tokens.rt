// Rows: the first that fits is told.
use around_place::Test::{Foreign, Is, Name, Number, Open, Text, With};
use around_place::{ANYWHERE, Row};

/// Code 3: no token begins there.
pub fn characters_1() -> &'static [Row] {
    &CHARACTERS_1
}

static CHARACTERS_1: [Row; 10] = [
    Row {
        at: &[Is("“")],
        sentence: "A text is in straight quotes, `\"` or `'`: the curved ones of a word processor are no quotes.",
        example: "basic.showString(\"HELLO\")",
        ..ANYWHERE
    },
    Row {
        at: &[Is("”")],
        sentence: "A text is in straight quotes, `\"` or `'`: the curved ones of a word processor are no quotes.",
        example: "basic.showString(\"HELLO\")",
        ..ANYWHERE
    },
    Row {
        at: &[Is("„")],
        sentence: "A text is in straight quotes, `\"` or `'`: the curved ones of a word processor are no quotes.",
        example: "basic.showString(\"HELLO\")",
        ..ANYWHERE
    },
    Row {
        at: &[Is("‘")],
        sentence: "A text is in straight quotes, `\"` or `'`: the curved ones of a word processor are no quotes.",
        example: "basic.showString(\"HELLO\")",
        ..ANYWHERE
    },
    Row {
        at: &[Is("’")],
        sentence: "A text is in straight quotes, `\"` or `'`: the curved ones of a word processor are no quotes.",
        example: "basic.showString(\"HELLO\")",
        ..ANYWHERE
    },
    Row {
        at: &[Is("–")],
        sentence: "A minus is the sign `-` of the keyboard, not the longer dash of a word processor.",
        example: "let x = 5 - 3",
        ..ANYWHERE
    },
    Row {
        at: &[Is("—")],
        sentence: "A minus is the sign `-` of the keyboard, not the longer dash of a word processor.",
        example: "let x = 5 - 3",
        ..ANYWHERE
    },
    Row {
        at: &[Is("−")],
        sentence: "A minus is the sign `-` of the keyboard, not the longer dash of a word processor.",
        example: "let x = 5 - 3",
        ..ANYWHERE
    },
    Row {
        at: &[Is("×")],
        sentence: "Times is written `*`.",
        example: "let x = 5 * 3",
        ..ANYWHERE
    },
    Row {
        at: &[Is("÷")],
        sentence: "Divided by is written `/`; what is after the point is cut off.",
        example: "let x = 7 / 2",
        ..ANYWHERE
    },
];

/// Code 3: no token begins there, part 2.
pub fn characters_2() -> &'static [Row] {
    &CHARACTERS_2
}

static CHARACTERS_2: [Row; 9] = [
    Row {
        at: &[Is("≤")],
        sentence: "At most is written `<=`.",
        example: "if (x <= 3) { }",
        ..ANYWHERE
    },
    Row {
        at: &[Is("≥")],
        sentence: "At least is written `>=`.",
        example: "if (x >= 3) { }",
        ..ANYWHERE
    },
    Row {
        at: &[Is("≠")],
        sentence: "Not equal is written `!=`.",
        example: "if (x != 3) { }",
        ..ANYWHERE
    },
    Row {
        at: &[Is("\u{a0}")],
        sentence: "A space is there that isn't the plain one, as web pages have them: write a plain one in its place.",
        example: "",
        ..ANYWHERE
    },
    Row {
        at: &[Foreign],
        sentence: "Names have letters from `A` to `Z` and `a` to `z`, digits, `_` and `$` alone. Other letters and signs are in texts and comments only.",
        example: "let groesse = 5",
        ..ANYWHERE
    },
    Row {
        at: &[Is("#")],
        sentence: "A comment begins with `//`.",
        example: "let x = 5 // a comment",
        ..ANYWHERE
    },
    Row {
        at: &[Is("@")],
        sentence: "`@` isn't part of this language: take it out.",
        example: "",
        ..ANYWHERE
    },
    Row {
        at: &[Is("\\")],
        sentence: "A backslash is in texts alone. Divided by is written `/`.",
        example: "let x = 7 / 2",
        ..ANYWHERE
    },
    Row {
        at: &[With(b'*')],
        sentence: "The comment that begins here isn't closed: close it by `*/`, or begin each of its lines with `//`.",
        example: "/* a comment */",
        ..ANYWHERE
    },
];

/// Code 4: no number stands there.
pub fn numbers() -> &'static [Row] {
    &NUMBERS
}

static NUMBERS: [Row; 10] = [
    Row {
        before: &[Is("pause"), Is("(")],
        at: &[Number, Is(".")],
        sentence: "Times are whole milliseconds: half a second is 500.",
        example: "basic.pause(500)",
        ..ANYWHERE
    },
    Row {
        at: &[Number, Is(".")],
        sentence: "Numbers are whole: count in tenths, so that 1.5 is 15.",
        example: "let tenths = 15",
        ..ANYWHERE
    },
    Row {
        before: &[Is("let")],
        at: &[Number],
        sentence: "A name begins with a letter, `_` or `$`, not with a digit.",
        example: "let second = 5",
        ..ANYWHERE
    },
    Row {
        before: &[Is("const")],
        at: &[Number],
        sentence: "A name begins with a letter, `_` or `$`, not with a digit.",
        example: "const second = 5",
        ..ANYWHERE
    },
    Row {
        before: &[Is("function")],
        at: &[Number],
        sentence: "A name begins with a letter, `_` or `$`, not with a digit.",
        example: "function second(): void { }",
        ..ANYWHERE
    },
    Row {
        at: &[With(b'_')],
        sentence: "A number has no `_` in it: write its digits alone.",
        example: "let x = 1000",
        ..ANYWHERE
    },
    Row {
        at: &[With(b'x')],
        sentence: "A number is digits alone: times is written `*`. One that begins with `0x` goes on with digits from `0` to `9` and `A` to `F`, and is at most `0xFFFFFFFF`.",
        example: "let x = 0xFF",
        ..ANYWHERE
    },
    Row {
        at: &[With(b'b')],
        sentence: "There are no numbers in base 2: write it in base 10, or after `0x` in base 16.",
        example: "let x = 5",
        ..ANYWHERE
    },
    Row {
        at: &[With(b'e')],
        sentence: "A number is written with all its digits, without `e`.",
        example: "let x = 1000",
        ..ANYWHERE
    },
    Row {
        at: &[Number],
        sentence: "A number is at most 4294967295, and is written without a 0 before it and without letters after it.",
        example: "let x = 15",
        ..ANYWHERE
    },
];

/// Code 5: no text in quotes stands there.
pub fn texts() -> &'static [Row] {
    &TEXTS
}

static TEXTS: [Row; 5] = [
    Row {
        at: &[With(b'$')],
        sentence: "`${ }` isn't here, since texts can't be joined: write the text and the number by a call each.",
        example: "serial.writeString(\"x = \"); serial.writeNumber(x)",
        ..ANYWHERE
    },
    Row {
        before: &[Is("showLeds"), Is("(")],
        at: &[Open],
        sentence: "A picture of several lines is in backquotes, ` at its beginning and at its end, not in `\"` or `'`.",
        example: "",
        ..ANYWHERE
    },
    Row {
        before: &[Text, Name],
        at: &[Open],
        sentence: "The quote within the text closes it. Put the text into the other quotes.",
        example: "let s = \"it's\"",
        ..ANYWHERE
    },
    Row {
        at: &[Open],
        sentence: "The text isn't closed: close it on its line by the same quote that opened it.",
        example: "basic.showString(\"HELLO\")",
        ..ANYWHERE
    },
    Row {
        at: &[With(b'\\')],
        sentence: "After a backslash in a text comes `n`, `r`, `t`, a backslash or a quote. For a backslash itself write two.",
        example: "let s = \"a\\\\b\"",
        ..ANYWHERE
    },
];
