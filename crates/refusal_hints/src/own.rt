// The sentence of each code, as docs/LANGUAGE.md has it, for where no row fits.
ghost use Rattle.std.specs.Prelude.{◌<◌, ◌≤◌};

use around_place::Explanation;

/// The explanation of what is no code, and those of the codes 1 to 7.
static LOW: [Explanation; 8] = [
    Explanation {
        sentence: "This number is no code of a refusal.",
        example: "",
        opened: None,
    },
    Explanation {
        sentence: "The text has more than 65,536 bytes: take comments and blank lines out.",
        example: "",
        opened: None,
    },
    Explanation {
        sentence: "The text is no UTF-8: save the file as UTF-8.",
        example: "",
        opened: None,
    },
    Explanation {
        sentence: "No token begins there, or a `/*` isn't closed: take letters from `A` to `z` for names, `\"` for quotes; close the comment by `*/`.",
        example: "let n = 1",
        opened: None,
    },
    Explanation {
        sentence: "A digit is there, and no number: write a whole number without 0 before it: count in tenths.",
        example: "let n = 15",
        opened: None,
    },
    Explanation {
        sentence: "A text literal is not closed, or has another escape or `${`: close it on its line by the quote that opens it; write several lines in backquotes; write a number beside a text by a call of its own.",
        example: "let t = \"a\"",
        opened: None,
    },
    Explanation {
        sentence: "The text is no program from this word on: see this word and the one before it: a `;`, an operator or a bracket is missing or too many, or it is a form that isn't here, as `switch`.",
        example: "let a = 1; let b = 2",
        opened: None,
    },
    Explanation {
        sentence: "The text has a token at which more than 64 brackets are open: give inner parts names of their own.",
        example: "",
        opened: None,
    },
];

/// Those of the codes 8 to 15.
static HIGH: [Explanation; 8] = [
    Explanation {
        sentence: "A name or member isn't known, or a class is used as a value, `this` is outside a class, or a name begins with `$`: see how the name is written, upper and lower case; declare it before it is used, in this block or outside.",
        example: "let x = 1; serial.writeNumber(x)",
        opened: None,
    },
    Explanation {
        sentence: "A name is there twice: two globals, functions or classes; two parameters; two members or constructors; two locals of a block; a field of the name of a base's member, a method of the name of a base's field: give one of them another name.",
        example: "let a = 1; let b = 2",
        opened: None,
    },
    Explanation {
        sentence: "A handler uses a parameter or local from outside it, or `this` or `super`: make it a global.",
        example: "let v = 5",
        opened: None,
    },
    Explanation {
        sentence: "A type doesn't fit, `[]` is where no type is given, the number of arguments is another, a `const` is set, `super(..)` is missing or elsewhere: see what type the place takes: for a test write a comparison.",
        example: "let a = 1 + 1",
        opened: None,
    },
    Explanation {
        sentence: "A type isn't known: write the type: `let v: string = null`.",
        example: "let v: string = null",
        opened: None,
    },
    Explanation {
        sentence: "A function is used as a value, or a handler has parameters or a value; a call of the board isn't called: give handlers to calls of the board alone.",
        example: "basic.forever(function () { })",
        opened: None,
    },
    Explanation {
        sentence: "A class has itself among its bases: take the circle apart.",
        example: "class B extends A { }",
        opened: None,
    },
    Explanation {
        sentence: "A limit is passed (the place doesn't say where): a function is too long (divide it in two), or the whole text (write a drawing as data), or there are more than 8 parameters with `this`, 64 locals, 256 globals, 64 classes, or 30 fields or 30 methods of a class, or too much text in quotes: see \"Limits\" in docs/LANGUAGE.md.",
        example: "",
        opened: None,
    },
];

fn low(code: u32) -> Explanation
    requires { code < 8 }
{
    LOW[code as usize]
}

fn high(code: u32) -> Explanation
    requires from { 8 ≤ code }
    requires upto { code < 16 }
{
    HIGH[code as usize - 8]
}

/// What a code says by itself.
pub fn own_of(code: u32) -> Explanation {
    match code {
        0..=7 => low(code),
        8..=15 => high(code),
        _ => low(0),
    }
}
