// What is said of lines.

/// A row of the table: of a line that tells something with this beginning and this end, and signs of numbers between, this is said.
pub struct Note {
    pub begins: &'static str,
    pub ends: &'static str,
    pub says: &'static str,
}

/// What is said of lines: of several rows that fit, the first holds. The sentences are those of docs/TEACHERS.md, docs/LANGUAGE.md and docs/FORMATS.md.
pub const NOTES: [Note; 56] = [
    Note {
        begins: "end ",
        ends: " quiet",
        says: "nothing is left to do",
    },
    Note {
        begins: "end ",
        ends: " script",
        says: "the script's end was reached while something still went on: to see more, give the script a later `end`",
    },
    Note {
        begins: "panic ",
        ends: " 20",
        says: "no memory for a new object or array. Nothing is given back: make fewer: reuse an array, don't make objects in a loop",
    },
    Note {
        begins: "panic ",
        ends: " 101",
        says: "a 25th activity: main, `inBackground`, `forever`, and each handler that pauses: start fewer at once; let handlers end",
    },
    Note {
        begins: "panic ",
        ends: " 102",
        says: "calls are too deep, mostly a function that calls itself without end: see that the recursion ends, or write a loop",
    },
    Note {
        begins: "panic ",
        ends: " 103",
        says: "a 33rd `onEvent` or `onButtonPressed`, often one in a loop: register handlers once, outside loops",
    },
    Note {
        begins: "panic ",
        ends: " 104",
        says: "an index below 0 or not below the length, or `pop` of an empty array: compare with `length` first",
    },
    Note {
        begins: "panic ",
        ends: " 105",
        says: "something is used that is `null`: make it with `new`, a list by `= []` and a text by `= \"\"`, before it is used; test `!= null`",
    },
    Note {
        begins: "panic ",
        ends: " 106",
        says: "`raiseNow` within `raiseNow`, 32 deep: use `raiseEvent`",
    },
    Note {
        begins: "panic ",
        ends: "",
        says: "the program's own `control.panic(n)`, n modulo 256",
    },
    Note {
        begins: "budget ",
        ends: "",
        says: "the program wasn't done: either a loop never waits, as `while (true) { }`: put a `basic.pause` into it; or it computes long: give `--budget` more",
    },
    Note {
        begins: "fault ",
        ends: "",
        says: "the image did what no program of this language does: the HEX file is from elsewhere",
    },
    Note {
        begins: "left out ",
        ends: "",
        says: "lines of this moment are left out: `bin/view --all` shows them. A loop that never waits writes so many: put a `basic.pause` into it",
    },
    Note {
        begins: "the rest is left out",
        ends: "",
        says: "there are more than 64 MB: a loop that writes doesn't end, or writes long texts",
    },
    Note {
        begins: "pin ",
        ends: " 0",
        says: "the pin goes low",
    },
    Note {
        begins: "pin ",
        ends: " 1",
        says: "the pin goes high",
    },
    Note {
        begins: "accepted",
        ends: "",
        says: "the text is a program",
    },
    Note {
        begins: "refused 1 ",
        ends: "",
        says: "the text has more than 65,536 bytes: take comments and blank lines out",
    },
    Note {
        begins: "refused 2 ",
        ends: "",
        says: "the text is no UTF-8: save the file as UTF-8",
    },
    Note {
        begins: "refused 5 ",
        ends: "",
        says: "a text literal is not closed, or has another escape or `${`: close it on its line by the quote that opens it; write several lines in backquotes; write a number beside a text by a call of its own",
    },
    Note {
        begins: "refused 4 ",
        ends: "",
        says: "a digit is there, and no number: write a whole number without 0 before it: count in tenths",
    },
    Note {
        begins: "refused 3 ",
        ends: "",
        says: "no token begins there, or a `/*` isn't closed: take letters from `A` to `z` for names, `\"` for quotes; close the comment by `*/`",
    },
    Note {
        begins: "refused 7 ",
        ends: "",
        says: "the text has a token at which more than 64 brackets are open. A closing bracket closes the latest that is open, of whatever kind, and does nothing where none is: give inner parts names of their own",
    },
    Note {
        begins: "refused 6 ",
        ends: "",
        says: "the text is no program from this word on: see this word and the one before it: a `;`, an operator or a bracket is missing or too many, or it is a form that isn't here, as `switch`",
    },
    Note {
        begins: "refused 8 ",
        ends: "",
        says: "a name or member isn't known, or a class is used as a value, `this` is outside a class, or a name begins with `$`: see how the name is written, upper and lower case; declare it before it is used, in this block or outside",
    },
    Note {
        begins: "refused 9 ",
        ends: "",
        says: "a name is there twice: two globals, functions or classes; two parameters; two members or constructors; two locals of a block; a field of the name of a base's member, a method of the name of a base's field: give one of them another name",
    },
    Note {
        begins: "refused 10 ",
        ends: "",
        says: "a handler uses a parameter or local from outside it, or `this` or `super`: make it a global",
    },
    Note {
        begins: "refused 11 ",
        ends: "",
        says: "a type doesn't fit, `[]` is where no type is given, the number of arguments is another, a `const` is set, `super(..)` is missing or elsewhere: see what type the place takes: for a test write a comparison",
    },
    Note {
        begins: "refused 12 ",
        ends: "",
        says: "a type isn't known: write the type: `let v: string = null`",
    },
    Note {
        begins: "refused 13 ",
        ends: "",
        says: "a function is used as a value, or a handler has parameters or a value; a call of the board isn't called: give handlers to calls of the board alone",
    },
    Note {
        begins: "refused 14 ",
        ends: "",
        says: "a class has itself among its bases: take the circle apart",
    },
    Note {
        begins: "refused 15 ",
        ends: "",
        says: "a limit is passed (the place doesn't say where): a function is too long (divide it in two), or the whole text (write a drawing as data), or there are more than 8 parameters with `this`, 64 locals, 256 globals, 64 classes, or 30 fields or 30 methods of a class, or too much text in quotes: see \"Limits\" in docs/LANGUAGE.md",
    },
    Note {
        begins: "script refused 1",
        ends: "",
        says: "the script: the bytes are no UTF-8, or no JSON",
    },
    Note {
        begins: "script refused 2",
        ends: "",
        says: "the script: the JSON hasn't the form of docs/FORMATS.md, but for the order of time and the number of entries",
    },
    Note {
        begins: "script refused 3",
        ends: "",
        says: "the script: some `at` is below the one before",
    },
    Note {
        begins: "script refused 4",
        ends: "",
        says: "the script: some `at` is above `end`",
    },
    Note {
        begins: "script refused 5",
        ends: "",
        says: "the script: there are more than 4096 entries",
    },
    Note {
        begins: "arrivals refused 1",
        ends: "",
        says: "the arrivals: the bytes are no UTF-8, or no JSON",
    },
    Note {
        begins: "arrivals refused 2",
        ends: "",
        says: "the arrivals: the JSON hasn't the form of docs/FORMATS.md, but for order and number",
    },
    Note {
        begins: "arrivals refused 3",
        ends: "",
        says: "the arrivals: some `after` is below the one before",
    },
    Note {
        begins: "arrivals refused 4",
        ends: "",
        says: "the arrivals: there are more than 4096 arrivals",
    },
    Note {
        begins: "class refused 1",
        ends: "",
        says: "the class file: the bytes are no UTF-8, or no JSON",
    },
    Note {
        begins: "class refused 2",
        ends: "",
        says: "the class file: the JSON hasn't the form of docs/FORMATS.md, but for the numbers of boards and losses",
    },
    Note {
        begins: "class refused 3",
        ends: "",
        says: "the class file: there are no boards, more than 8, or more than 4096 losses",
    },
    Note {
        begins: "class refused 4",
        ends: "",
        says: "the class file: a board's script has another `end` than the class",
    },
    Note {
        begins: "image refused 1",
        ends: "",
        says: "the HEX file breaks a rule: a line has the colon, hexadecimal digits, an even number of them, and as many bytes as it says",
    },
    Note {
        begins: "image refused 2",
        ends: "",
        says: "the HEX file breaks a rule: the bytes of a line add up to 0 modulo 256",
    },
    Note {
        begins: "image refused 3",
        ends: "",
        says: "the HEX file breaks a rule: a type is at most 05",
    },
    Note {
        begins: "image refused 4",
        ends: "",
        says: "the HEX file breaks a rule: no data byte stands at an address that was given before",
    },
    Note {
        begins: "image refused 5",
        ends: "",
        says: "the HEX file breaks a rule: each data byte stands below 262,144",
    },
    Note {
        begins: "image refused 6",
        ends: "",
        says: "the HEX file breaks a rule: the text has an end record; tried behind the last line",
    },
    Note {
        begins: "image refused 7",
        ends: "",
        says: "the HEX file breaks a rule: nothing but empty lines follows the end record",
    },
    Note {
        begins: "usage",
        ends: "",
        says: "the words aren't a command: see the commands in the README",
    },
    Note {
        begins: "missing",
        ends: "",
        says: "there is no such file: look for each that is named from the folder where you type (`ls`)",
    },
    Note {
        begins: "too long",
        ends: "",
        says: "it has more than 1,048,576 bytes",
    },
    Note {
        begins: "folder failed",
        ends: "",
        says: "it couldn't be read",
    },
];
