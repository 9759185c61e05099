// Rows: the first that fits is told.
use around_place::Test::{Any, Is};
use around_place::{ANYWHERE, Row};

/// Code 11: what the calls of the board take.
pub fn takes_1() -> &'static [Row] {
    &TAKES_1
}

static TAKES_1: [Row; 10] = [
    Row {
        at: &[
            Is("input"),
            Is("."),
            Is("buttonIsPressed"),
            Is("("),
            Is("Button"),
            Is("."),
            Any,
            Is(")"),
            Is("=="),
        ],
        sentence: "`input.buttonIsPressed` gives true or false, so it is a test by itself.",
        example: "if (input.buttonIsPressed(Button.A)) { }",
        ..ANYWHERE
    },
    Row {
        at: &[
            Is("input"),
            Is("."),
            Is("runningTime"),
            Is("("),
            Is(")"),
            Is("+"),
        ],
        sentence: "`+` adds numbers; texts can't be joined. Write the parts by a call each.",
        example: "serial.writeNumber(input.runningTime()); serial.writeString(\" ms\")",
        ..ANYWHERE
    },
    Row {
        at: &[Is("basic"), Is("."), Is("pause"), Is("(")],
        sentence: "`basic.pause` takes a number of milliseconds.",
        example: "basic.pause(100)",
        ..ANYWHERE
    },
    Row {
        at: &[Is("basic"), Is("."), Is("forever"), Is("(")],
        sentence: "`basic.forever` takes a handler, and nothing else.",
        example: "basic.forever(function () { })",
        ..ANYWHERE
    },
    Row {
        at: &[Is("basic"), Is("."), Is("showLeds"), Is("(")],
        sentence: "`basic.showLeds` takes a picture that is written there: 25 signs `#` and `.`, and white space between them.",
        example: "basic.showLeds(`.#.#. ##### ##### .###. ..#..`)",
        ..ANYWHERE
    },
    Row {
        at: &[Is("basic"), Is("."), Is("showNumber"), Is("(")],
        sentence: "`basic.showNumber` takes a number; a text is shown by `basic.showString`.",
        example: "basic.showNumber(5)",
        ..ANYWHERE
    },
    Row {
        at: &[Is("basic"), Is("."), Is("showString"), Is("(")],
        sentence: "`basic.showString` takes a text; a number is shown by `basic.showNumber`.",
        example: "basic.showString(\"HELLO\")",
        ..ANYWHERE
    },
    Row {
        at: &[Is("basic"), Is("."), Is("clearScreen"), Is("(")],
        sentence: "`basic.clearScreen` takes nothing.",
        example: "basic.clearScreen()",
        ..ANYWHERE
    },
    Row {
        at: &[Is("led"), Is("."), Is("plot"), Is("(")],
        sentence: "`led.plot` takes two numbers, the column and the row.",
        example: "led.plot(2, 2)",
        ..ANYWHERE
    },
    Row {
        at: &[Is("led"), Is("."), Is("unplot"), Is("(")],
        sentence: "`led.unplot` takes two numbers, the column and the row.",
        example: "led.unplot(2, 2)",
        ..ANYWHERE
    },
];

/// Code 11: what the calls of the board take, part 2.
pub fn takes_2() -> &'static [Row] {
    &TAKES_2
}

static TAKES_2: [Row; 10] = [
    Row {
        at: &[Is("led"), Is("."), Is("toggle"), Is("(")],
        sentence: "`led.toggle` takes two numbers, the column and the row.",
        example: "led.toggle(2, 2)",
        ..ANYWHERE
    },
    Row {
        at: &[Is("input"), Is("."), Is("onButtonPressed"), Is("(")],
        sentence: "`input.onButtonPressed` takes a button and a handler.",
        example: "input.onButtonPressed(Button.A, function () { })",
        ..ANYWHERE
    },
    Row {
        at: &[Is("input"), Is("."), Is("buttonIsPressed"), Is("(")],
        sentence: "`input.buttonIsPressed` takes a button.",
        example: "if (input.buttonIsPressed(Button.A)) { }",
        ..ANYWHERE
    },
    Row {
        at: &[Is("input"), Is("."), Is("runningTime"), Is("(")],
        sentence: "`input.runningTime` takes nothing.",
        example: "let now = input.runningTime()",
        ..ANYWHERE
    },
    Row {
        at: &[Is("control"), Is("."), Is("inBackground"), Is("(")],
        sentence: "`control.inBackground` takes a handler, and nothing else.",
        example: "control.inBackground(function () { })",
        ..ANYWHERE
    },
    Row {
        at: &[Is("control"), Is("."), Is("onEvent"), Is("(")],
        sentence: "`control.onEvent` takes two numbers, a source and a value, and a handler.",
        example: "control.onEvent(50, 1, function () { })",
        ..ANYWHERE
    },
    Row {
        at: &[Is("control"), Is("."), Is("onEventFlags"), Is("(")],
        sentence: "`control.onEventFlags` takes two numbers, a source and a value, a handler, and flags.",
        example: "control.onEventFlags(50, 1, function () { }, EventFlags.DropIfBusy)",
        ..ANYWHERE
    },
    Row {
        at: &[Is("control"), Is("."), Is("raiseEvent"), Is("(")],
        sentence: "`control.raiseEvent` takes two numbers, a source and a value.",
        example: "control.raiseEvent(50, 1)",
        ..ANYWHERE
    },
    Row {
        at: &[Is("control"), Is("."), Is("raiseNow"), Is("(")],
        sentence: "`control.raiseNow` takes two numbers, a source and a value.",
        example: "control.raiseNow(50, 1)",
        ..ANYWHERE
    },
    Row {
        at: &[Is("control"), Is("."), Is("waitForEvent"), Is("(")],
        sentence: "`control.waitForEvent` takes two numbers, a source and a value.",
        example: "control.waitForEvent(50, 1)",
        ..ANYWHERE
    },
];

/// Code 11: what the calls of the board take, part 3.
pub fn takes_3() -> &'static [Row] {
    &TAKES_3
}

static TAKES_3: [Row; 10] = [
    Row {
        at: &[Is("control"), Is("."), Is("eventValue"), Is("(")],
        sentence: "`control.eventValue` takes nothing.",
        example: "let value = control.eventValue()",
        ..ANYWHERE
    },
    Row {
        at: &[Is("control"), Is("."), Is("panic"), Is("(")],
        sentence: "`control.panic` takes a number.",
        example: "control.panic(5)",
        ..ANYWHERE
    },
    Row {
        at: &[Is("serial"), Is("."), Is("writeNumber"), Is("(")],
        sentence: "`serial.writeNumber` takes a number; a text is written by `serial.writeString`.",
        example: "serial.writeNumber(5)",
        ..ANYWHERE
    },
    Row {
        at: &[Is("serial"), Is("."), Is("writeString"), Is("(")],
        sentence: "`serial.writeString` takes a text; a number is written by `serial.writeNumber`.",
        example: "serial.writeString(\"hello\")",
        ..ANYWHERE
    },
    Row {
        at: &[Is("serial"), Is("."), Is("writeLine"), Is("(")],
        sentence: "`serial.writeLine` takes a text; a number is written by `serial.writeNumber`.",
        example: "serial.writeLine(\"hello\")",
        ..ANYWHERE
    },
    Row {
        at: &[Is("pins"), Is("."), Is("digitalWritePin"), Is("(")],
        sentence: "`pins.digitalWritePin` takes two numbers, the pin and 0 or 1.",
        example: "pins.digitalWritePin(DigitalPin.P0, 1)",
        ..ANYWHERE
    },
    Row {
        at: &[Is("radio"), Is("."), Is("sendNumber"), Is("(")],
        sentence: "`radio.sendNumber` takes a number.",
        example: "radio.sendNumber(5)",
        ..ANYWHERE
    },
    Row {
        at: &[Is("Math"), Is("."), Is("abs"), Is("(")],
        sentence: "`Math.abs` takes a number.",
        example: "let x = Math.abs(-5)",
        ..ANYWHERE
    },
    Row {
        at: &[Is("Math"), Is("."), Is("min"), Is("(")],
        sentence: "`Math.min` takes two numbers.",
        example: "let x = Math.min(1, 2)",
        ..ANYWHERE
    },
    Row {
        at: &[Is("Math"), Is("."), Is("max"), Is("(")],
        sentence: "`Math.max` takes two numbers.",
        example: "let x = Math.max(1, 2)",
        ..ANYWHERE
    },
];
