// Rows: the first that fits is told.
use around_place::Test::{Is, Like};
use around_place::{ANYWHERE, Row};

/// Code 8: the calls of the board, written otherwise or hidden.
pub fn calls_1() -> &'static [Row] {
    &CALLS_1
}

static CALLS_1: [Row; 7] = [
    Row {
        at: &[Is("basic"), Is("."), Like("pause")],
        sentence: "The call is `basic.pause`, in these capitals and small letters. Where it is written so, a name `basic` of the program hides the board's: give that another.",
        example: "basic.pause(100)",
        ..ANYWHERE
    },
    Row {
        at: &[Is("basic"), Is("."), Like("forever")],
        sentence: "The call is `basic.forever`, in these capitals and small letters. Where it is written so, a name `basic` of the program hides the board's: give that another.",
        example: "basic.forever(function () { })",
        ..ANYWHERE
    },
    Row {
        at: &[Is("basic"), Is("."), Like("showLeds")],
        sentence: "The call is `basic.showLeds`, in these capitals and small letters. Where it is written so, a name `basic` of the program hides the board's: give that another.",
        example: "basic.showLeds(`.#.#. ##### ##### .###. ..#..`)",
        ..ANYWHERE
    },
    Row {
        at: &[Is("basic"), Is("."), Like("showNumber")],
        sentence: "The call is `basic.showNumber`, in these capitals and small letters. Where it is written so, a name `basic` of the program hides the board's: give that another.",
        example: "basic.showNumber(5)",
        ..ANYWHERE
    },
    Row {
        at: &[Is("basic"), Is("."), Like("showString")],
        sentence: "The call is `basic.showString`, in these capitals and small letters. Where it is written so, a name `basic` of the program hides the board's: give that another.",
        example: "basic.showString(\"HELLO\")",
        ..ANYWHERE
    },
    Row {
        at: &[Is("basic"), Is("."), Like("clearScreen")],
        sentence: "The call is `basic.clearScreen`, in these capitals and small letters. Where it is written so, a name `basic` of the program hides the board's: give that another.",
        example: "basic.clearScreen()",
        ..ANYWHERE
    },
    Row {
        at: &[Is("led"), Is("."), Like("plot")],
        sentence: "The call is `led.plot`, in these capitals and small letters. Where it is written so, a name `led` of the program hides the board's: give that another.",
        example: "led.plot(2, 2)",
        ..ANYWHERE
    },
];

/// Code 8: the calls of the board, written otherwise or hidden, part 2.
pub fn calls_2() -> &'static [Row] {
    &CALLS_2
}

static CALLS_2: [Row; 7] = [
    Row {
        at: &[Is("led"), Is("."), Like("unplot")],
        sentence: "The call is `led.unplot`, in these capitals and small letters. Where it is written so, a name `led` of the program hides the board's: give that another.",
        example: "led.unplot(2, 2)",
        ..ANYWHERE
    },
    Row {
        at: &[Is("led"), Is("."), Like("toggle")],
        sentence: "The call is `led.toggle`, in these capitals and small letters. Where it is written so, a name `led` of the program hides the board's: give that another.",
        example: "led.toggle(2, 2)",
        ..ANYWHERE
    },
    Row {
        at: &[Is("input"), Is("."), Like("onButtonPressed")],
        sentence: "The call is `input.onButtonPressed`, in these capitals and small letters. Where it is written so, a name `input` of the program hides the board's: give that another.",
        example: "input.onButtonPressed(Button.A, function () { })",
        ..ANYWHERE
    },
    Row {
        at: &[Is("input"), Is("."), Like("buttonIsPressed")],
        sentence: "The call is `input.buttonIsPressed`, in these capitals and small letters. Where it is written so, a name `input` of the program hides the board's: give that another.",
        example: "if (input.buttonIsPressed(Button.A)) { }",
        ..ANYWHERE
    },
    Row {
        at: &[Is("input"), Is("."), Like("runningTime")],
        sentence: "The call is `input.runningTime`, in these capitals and small letters. Where it is written so, a name `input` of the program hides the board's: give that another.",
        example: "let now = input.runningTime()",
        ..ANYWHERE
    },
    Row {
        at: &[Is("control"), Is("."), Like("inBackground")],
        sentence: "The call is `control.inBackground`, in these capitals and small letters. Where it is written so, a name `control` of the program hides the board's: give that another.",
        example: "control.inBackground(function () { })",
        ..ANYWHERE
    },
    Row {
        at: &[Is("control"), Is("."), Like("onEvent")],
        sentence: "The call is `control.onEvent`, in these capitals and small letters. Where it is written so, a name `control` of the program hides the board's: give that another.",
        example: "control.onEvent(50, 1, function () { })",
        ..ANYWHERE
    },
];

/// Code 8: the calls of the board, written otherwise or hidden, part 3.
pub fn calls_3() -> &'static [Row] {
    &CALLS_3
}

static CALLS_3: [Row; 7] = [
    Row {
        at: &[Is("control"), Is("."), Like("onEventFlags")],
        sentence: "The call is `control.onEventFlags`, in these capitals and small letters. Where it is written so, a name `control` of the program hides the board's: give that another.",
        example: "control.onEventFlags(50, 1, function () { }, EventFlags.DropIfBusy)",
        ..ANYWHERE
    },
    Row {
        at: &[Is("control"), Is("."), Like("raiseEvent")],
        sentence: "The call is `control.raiseEvent`, in these capitals and small letters. Where it is written so, a name `control` of the program hides the board's: give that another.",
        example: "control.raiseEvent(50, 1)",
        ..ANYWHERE
    },
    Row {
        at: &[Is("control"), Is("."), Like("raiseNow")],
        sentence: "The call is `control.raiseNow`, in these capitals and small letters. Where it is written so, a name `control` of the program hides the board's: give that another.",
        example: "control.raiseNow(50, 1)",
        ..ANYWHERE
    },
    Row {
        at: &[Is("control"), Is("."), Like("waitForEvent")],
        sentence: "The call is `control.waitForEvent`, in these capitals and small letters. Where it is written so, a name `control` of the program hides the board's: give that another.",
        example: "control.waitForEvent(50, 1)",
        ..ANYWHERE
    },
    Row {
        at: &[Is("control"), Is("."), Like("eventValue")],
        sentence: "The call is `control.eventValue`, in these capitals and small letters. Where it is written so, a name `control` of the program hides the board's: give that another.",
        example: "let value = control.eventValue()",
        ..ANYWHERE
    },
    Row {
        at: &[Is("control"), Is("."), Like("panic")],
        sentence: "The call is `control.panic`, in these capitals and small letters. Where it is written so, a name `control` of the program hides the board's: give that another.",
        example: "control.panic(5)",
        ..ANYWHERE
    },
    Row {
        at: &[Is("serial"), Is("."), Like("writeNumber")],
        sentence: "The call is `serial.writeNumber`, in these capitals and small letters. Where it is written so, a name `serial` of the program hides the board's: give that another.",
        example: "serial.writeNumber(5)",
        ..ANYWHERE
    },
];

/// Code 8: the calls of the board, written otherwise or hidden, part 4.
pub fn calls_4() -> &'static [Row] {
    &CALLS_4
}

static CALLS_4: [Row; 7] = [
    Row {
        at: &[Is("serial"), Is("."), Like("writeString")],
        sentence: "The call is `serial.writeString`, in these capitals and small letters. Where it is written so, a name `serial` of the program hides the board's: give that another.",
        example: "serial.writeString(\"hello\")",
        ..ANYWHERE
    },
    Row {
        at: &[Is("serial"), Is("."), Like("writeLine")],
        sentence: "The call is `serial.writeLine`, in these capitals and small letters. Where it is written so, a name `serial` of the program hides the board's: give that another.",
        example: "serial.writeLine(\"hello\")",
        ..ANYWHERE
    },
    Row {
        at: &[Is("pins"), Is("."), Like("digitalWritePin")],
        sentence: "The call is `pins.digitalWritePin`, in these capitals and small letters. Where it is written so, a name `pins` of the program hides the board's: give that another.",
        example: "pins.digitalWritePin(DigitalPin.P0, 1)",
        ..ANYWHERE
    },
    Row {
        at: &[Is("radio"), Is("."), Like("sendNumber")],
        sentence: "The call is `radio.sendNumber`, in these capitals and small letters. Where it is written so, a name `radio` of the program hides the board's: give that another.",
        example: "radio.sendNumber(5)",
        ..ANYWHERE
    },
    Row {
        at: &[Is("Math"), Is("."), Like("abs")],
        sentence: "The call is `Math.abs`, in these capitals and small letters. Where it is written so, a name `Math` of the program hides the board's: give that another.",
        example: "let x = Math.abs(-5)",
        ..ANYWHERE
    },
    Row {
        at: &[Is("Math"), Is("."), Like("min")],
        sentence: "The call is `Math.min`, in these capitals and small letters. Where it is written so, a name `Math` of the program hides the board's: give that another.",
        example: "let x = Math.min(1, 2)",
        ..ANYWHERE
    },
    Row {
        at: &[Is("Math"), Is("."), Like("max")],
        sentence: "The call is `Math.max`, in these capitals and small letters. Where it is written so, a name `Math` of the program hides the board's: give that another.",
        example: "let x = Math.max(1, 2)",
        ..ANYWHERE
    },
];

/// Code 8: the calls of the board, written otherwise or hidden, part 5.
pub fn calls_5() -> &'static [Row] {
    &CALLS_5
}

static CALLS_5: [Row; 7] = [
    Row {
        at: &[Like("pause"), Is("(")],
        sentence: "`pause` is one of `basic`: `basic.pause`.",
        example: "basic.pause(100)",
        ..ANYWHERE
    },
    Row {
        at: &[Like("forever"), Is("(")],
        sentence: "`forever` is one of `basic`: `basic.forever`.",
        example: "basic.forever(function () { })",
        ..ANYWHERE
    },
    Row {
        at: &[Like("showLeds"), Is("(")],
        sentence: "`showLeds` is one of `basic`: `basic.showLeds`.",
        example: "basic.showLeds(`.#.#. ##### ##### .###. ..#..`)",
        ..ANYWHERE
    },
    Row {
        at: &[Like("showNumber"), Is("(")],
        sentence: "`showNumber` is one of `basic`: `basic.showNumber`.",
        example: "basic.showNumber(5)",
        ..ANYWHERE
    },
    Row {
        at: &[Like("showString"), Is("(")],
        sentence: "`showString` is one of `basic`: `basic.showString`.",
        example: "basic.showString(\"HELLO\")",
        ..ANYWHERE
    },
    Row {
        at: &[Like("clearScreen"), Is("(")],
        sentence: "`clearScreen` is one of `basic`: `basic.clearScreen`.",
        example: "basic.clearScreen()",
        ..ANYWHERE
    },
    Row {
        at: &[Like("plot"), Is("(")],
        sentence: "`plot` is one of `led`: `led.plot`.",
        example: "led.plot(2, 2)",
        ..ANYWHERE
    },
];

/// Code 8: the calls of the board, written otherwise or hidden, part 6.
pub fn calls_6() -> &'static [Row] {
    &CALLS_6
}

static CALLS_6: [Row; 7] = [
    Row {
        at: &[Like("unplot"), Is("(")],
        sentence: "`unplot` is one of `led`: `led.unplot`.",
        example: "led.unplot(2, 2)",
        ..ANYWHERE
    },
    Row {
        at: &[Like("toggle"), Is("(")],
        sentence: "`toggle` is one of `led`: `led.toggle`.",
        example: "led.toggle(2, 2)",
        ..ANYWHERE
    },
    Row {
        at: &[Like("onButtonPressed"), Is("(")],
        sentence: "`onButtonPressed` is one of `input`: `input.onButtonPressed`.",
        example: "input.onButtonPressed(Button.A, function () { })",
        ..ANYWHERE
    },
    Row {
        at: &[Like("buttonIsPressed"), Is("(")],
        sentence: "`buttonIsPressed` is one of `input`: `input.buttonIsPressed`.",
        example: "if (input.buttonIsPressed(Button.A)) { }",
        ..ANYWHERE
    },
    Row {
        at: &[Like("runningTime"), Is("(")],
        sentence: "`runningTime` is one of `input`: `input.runningTime`.",
        example: "let now = input.runningTime()",
        ..ANYWHERE
    },
    Row {
        at: &[Like("inBackground"), Is("(")],
        sentence: "`inBackground` is one of `control`: `control.inBackground`.",
        example: "control.inBackground(function () { })",
        ..ANYWHERE
    },
    Row {
        at: &[Like("onEvent"), Is("(")],
        sentence: "`onEvent` is one of `control`: `control.onEvent`.",
        example: "control.onEvent(50, 1, function () { })",
        ..ANYWHERE
    },
];

/// Code 8: the calls of the board, written otherwise or hidden, part 7.
pub fn calls_7() -> &'static [Row] {
    &CALLS_7
}

static CALLS_7: [Row; 7] = [
    Row {
        at: &[Like("onEventFlags"), Is("(")],
        sentence: "`onEventFlags` is one of `control`: `control.onEventFlags`.",
        example: "control.onEventFlags(50, 1, function () { }, EventFlags.DropIfBusy)",
        ..ANYWHERE
    },
    Row {
        at: &[Like("raiseEvent"), Is("(")],
        sentence: "`raiseEvent` is one of `control`: `control.raiseEvent`.",
        example: "control.raiseEvent(50, 1)",
        ..ANYWHERE
    },
    Row {
        at: &[Like("raiseNow"), Is("(")],
        sentence: "`raiseNow` is one of `control`: `control.raiseNow`.",
        example: "control.raiseNow(50, 1)",
        ..ANYWHERE
    },
    Row {
        at: &[Like("waitForEvent"), Is("(")],
        sentence: "`waitForEvent` is one of `control`: `control.waitForEvent`.",
        example: "control.waitForEvent(50, 1)",
        ..ANYWHERE
    },
    Row {
        at: &[Like("eventValue"), Is("(")],
        sentence: "`eventValue` is one of `control`: `control.eventValue`.",
        example: "let value = control.eventValue()",
        ..ANYWHERE
    },
    Row {
        at: &[Like("panic"), Is("(")],
        sentence: "`panic` is one of `control`: `control.panic`.",
        example: "control.panic(5)",
        ..ANYWHERE
    },
    Row {
        at: &[Like("writeNumber"), Is("(")],
        sentence: "`writeNumber` is one of `serial`: `serial.writeNumber`.",
        example: "serial.writeNumber(5)",
        ..ANYWHERE
    },
];

/// Code 8: the calls of the board, written otherwise or hidden, part 8.
pub fn calls_8() -> &'static [Row] {
    &CALLS_8
}

static CALLS_8: [Row; 7] = [
    Row {
        at: &[Like("writeString"), Is("(")],
        sentence: "`writeString` is one of `serial`: `serial.writeString`.",
        example: "serial.writeString(\"hello\")",
        ..ANYWHERE
    },
    Row {
        at: &[Like("writeLine"), Is("(")],
        sentence: "`writeLine` is one of `serial`: `serial.writeLine`.",
        example: "serial.writeLine(\"hello\")",
        ..ANYWHERE
    },
    Row {
        at: &[Like("digitalWritePin"), Is("(")],
        sentence: "`digitalWritePin` is one of `pins`: `pins.digitalWritePin`.",
        example: "pins.digitalWritePin(DigitalPin.P0, 1)",
        ..ANYWHERE
    },
    Row {
        at: &[Like("sendNumber"), Is("(")],
        sentence: "`sendNumber` is one of `radio`: `radio.sendNumber`.",
        example: "radio.sendNumber(5)",
        ..ANYWHERE
    },
    Row {
        at: &[Like("abs"), Is("(")],
        sentence: "`abs` is one of `Math`: `Math.abs`.",
        example: "let x = Math.abs(-5)",
        ..ANYWHERE
    },
    Row {
        at: &[Like("min"), Is("(")],
        sentence: "`min` is one of `Math`: `Math.min`.",
        example: "let x = Math.min(1, 2)",
        ..ANYWHERE
    },
    Row {
        at: &[Like("max"), Is("(")],
        sentence: "`max` is one of `Math`: `Math.max`.",
        example: "let x = Math.max(1, 2)",
        ..ANYWHERE
    },
];
