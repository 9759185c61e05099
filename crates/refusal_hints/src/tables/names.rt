// Rows: the first that fits is told.
use around_place::Test::{Any, Is, Like, Name, With};
use around_place::{ANYWHERE, Row};

/// Code 8: names and members that aren't known.
pub fn names_1() -> &'static [Row] {
    &NAMES_1
}

static NAMES_1: [Row; 9] = [
    Row {
        at: &[With(b'$')],
        sentence: "Names that begin with `$` are the library's: choose another.",
        example: "let x = 1",
        ..ANYWHERE
    },
    Row {
        at: &[Is("Button"), Is("."), Is("AB")],
        sentence: "`Button` has A and B only: write two handlers, and ask by `input.buttonIsPressed` for the other button.",
        example: "if (input.buttonIsPressed(Button.B)) { }",
        ..ANYWHERE
    },
    Row {
        at: &[Is("Button"), Is("."), Any],
        sentence: "`Button` has A and B only, in capitals.",
        example: "input.onButtonPressed(Button.A, function () { })",
        ..ANYWHERE
    },
    Row {
        before: &[Is(":")],
        at: &[Is("Button")],
        sentence: "`Button` is no type: a button is a number.",
        example: "let b: number = Button.A",
        ..ANYWHERE
    },
    Row {
        at: &[Is("Button")],
        sentence: "A button is `Button.A` or `Button.B`.",
        example: "input.onButtonPressed(Button.A, function () { })",
        ..ANYWHERE
    },
    Row {
        before: &[Is("onButtonPressed"), Is("(")],
        at: &[Name],
        sentence: "A button is `Button.A` or `Button.B`.",
        example: "input.onButtonPressed(Button.A, function () { })",
        ..ANYWHERE
    },
    Row {
        before: &[Is("buttonIsPressed"), Is("(")],
        at: &[Name],
        sentence: "A button is `Button.A` or `Button.B`.",
        example: "if (input.buttonIsPressed(Button.A)) { }",
        ..ANYWHERE
    },
    Row {
        at: &[Is("DigitalPin"), Is("."), Any],
        sentence: "`DigitalPin` has P0, P1 and P2 only; another pin is its number.",
        example: "pins.digitalWritePin(3, 1)",
        ..ANYWHERE
    },
    Row {
        before: &[Is("digitalWritePin"), Is("(")],
        at: &[Name],
        sentence: "A pin is `DigitalPin.P0`, `DigitalPin.P1`, `DigitalPin.P2`, or a number from 0 to 20.",
        example: "pins.digitalWritePin(DigitalPin.P0, 1)",
        ..ANYWHERE
    },
];

/// Code 8: names and members that aren't known, part 2.
pub fn names_2() -> &'static [Row] {
    &NAMES_2
}

static NAMES_2: [Row; 9] = [
    Row {
        at: &[Is("EventFlags"), Is("."), Any],
        sentence: "`EventFlags` has Reentrant, QueueIfBusy and DropIfBusy.",
        example: "control.onEventFlags(50, 1, function () { }, EventFlags.DropIfBusy)",
        ..ANYWHERE
    },
    Row {
        at: &[Is("EventBusSource")],
        sentence: "Sources are numbers: 1 is button A, 2 is button B; another number is your own.",
        example: "control.onEvent(50, 1, function () { })",
        ..ANYWHERE
    },
    Row {
        at: &[Is("Math"), Is("."), Is("random")],
        sentence: "`Math` has no `random`: nothing is by chance, so that a run can be known beforehand. Step a seed on, and take `(seed >> 16) % 6` of it; the low bits alone repeat.",
        example: "seed = (seed * 1103515245 + 12345) & 0x7fffffff",
        ..ANYWHERE
    },
    Row {
        at: &[Is("Math"), Is("."), Is("randomRange")],
        sentence: "`Math` has no `randomRange`: nothing is by chance, so that a run can be known beforehand. Step a seed on, and take `(seed >> 16) % 6` of it; the low bits alone repeat.",
        example: "seed = (seed * 1103515245 + 12345) & 0x7fffffff",
        ..ANYWHERE
    },
    Row {
        at: &[Is("randint")],
        sentence: "There is no `randint`: nothing is by chance, so that a run can be known beforehand. Step a seed on, and take `(seed >> 16) % 6` of it; the low bits alone repeat.",
        example: "seed = (seed * 1103515245 + 12345) & 0x7fffffff",
        ..ANYWHERE
    },
    Row {
        at: &[Is("Math"), Is("."), Is("floor")],
        sentence: "Numbers are whole, so there is no `Math.floor`: `/` cuts off what is after the point.",
        example: "let x = 7 / 2",
        ..ANYWHERE
    },
    Row {
        at: &[Is("Math"), Is("."), Is("round")],
        sentence: "Numbers are whole, so there is no `Math.round`: for a rounded half add half of the divisor.",
        example: "let x = (7 + 1) / 2",
        ..ANYWHERE
    },
    Row {
        at: &[Is("Math"), Is("."), Is("pow")],
        sentence: "There is no `Math.pow`: multiply, in a loop where it is often.",
        example: "let x = 2 * 2 * 2",
        ..ANYWHERE
    },
    Row {
        at: &[Is("basic"), Is("."), Is("showIcon")],
        sentence: "`basic` has no `showIcon`; use `showLeds` with the picture.",
        example: "basic.showLeds(`.#.#. ##### ##### .###. ..#..`)",
        ..ANYWHERE
    },
];

/// Code 8: names and members that aren't known, part 3.
pub fn names_3() -> &'static [Row] {
    &NAMES_3
}

static NAMES_3: [Row; 10] = [
    Row {
        at: &[Is("basic"), Is("."), Is("showArrow")],
        sentence: "`basic` has no `showArrow`; use `showLeds` with the picture.",
        example: "basic.showLeds(`..#.. .###. #.#.# ..#.. ..#..`)",
        ..ANYWHERE
    },
    Row {
        at: &[Is("basic"), Is("."), Is("plotLeds")],
        sentence: "`basic` has no `plotLeds`; use `showLeds` with the picture.",
        example: "basic.showLeds(`.#.#. ##### ##### .###. ..#..`)",
        ..ANYWHERE
    },
    Row {
        at: &[Is("led"), Is("."), Is("plotBrightness")],
        sentence: "A light is on or off: `led` has no `plotBrightness`; use `plot`.",
        example: "led.plot(2, 2)",
        ..ANYWHERE
    },
    Row {
        at: &[Is("led"), Is("."), Is("setBrightness")],
        sentence: "A light is on or off: `led` has no `setBrightness`.",
        example: "led.plot(2, 2)",
        ..ANYWHERE
    },
    Row {
        at: &[Is("led"), Is("."), Is("point")],
        sentence: "`led` has no `point`: keep in a variable whether a light is on.",
        example: "let lit = true",
        ..ANYWHERE
    },
    Row {
        at: &[Is("input"), Is("."), Is("isPressed")],
        sentence: "`input` has no `isPressed`; use `buttonIsPressed`.",
        example: "if (input.buttonIsPressed(Button.A)) { }",
        ..ANYWHERE
    },
    Row {
        at: &[Is("input"), Is("."), Is("onGesture")],
        sentence: "The board has no sensor for `onGesture`: a script's `raise` is in its place, heard by `control.onEvent`.",
        example: "control.onEvent(50, 1, function () { })",
        ..ANYWHERE
    },
    Row {
        at: &[Is("input"), Is("."), Is("onPinPressed")],
        sentence: "The board has no `onPinPressed`: a script's `raise` is in its place, heard by `control.onEvent`.",
        example: "control.onEvent(50, 1, function () { })",
        ..ANYWHERE
    },
    Row {
        at: &[Is("input"), Is("."), Is("temperature")],
        sentence: "The board has no sensor for `temperature`: a script's `raise` brings a number, given by `control.eventValue`.",
        example: "control.onEvent(50, 0, function () { serial.writeNumber(control.eventValue()) })",
        ..ANYWHERE
    },
    Row {
        at: &[Is("input"), Is("."), Is("lightLevel")],
        sentence: "The board has no sensor for `lightLevel`: a script's `raise` brings a number, given by `control.eventValue`.",
        example: "control.onEvent(50, 0, function () { serial.writeNumber(control.eventValue()) })",
        ..ANYWHERE
    },
];

/// Code 8: names and members that aren't known, part 4.
pub fn names_4() -> &'static [Row] {
    &NAMES_4
}

static NAMES_4: [Row; 9] = [
    Row {
        at: &[Is("input"), Is("."), Is("acceleration")],
        sentence: "The board has no sensor for `acceleration`: a script's `raise` brings a number, given by `control.eventValue`.",
        example: "control.onEvent(50, 0, function () { serial.writeNumber(control.eventValue()) })",
        ..ANYWHERE
    },
    Row {
        at: &[Is("radio"), Is("."), Is("onReceivedNumber")],
        sentence: "`radio` has no `onReceivedNumber`: what others send is an event of source 200, given by `control.eventValue`.",
        example: "control.onEvent(200, 0, function () { serial.writeNumber(control.eventValue()) })",
        ..ANYWHERE
    },
    Row {
        at: &[Is("radio"), Is("."), Is("setGroup")],
        sentence: "There is one radio: `radio` has no `setGroup`.",
        example: "radio.sendNumber(5)",
        ..ANYWHERE
    },
    Row {
        at: &[Is("radio"), Is("."), Is("sendString")],
        sentence: "`radio` sends numbers alone: it has no `sendString`; use `sendNumber`.",
        example: "radio.sendNumber(5)",
        ..ANYWHERE
    },
    Row {
        at: &[Is("serial"), Is("."), Is("writeValue")],
        sentence: "`serial` has no `writeValue`; write the text and the number by a call each.",
        example: "serial.writeString(\"x = \"); serial.writeNumber(x)",
        ..ANYWHERE
    },
    Row {
        at: &[Is("serial"), Is("."), Is("println")],
        sentence: "`serial` has no `println`; use `writeLine` for a text, `writeNumber` for a number.",
        example: "serial.writeLine(\"x\")",
        ..ANYWHERE
    },
    Row {
        at: &[Is("serial"), Is("."), Is("print")],
        sentence: "`serial` has no `print`; use `writeString` for a text, `writeNumber` for a number.",
        example: "serial.writeString(\"x\")",
        ..ANYWHERE
    },
    Row {
        at: &[Is("pins"), Is("."), Is("digitalReadPin")],
        sentence: "Pins are only set: `pins` has no `digitalReadPin`.",
        example: "pins.digitalWritePin(DigitalPin.P0, 1)",
        ..ANYWHERE
    },
    Row {
        at: &[Is("pins"), Is("."), Is("analogWritePin")],
        sentence: "A pin is high or low: `pins` has no `analogWritePin`; use `digitalWritePin`.",
        example: "pins.digitalWritePin(DigitalPin.P0, 1)",
        ..ANYWHERE
    },
];

/// Code 8: names and members that aren't known, part 5.
pub fn names_5() -> &'static [Row] {
    &NAMES_5
}

static NAMES_5: [Row; 10] = [
    Row {
        at: &[Is("pins"), Is("."), Is("analogReadPin")],
        sentence: "Pins are only set: `pins` has no `analogReadPin`.",
        example: "pins.digitalWritePin(DigitalPin.P0, 1)",
        ..ANYWHERE
    },
    Row {
        at: &[Is("control"), Is("."), Is("reset")],
        sentence: "`control` has no `reset`: set the variables again, or end the run by `panic`.",
        example: "control.panic(1)",
        ..ANYWHERE
    },
    Row {
        at: &[Is("control"), Is("."), Is("waitMicros")],
        sentence: "`control` has no `waitMicros`: times are milliseconds, by `basic.pause`.",
        example: "basic.pause(1)",
        ..ANYWHERE
    },
    Row {
        at: &[Is("loops"), Is("."), Is("pause")],
        sentence: "There is no `loops`: `pause` is one of `basic`.",
        example: "basic.pause(100)",
        ..ANYWHERE
    },
    Row {
        at: &[Is("loops"), Is("."), Is("everyInterval")],
        sentence: "There is no `loops`: write `basic.forever` with a pause at the end of the handler.",
        example: "basic.forever(function () { basic.pause(500) })",
        ..ANYWHERE
    },
    Row {
        at: &[Is("music")],
        sentence: "The board makes no sound: there is no `music`.",
        example: "",
        ..ANYWHERE
    },
    Row {
        at: &[Is("game")],
        sentence: "There is no `game`: keep the sprite's column and row in variables.",
        example: "led.plot(x, y)",
        ..ANYWHERE
    },
    Row {
        at: &[Is("images")],
        sentence: "There is no `images`: use `basic.showLeds` with the picture.",
        example: "basic.showLeds(`.#.#. ##### ##### .###. ..#..`)",
        ..ANYWHERE
    },
    Row {
        at: &[Is("console"), Is("."), Is("log")],
        sentence: "There is no `console`: the serial line takes a text by `serial.writeLine`.",
        example: "serial.writeLine(\"hello\")",
        ..ANYWHERE
    },
    Row {
        at: &[Is("print"), Is("(")],
        sentence: "There is no `print`: the serial line takes a text by `serial.writeLine`.",
        example: "serial.writeLine(\"hello\")",
        ..ANYWHERE
    },
];

/// Code 8: names and members that aren't known, part 6.
pub fn names_6() -> &'static [Row] {
    &NAMES_6
}

static NAMES_6: [Row; 10] = [
    Row {
        before: &[Is("if"), Is("(")],
        at: &[Name, Is("=")],
        sentence: "`=` sets; equal is written `==`. And the name isn't known: declare it by `let` before.",
        example: "if (a == 3) { }",
        ..ANYWHERE
    },
    Row {
        at: &[Is("alert"), Is("(")],
        sentence: "There is no `alert`: the display shows a text by `basic.showString`.",
        example: "basic.showString(\"HELLO\")",
        ..ANYWHERE
    },
    Row {
        at: &[Is("sleep"), Is("(")],
        sentence: "There is no `sleep`: waiting is `basic.pause`, in milliseconds.",
        example: "basic.pause(500)",
        ..ANYWHERE
    },
    Row {
        at: &[Is("setInterval"), Is("(")],
        sentence: "There is no `setInterval`: write `basic.forever` with a pause at the end of the handler.",
        example: "basic.forever(function () { basic.pause(500) })",
        ..ANYWHERE
    },
    Row {
        at: &[Is("setTimeout"), Is("(")],
        sentence: "There is no `setTimeout`: write `control.inBackground` with a pause at the beginning of the handler.",
        example: "control.inBackground(function () { basic.pause(500) })",
        ..ANYWHERE
    },
    Row {
        at: &[Is("parseInt"), Is("(")],
        sentence: "Texts aren't made into numbers: there is no `parseInt`.",
        example: "let n = 5",
        ..ANYWHERE
    },
    Row {
        at: &[Is("String"), Is("(")],
        sentence: "Numbers aren't made into texts: show or write the number itself.",
        example: "basic.showNumber(n)",
        ..ANYWHERE
    },
    Row {
        at: &[Is("str"), Is("(")],
        sentence: "Numbers aren't made into texts: show or write the number itself.",
        example: "basic.showNumber(n)",
        ..ANYWHERE
    },
    Row {
        at: &[Is("Number"), Is("(")],
        sentence: "Texts aren't made into numbers: there is no `Number`.",
        example: "let n = 5",
        ..ANYWHERE
    },
    Row {
        at: &[Is("len"), Is("(")],
        sentence: "There is no `len`: a list's length is its member `length`.",
        example: "serial.writeNumber(a.length)",
        ..ANYWHERE
    },
];

/// Code 8: names and members that aren't known, part 7.
pub fn names_7() -> &'static [Row] {
    &NAMES_7
}

static NAMES_7: [Row; 10] = [
    Row {
        before: &[Is(":")],
        at: &[Is("int")],
        sentence: "The type of whole numbers is `number`.",
        example: "let x: number = 5",
        ..ANYWHERE
    },
    Row {
        before: &[Is(":")],
        at: &[Is("Number")],
        sentence: "The type of numbers is `number`, in small letters.",
        example: "let x: number = 5",
        ..ANYWHERE
    },
    Row {
        before: &[Is(":")],
        at: &[Is("float")],
        sentence: "Numbers are whole, and their type is `number`.",
        example: "let x: number = 5",
        ..ANYWHERE
    },
    Row {
        before: &[Is(":")],
        at: &[Is("bool")],
        sentence: "The type of `true` and `false` is `boolean`.",
        example: "let x: boolean = true",
        ..ANYWHERE
    },
    Row {
        before: &[Is(":")],
        at: &[Is("Boolean")],
        sentence: "The type of `true` and `false` is `boolean`, in small letters.",
        example: "let x: boolean = true",
        ..ANYWHERE
    },
    Row {
        before: &[Is(":")],
        at: &[Is("String")],
        sentence: "The type of texts is `string`, in small letters.",
        example: "let s: string = \"a\"",
        ..ANYWHERE
    },
    Row {
        before: &[Is(":")],
        at: &[Is("str")],
        sentence: "The type of texts is `string`.",
        example: "let s: string = \"a\"",
        ..ANYWHERE
    },
    Row {
        before: &[Is(":")],
        at: &[Is("any")],
        sentence: "Each name has one type, so there is no `any`.",
        example: "let x: number = 5",
        ..ANYWHERE
    },
    Row {
        before: &[Is(":")],
        at: &[Is("array")],
        sentence: "A list's type is written with `[]` after that of its items.",
        example: "let a: number[] = []",
        ..ANYWHERE
    },
    Row {
        before: &[Is(":")],
        at: &[Is("Array")],
        sentence: "A list's type is written with `[]` after that of its items.",
        example: "let a: number[] = []",
        ..ANYWHERE
    },
];

/// Code 8: names and members that aren't known, part 8.
pub fn names_8() -> &'static [Row] {
    &NAMES_8
}

static NAMES_8: [Row; 9] = [
    Row {
        before: &[Is(":")],
        at: &[Name],
        sentence: "No class of this name is here. The types are `number`, `boolean`, `string`, classes, and each with `[]`.",
        example: "let x: number = 5",
        ..ANYWHERE
    },
    Row {
        at: &[Is("True")],
        sentence: "`true` is written in small letters.",
        example: "let a = true",
        ..ANYWHERE
    },
    Row {
        at: &[Is("False")],
        sentence: "`false` is written in small letters.",
        example: "let a = false",
        ..ANYWHERE
    },
    Row {
        at: &[Is("TRUE")],
        sentence: "`true` is written in small letters.",
        example: "let a = true",
        ..ANYWHERE
    },
    Row {
        at: &[Is("FALSE")],
        sentence: "`false` is written in small letters.",
        example: "let a = false",
        ..ANYWHERE
    },
    Row {
        at: &[Is("None")],
        sentence: "Nothing is called `null`.",
        example: "let p: string = null",
        ..ANYWHERE
    },
    Row {
        at: &[Is("undefined")],
        sentence: "Nothing is called `null`.",
        example: "let p: string = null",
        ..ANYWHERE
    },
    Row {
        at: &[Is("self")],
        sentence: "An object itself is `this`, in its class's methods.",
        example: "this.x = 2",
        ..ANYWHERE
    },
    Row {
        at: &[Is("this")],
        sentence: "`this` is in a class's methods and in its constructor alone.",
        example: "class A { x = 1; f(): void { this.x = 2 } }",
        ..ANYWHERE
    },
];

/// Code 8: names and members that aren't known, part 9.
pub fn names_9() -> &'static [Row] {
    &NAMES_9
}

static NAMES_9: [Row; 10] = [
    Row {
        at: &[Is("super")],
        sentence: "`super` is in a class with a base alone.",
        example: "class B extends A { f(): void { super.f() } }",
        ..ANYWHERE
    },
    Row {
        before: &[Is("new")],
        at: &[Is("Array")],
        sentence: "A list is made by `[]`, and items are put into it by `push`.",
        example: "let a: number[] = []",
        ..ANYWHERE
    },
    Row {
        at: &[Is("new"), Is("Array")],
        sentence: "A list is made by `[]`, and items are put into it by `push`.",
        example: "let a: number[] = []",
        ..ANYWHERE
    },
    Row {
        at: &[Is("new"), Name],
        sentence: "No class of this name is here: see upper and lower case, or write the class.",
        example: "class Foo { }",
        ..ANYWHERE
    },
    Row {
        before: &[Is("extends")],
        at: &[Name],
        sentence: "No class of this name is here: see upper and lower case, or write the class.",
        example: "class A { }",
        ..ANYWHERE
    },
    Row {
        at: &[Like("basic"), Is("."), Any],
        sentence: "`basic` has pause, forever, showLeds, showNumber, showString and clearScreen.",
        example: "basic.showString(\"HELLO\")",
        ..ANYWHERE
    },
    Row {
        at: &[Like("led"), Is("."), Any],
        sentence: "`led` has plot, unplot and toggle.",
        example: "led.plot(2, 2)",
        ..ANYWHERE
    },
    Row {
        at: &[Like("input"), Is("."), Any],
        sentence: "`input` has onButtonPressed, buttonIsPressed and runningTime.",
        example: "input.onButtonPressed(Button.A, function () { })",
        ..ANYWHERE
    },
    Row {
        at: &[Like("control"), Is("."), Any],
        sentence: "`control` has inBackground, onEvent, onEventFlags, raiseEvent, raiseNow, waitForEvent, eventValue and panic.",
        example: "control.inBackground(function () { })",
        ..ANYWHERE
    },
    Row {
        at: &[Like("serial"), Is("."), Any],
        sentence: "`serial` has writeNumber, writeString and writeLine.",
        example: "serial.writeLine(\"hello\")",
        ..ANYWHERE
    },
];

/// Code 8: names and members that aren't known, part 10.
pub fn names_10() -> &'static [Row] {
    &NAMES_10
}

static NAMES_10: [Row; 10] = [
    Row {
        before: &[Is("while"), Is("(")],
        at: &[Name, Is("=")],
        sentence: "`=` sets; equal is written `==`. And the name isn't known: declare it by `let` before.",
        example: "while (a == 3) { }",
        ..ANYWHERE
    },
    Row {
        at: &[Like("pins"), Is("."), Any],
        sentence: "`pins` has digitalWritePin.",
        example: "pins.digitalWritePin(DigitalPin.P0, 1)",
        ..ANYWHERE
    },
    Row {
        at: &[Like("radio"), Is("."), Any],
        sentence: "`radio` has sendNumber.",
        example: "radio.sendNumber(5)",
        ..ANYWHERE
    },
    Row {
        at: &[Like("Math"), Is("."), Any],
        sentence: "`Math` has abs, min and max.",
        example: "let x = Math.abs(-5)",
        ..ANYWHERE
    },
    Row {
        at: &[Name, Is("."), Is("add"), Is("(")],
        sentence: "A list has no `add`: an item is put after its last one by `push`.",
        example: "a.push(2)",
        ..ANYWHERE
    },
    Row {
        at: &[Name, Is("."), Is("append"), Is("(")],
        sentence: "A list has no `append`: an item is put after its last one by `push`.",
        example: "a.push(2)",
        ..ANYWHERE
    },
    Row {
        at: &[Name, Is("."), Is("size")],
        sentence: "A list's length is its member `length`.",
        example: "serial.writeNumber(a.length)",
        ..ANYWHERE
    },
    Row {
        at: &[Name, Is("."), Is("length")],
        sentence: "The length of a list can be asked, that of a text can't.",
        example: "serial.writeNumber(a.length)",
        ..ANYWHERE
    },
    Row {
        at: &[Name, Is("."), Is("push")],
        sentence: "Only a list has `push`.",
        example: "let a: number[] = []",
        ..ANYWHERE
    },
    Row {
        at: &[Name, Is("."), Is("toString")],
        sentence: "Numbers aren't made into texts: show or write the number itself.",
        example: "basic.showNumber(n)",
        ..ANYWHERE
    },
];

/// Code 8: names and members that aren't known, part 11.
pub fn names_11() -> &'static [Row] {
    &NAMES_11
}

static NAMES_11: [Row; 10] = [
    Row {
        at: &[Name, Is("."), Is("charAt")],
        sentence: "A text is shown and written as a whole: its letters can't be asked.",
        example: "basic.showString(\"HELLO\")",
        ..ANYWHERE
    },
    Row {
        before: &[Is("showString"), Is("(")],
        at: &[Name],
        sentence: "A text is in quotes: without them it is a name, and none is known that is written so.",
        example: "basic.showString(\"HELLO\")",
        ..ANYWHERE
    },
    Row {
        before: &[Is("writeString"), Is("(")],
        at: &[Name],
        sentence: "A text is in quotes: without them it is a name, and none is known that is written so.",
        example: "serial.writeString(\"hello\")",
        ..ANYWHERE
    },
    Row {
        before: &[Is("writeLine"), Is("(")],
        at: &[Name],
        sentence: "A text is in quotes: without them it is a name, and none is known that is written so.",
        example: "serial.writeLine(\"hello\")",
        ..ANYWHERE
    },
    Row {
        before: &[Is("for"), Is("(")],
        at: &[Name, Is("=")],
        sentence: "What `for` counts is declared by `let`.",
        example: "for (let i = 0; i < 5; i++) { }",
        ..ANYWHERE
    },
    Row {
        before: &[Is("."), Name, Is("(")],
        at: &[Name, Is("=")],
        sentence: "An argument has no name: write the values alone, in their order.",
        example: "led.plot(1, 2)",
        ..ANYWHERE
    },
    Row {
        at: &[Name, Is("=")],
        sentence: "A name is declared by `let` before it is set; in a method a field is `this.x`; see also upper and lower case.",
        example: "let x = 5",
        ..ANYWHERE
    },
    Row {
        at: &[Name, Is("(")],
        sentence: "No function of this name is here: see upper and lower case, and whether a class's name wants `new`. A method is called by `this`.",
        example: "function foo(): void { }",
        ..ANYWHERE
    },
    Row {
        at: &[Name, Is("."), Any],
        sentence: "Such a member isn't here, or the name before the dot isn't known: see upper and lower case. If that is a class, make an object of it by `new`.",
        example: "",
        ..ANYWHERE
    },
    Row {
        at: &[Name],
        sentence: "No name is known that is written so: see upper and lower case, and declare it by `let`, in this block or outside; in a method a field is `this.x`.",
        example: "let x = 5",
        ..ANYWHERE
    },
];
