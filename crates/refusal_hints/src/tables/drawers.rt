// Rows: the first that fits is told.
use around_place::Test::Is;
use around_place::{ANYWHERE, Row};

/// Code 8: the pictures that have names elsewhere.
pub fn pictures_1() -> &'static [Row] {
    &PICTURES_1
}

static PICTURES_1: [Row; 10] = [
    Row {
        at: &[
            Is("basic"),
            Is("."),
            Is("showIcon"),
            Is("("),
            Is("IconNames"),
            Is("."),
            Is("Heart"),
        ],
        sentence: "`basic` has no `showIcon`: this picture is shown by `basic.showLeds`.",
        example: "basic.showLeds(`.#.#. ##### ##### .###. ..#..`)",
        ..ANYWHERE
    },
    Row {
        at: &[
            Is("basic"),
            Is("."),
            Is("showIcon"),
            Is("("),
            Is("IconNames"),
            Is("."),
            Is("SmallHeart"),
        ],
        sentence: "`basic` has no `showIcon`: this picture is shown by `basic.showLeds`.",
        example: "basic.showLeds(`..... .#.#. .###. ..#.. .....`)",
        ..ANYWHERE
    },
    Row {
        at: &[
            Is("basic"),
            Is("."),
            Is("showIcon"),
            Is("("),
            Is("IconNames"),
            Is("."),
            Is("Yes"),
        ],
        sentence: "`basic` has no `showIcon`: this picture is shown by `basic.showLeds`.",
        example: "basic.showLeds(`..... ....# ...#. #.#.. .#...`)",
        ..ANYWHERE
    },
    Row {
        at: &[
            Is("basic"),
            Is("."),
            Is("showIcon"),
            Is("("),
            Is("IconNames"),
            Is("."),
            Is("No"),
        ],
        sentence: "`basic` has no `showIcon`: this picture is shown by `basic.showLeds`.",
        example: "basic.showLeds(`#...# .#.#. ..#.. .#.#. #...#`)",
        ..ANYWHERE
    },
    Row {
        at: &[
            Is("basic"),
            Is("."),
            Is("showIcon"),
            Is("("),
            Is("IconNames"),
            Is("."),
            Is("Happy"),
        ],
        sentence: "`basic` has no `showIcon`: this picture is shown by `basic.showLeds`.",
        example: "basic.showLeds(`..... .#.#. ..... #...# .###.`)",
        ..ANYWHERE
    },
    Row {
        at: &[
            Is("basic"),
            Is("."),
            Is("showIcon"),
            Is("("),
            Is("IconNames"),
            Is("."),
            Is("Sad"),
        ],
        sentence: "`basic` has no `showIcon`: this picture is shown by `basic.showLeds`.",
        example: "basic.showLeds(`..... .#.#. ..... .###. #...#`)",
        ..ANYWHERE
    },
    Row {
        at: &[
            Is("basic"),
            Is("."),
            Is("showIcon"),
            Is("("),
            Is("IconNames"),
            Is("."),
            Is("Confused"),
        ],
        sentence: "`basic` has no `showIcon`: this picture is shown by `basic.showLeds`.",
        example: "basic.showLeds(`..... .#.#. ..... .#.#. #.#.#`)",
        ..ANYWHERE
    },
    Row {
        at: &[
            Is("basic"),
            Is("."),
            Is("showIcon"),
            Is("("),
            Is("IconNames"),
            Is("."),
            Is("Angry"),
        ],
        sentence: "`basic` has no `showIcon`: this picture is shown by `basic.showLeds`.",
        example: "basic.showLeds(`#...# .#.#. ..... ##### #.#.#`)",
        ..ANYWHERE
    },
    Row {
        at: &[
            Is("basic"),
            Is("."),
            Is("showIcon"),
            Is("("),
            Is("IconNames"),
            Is("."),
            Is("Asleep"),
        ],
        sentence: "`basic` has no `showIcon`: this picture is shown by `basic.showLeds`.",
        example: "basic.showLeds(`..... ##.## ..... .###. .....`)",
        ..ANYWHERE
    },
    Row {
        at: &[
            Is("basic"),
            Is("."),
            Is("showIcon"),
            Is("("),
            Is("IconNames"),
            Is("."),
            Is("Surprised"),
        ],
        sentence: "`basic` has no `showIcon`: this picture is shown by `basic.showLeds`.",
        example: "basic.showLeds(`.#.#. ..... ..#.. .#.#. ..#..`)",
        ..ANYWHERE
    },
];

/// Code 8: the pictures that have names elsewhere, part 2.
pub fn pictures_2() -> &'static [Row] {
    &PICTURES_2
}

static PICTURES_2: [Row; 10] = [
    Row {
        at: &[
            Is("basic"),
            Is("."),
            Is("showIcon"),
            Is("("),
            Is("IconNames"),
            Is("."),
            Is("House"),
        ],
        sentence: "`basic` has no `showIcon`: this picture is shown by `basic.showLeds`.",
        example: "basic.showLeds(`..#.. .###. ##### .###. .#.#.`)",
        ..ANYWHERE
    },
    Row {
        at: &[
            Is("basic"),
            Is("."),
            Is("showIcon"),
            Is("("),
            Is("IconNames"),
            Is("."),
            Is("Ghost"),
        ],
        sentence: "`basic` has no `showIcon`: this picture is shown by `basic.showLeds`.",
        example: "basic.showLeds(`.###. #.#.# ##### ##### #.#.#`)",
        ..ANYWHERE
    },
    Row {
        at: &[
            Is("basic"),
            Is("."),
            Is("showIcon"),
            Is("("),
            Is("IconNames"),
            Is("."),
            Is("Skull"),
        ],
        sentence: "`basic` has no `showIcon`: this picture is shown by `basic.showLeds`.",
        example: "basic.showLeds(`.###. #.#.# ##### .###. .###.`)",
        ..ANYWHERE
    },
    Row {
        at: &[
            Is("basic"),
            Is("."),
            Is("showIcon"),
            Is("("),
            Is("IconNames"),
            Is("."),
            Is("Duck"),
        ],
        sentence: "`basic` has no `showIcon`: this picture is shown by `basic.showLeds`.",
        example: "basic.showLeds(`.##.. ###.. .#### .###. .....`)",
        ..ANYWHERE
    },
    Row {
        at: &[
            Is("basic"),
            Is("."),
            Is("showIcon"),
            Is("("),
            Is("IconNames"),
            Is("."),
            Is("StickFigure"),
        ],
        sentence: "`basic` has no `showIcon`: this picture is shown by `basic.showLeds`.",
        example: "basic.showLeds(`..#.. ##### ..#.. .#.#. #...#`)",
        ..ANYWHERE
    },
    Row {
        at: &[
            Is("basic"),
            Is("."),
            Is("showIcon"),
            Is("("),
            Is("IconNames"),
            Is("."),
            Is("Diamond"),
        ],
        sentence: "`basic` has no `showIcon`: this picture is shown by `basic.showLeds`.",
        example: "basic.showLeds(`..#.. .#.#. #...# .#.#. ..#..`)",
        ..ANYWHERE
    },
    Row {
        at: &[
            Is("basic"),
            Is("."),
            Is("showIcon"),
            Is("("),
            Is("IconNames"),
            Is("."),
            Is("Square"),
        ],
        sentence: "`basic` has no `showIcon`: this picture is shown by `basic.showLeds`.",
        example: "basic.showLeds(`##### #...# #...# #...# #####`)",
        ..ANYWHERE
    },
    Row {
        at: &[
            Is("basic"),
            Is("."),
            Is("showIcon"),
            Is("("),
            Is("IconNames"),
            Is("."),
            Is("SmallSquare"),
        ],
        sentence: "`basic` has no `showIcon`: this picture is shown by `basic.showLeds`.",
        example: "basic.showLeds(`..... .###. .#.#. .###. .....`)",
        ..ANYWHERE
    },
    Row {
        at: &[
            Is("basic"),
            Is("."),
            Is("showIcon"),
            Is("("),
            Is("IconNames"),
            Is("."),
            Is("SmallDiamond"),
        ],
        sentence: "`basic` has no `showIcon`: this picture is shown by `basic.showLeds`.",
        example: "basic.showLeds(`..... ..#.. .#.#. ..#.. .....`)",
        ..ANYWHERE
    },
    Row {
        at: &[
            Is("basic"),
            Is("."),
            Is("showIcon"),
            Is("("),
            Is("IconNames"),
            Is("."),
            Is("Umbrella"),
        ],
        sentence: "`basic` has no `showIcon`: this picture is shown by `basic.showLeds`.",
        example: "basic.showLeds(`.###. ##### ..#.. #.#.. .##..`)",
        ..ANYWHERE
    },
];

/// Code 8: the pictures that have names elsewhere, part 3.
pub fn pictures_3() -> &'static [Row] {
    &PICTURES_3
}

static PICTURES_3: [Row; 8] = [
    Row {
        at: &[
            Is("basic"),
            Is("."),
            Is("showArrow"),
            Is("("),
            Is("ArrowNames"),
            Is("."),
            Is("North"),
        ],
        sentence: "`basic` has no `showArrow`: this picture is shown by `basic.showLeds`.",
        example: "basic.showLeds(`..#.. .###. #.#.# ..#.. ..#..`)",
        ..ANYWHERE
    },
    Row {
        at: &[
            Is("basic"),
            Is("."),
            Is("showArrow"),
            Is("("),
            Is("ArrowNames"),
            Is("."),
            Is("NorthEast"),
        ],
        sentence: "`basic` has no `showArrow`: this picture is shown by `basic.showLeds`.",
        example: "basic.showLeds(`..### ...## ..#.# .#... #....`)",
        ..ANYWHERE
    },
    Row {
        at: &[
            Is("basic"),
            Is("."),
            Is("showArrow"),
            Is("("),
            Is("ArrowNames"),
            Is("."),
            Is("East"),
        ],
        sentence: "`basic` has no `showArrow`: this picture is shown by `basic.showLeds`.",
        example: "basic.showLeds(`..#.. ...#. ##### ...#. ..#..`)",
        ..ANYWHERE
    },
    Row {
        at: &[
            Is("basic"),
            Is("."),
            Is("showArrow"),
            Is("("),
            Is("ArrowNames"),
            Is("."),
            Is("SouthEast"),
        ],
        sentence: "`basic` has no `showArrow`: this picture is shown by `basic.showLeds`.",
        example: "basic.showLeds(`#.... .#... ..#.# ...## ..###`)",
        ..ANYWHERE
    },
    Row {
        at: &[
            Is("basic"),
            Is("."),
            Is("showArrow"),
            Is("("),
            Is("ArrowNames"),
            Is("."),
            Is("South"),
        ],
        sentence: "`basic` has no `showArrow`: this picture is shown by `basic.showLeds`.",
        example: "basic.showLeds(`..#.. ..#.. #.#.# .###. ..#..`)",
        ..ANYWHERE
    },
    Row {
        at: &[
            Is("basic"),
            Is("."),
            Is("showArrow"),
            Is("("),
            Is("ArrowNames"),
            Is("."),
            Is("SouthWest"),
        ],
        sentence: "`basic` has no `showArrow`: this picture is shown by `basic.showLeds`.",
        example: "basic.showLeds(`....# ...#. #.#.. ##... ###..`)",
        ..ANYWHERE
    },
    Row {
        at: &[
            Is("basic"),
            Is("."),
            Is("showArrow"),
            Is("("),
            Is("ArrowNames"),
            Is("."),
            Is("West"),
        ],
        sentence: "`basic` has no `showArrow`: this picture is shown by `basic.showLeds`.",
        example: "basic.showLeds(`..#.. .#... ##### .#... ..#..`)",
        ..ANYWHERE
    },
    Row {
        at: &[
            Is("basic"),
            Is("."),
            Is("showArrow"),
            Is("("),
            Is("ArrowNames"),
            Is("."),
            Is("NorthWest"),
        ],
        sentence: "`basic` has no `showArrow`: this picture is shown by `basic.showLeds`.",
        example: "basic.showLeds(`###.. ##... #.#.. ...#. ....#`)",
        ..ANYWHERE
    },
];

/// Code 8: what other boards have.
pub fn drawers_1() -> &'static [Row] {
    &DRAWERS_1
}

static DRAWERS_1: [Row; 10] = [
    Row {
        at: &[Is("led"), Is("."), Is("plotBarGraph")],
        sentence: "`led` has no `plotBarGraph`: plot a column of lights in a loop.",
        example: "for (let y = 4; y > 4 - level; y--) { led.plot(2, y) }",
        ..ANYWHERE
    },
    Row {
        at: &[Is("led"), Is("."), Is("plotAll")],
        sentence: "`led` has no `plotAll`: show all lights by `basic.showLeds`.",
        example: "basic.showLeds(`##### ##### ##### ##### #####`)",
        ..ANYWHERE
    },
    Row {
        at: &[Is("led"), Is("."), Is("brightness")],
        sentence: "A light is on or off: `led` has no `brightness`.",
        example: "led.plot(2, 2)",
        ..ANYWHERE
    },
    Row {
        at: &[Is("led"), Is("."), Is("stopAnimation")],
        sentence: "`led` has no `stopAnimation`: a text is shown to its end. `basic.clearScreen` puts all lights out.",
        example: "basic.clearScreen()",
        ..ANYWHERE
    },
    Row {
        at: &[Is("led"), Is("."), Is("enable")],
        sentence: "`led` has no `enable`: `basic.clearScreen` puts all lights out.",
        example: "basic.clearScreen()",
        ..ANYWHERE
    },
    Row {
        at: &[Is("radio"), Is("."), Is("onReceivedNumber")],
        sentence: "`radio` has no `onReceivedNumber`: what others send is an event of source 200, and `control.eventValue` gives the number.",
        example: "control.onEvent(200, 0, function () { basic.showNumber(control.eventValue()) })",
        ..ANYWHERE
    },
    Row {
        at: &[Is("radio"), Is("."), Is("onReceivedString")],
        sentence: "`radio` sends numbers alone: it has no `onReceivedString`. Give each text a number; it comes as an event of source 200.",
        example: "control.onEvent(200, 0, function () { basic.showNumber(control.eventValue()) })",
        ..ANYWHERE
    },
    Row {
        at: &[Is("radio"), Is("."), Is("onReceivedValue")],
        sentence: "`radio` sends one number alone: it has no `onReceivedValue`. It comes as an event of source 200.",
        example: "control.onEvent(200, 0, function () { basic.showNumber(control.eventValue()) })",
        ..ANYWHERE
    },
    Row {
        at: &[Is("radio"), Is("."), Is("sendString")],
        sentence: "`radio` sends numbers alone: it has no `sendString`; use `sendNumber`, with a number for each text.",
        example: "radio.sendNumber(1)",
        ..ANYWHERE
    },
    Row {
        at: &[Is("radio"), Is("."), Is("sendValue")],
        sentence: "`radio` sends one number alone: it has no `sendValue`; use `sendNumber`.",
        example: "radio.sendNumber(5)",
        ..ANYWHERE
    },
];

/// Code 8: what other boards have, part 2.
pub fn drawers_2() -> &'static [Row] {
    &DRAWERS_2
}

static DRAWERS_2: [Row; 10] = [
    Row {
        at: &[Is("radio"), Is("."), Is("setTransmitPower")],
        sentence: "There is one radio, as strong everywhere: `radio` has no `setTransmitPower`.",
        example: "radio.sendNumber(5)",
        ..ANYWHERE
    },
    Row {
        at: &[Is("input"), Is("."), Is("onGesture")],
        sentence: "The board feels no gestures: it has no `onGesture`. A script's `raise` is in its place, heard by `control.onEvent`.",
        example: "control.onEvent(50, 1, function () { })",
        ..ANYWHERE
    },
    Row {
        at: &[Is("input"), Is("."), Is("isGesture")],
        sentence: "The board feels no gestures: it has no `isGesture`. A script's `raise` is in its place, heard by `control.onEvent`.",
        example: "control.onEvent(50, 1, function () { })",
        ..ANYWHERE
    },
    Row {
        at: &[Is("input"), Is("."), Is("compassHeading")],
        sentence: "The board has no sensor for `compassHeading`: a script's `raise` brings a number, given by `control.eventValue`.",
        example: "control.onEvent(50, 0, function () { serial.writeNumber(control.eventValue()) })",
        ..ANYWHERE
    },
    Row {
        at: &[Is("input"), Is("."), Is("rotation")],
        sentence: "The board has no sensor for `rotation`: a script's `raise` brings a number, given by `control.eventValue`.",
        example: "control.onEvent(50, 0, function () { serial.writeNumber(control.eventValue()) })",
        ..ANYWHERE
    },
    Row {
        at: &[Is("input"), Is("."), Is("soundLevel")],
        sentence: "The board has no sensor for `soundLevel`: a script's `raise` brings a number, given by `control.eventValue`.",
        example: "control.onEvent(50, 0, function () { serial.writeNumber(control.eventValue()) })",
        ..ANYWHERE
    },
    Row {
        at: &[Is("input"), Is("."), Is("magneticForce")],
        sentence: "The board has no sensor for `magneticForce`: a script's `raise` brings a number, given by `control.eventValue`.",
        example: "control.onEvent(50, 0, function () { serial.writeNumber(control.eventValue()) })",
        ..ANYWHERE
    },
    Row {
        at: &[Is("input"), Is("."), Is("onLogoEvent")],
        sentence: "The board has two buttons, A and B, and no logo to touch: use `input.onButtonPressed`.",
        example: "input.onButtonPressed(Button.A, function () { })",
        ..ANYWHERE
    },
    Row {
        at: &[Is("input"), Is("."), Is("pinIsPressed")],
        sentence: "Pins are only set: `input` has no `pinIsPressed`; use `buttonIsPressed`.",
        example: "if (input.buttonIsPressed(Button.A)) { }",
        ..ANYWHERE
    },
    Row {
        at: &[Is("input"), Is("."), Is("runningTimeMicros")],
        sentence: "`input` has no `runningTimeMicros`: times are milliseconds, by `runningTime`.",
        example: "let now = input.runningTime()",
        ..ANYWHERE
    },
];

/// Code 8: what other boards have, part 3.
pub fn drawers_3() -> &'static [Row] {
    &DRAWERS_3
}

static DRAWERS_3: [Row; 10] = [
    Row {
        at: &[Is("Math"), Is("."), Is("randomBoolean")],
        sentence: "`Math` has no `randomBoolean`: nothing is by chance, so that a run can be known beforehand. Step a seed on, and ask whether `(seed >> 16) % 2` is 0.",
        example: "seed = (seed * 1103515245 + 12345) & 0x7fffffff",
        ..ANYWHERE
    },
    Row {
        at: &[Is("Math"), Is("."), Is("sqrt")],
        sentence: "`Math` has no `sqrt`: count up to the root.",
        example: "while ((r + 1) * (r + 1) <= n) { r++ }",
        ..ANYWHERE
    },
    Row {
        at: &[Is("Math"), Is("."), Is("idiv")],
        sentence: "`Math` has no `idiv`: `/` gives whole numbers by itself.",
        example: "let x = 7 / 2",
        ..ANYWHERE
    },
    Row {
        at: &[Is("Math"), Is("."), Is("sign")],
        sentence: "`Math` has no `sign`: compare with 0.",
        example: "let sign = n > 0 ? 1 : n < 0 ? -1 : 0",
        ..ANYWHERE
    },
    Row {
        at: &[Is("Math"), Is("."), Is("constrain")],
        sentence: "`Math` has no `constrain`: use `Math.min` and `Math.max`.",
        example: "let x = Math.max(0, Math.min(4, n))",
        ..ANYWHERE
    },
    Row {
        at: &[Is("Math"), Is("."), Is("trunc")],
        sentence: "Numbers are whole, so there is no `Math.trunc`: `/` cuts off what is after the point.",
        example: "let x = 7 / 2",
        ..ANYWHERE
    },
    Row {
        at: &[Is("Math"), Is("."), Is("ceil")],
        sentence: "Numbers are whole, so there is no `Math.ceil`: add the divisor less one.",
        example: "let x = (7 + 1) / 2",
        ..ANYWHERE
    },
    Row {
        at: &[Is("Math"), Is("."), Is("map")],
        sentence: "`Math` has no `map`: multiply first, then divide.",
        example: "let y = x * 4 / 1023",
        ..ANYWHERE
    },
    Row {
        at: &[Is("Math"), Is("."), Is("PI")],
        sentence: "Numbers are whole: there is no `Math.PI`. Count in hundredths: 314.",
        example: "let c = 314 * r / 100",
        ..ANYWHERE
    },
    Row {
        at: &[Is("serial"), Is("."), Is("writeNumbers")],
        sentence: "`serial` has no `writeNumbers`: write each by a call.",
        example: "for (let x of a) { serial.writeNumber(x) }",
        ..ANYWHERE
    },
];

/// Code 8: what other boards have, part 4.
pub fn drawers_4() -> &'static [Row] {
    &DRAWERS_4
}

static DRAWERS_4: [Row; 10] = [
    Row {
        at: &[Is("serial"), Is("."), Is("readLine")],
        sentence: "The serial port is only written: `serial` has no `readLine`.",
        example: "serial.writeLine(\"hello\")",
        ..ANYWHERE
    },
    Row {
        at: &[Is("serial"), Is("."), Is("readUntil")],
        sentence: "The serial port is only written: `serial` has no `readUntil`.",
        example: "serial.writeLine(\"hello\")",
        ..ANYWHERE
    },
    Row {
        at: &[Is("serial"), Is("."), Is("onDataReceived")],
        sentence: "The serial port is only written: `serial` has no `onDataReceived`.",
        example: "serial.writeLine(\"hello\")",
        ..ANYWHERE
    },
    Row {
        at: &[Is("serial"), Is("."), Is("redirectToUSB")],
        sentence: "There is one serial port: take `redirectToUSB` out.",
        example: "serial.writeLine(\"hello\")",
        ..ANYWHERE
    },
    Row {
        at: &[Is("pins"), Is("."), Is("servoWritePin")],
        sentence: "A pin is high or low: `pins` has no `servoWritePin`; use `digitalWritePin`.",
        example: "pins.digitalWritePin(DigitalPin.P0, 1)",
        ..ANYWHERE
    },
    Row {
        at: &[Is("control"), Is("."), Is("millis")],
        sentence: "`control` has no `millis`: `input.runningTime` gives the milliseconds.",
        example: "let now = input.runningTime()",
        ..ANYWHERE
    },
    Row {
        at: &[Is("control"), Is("."), Is("eventTimestamp")],
        sentence: "`control` has no `eventTimestamp`: `input.runningTime` gives the milliseconds.",
        example: "let now = input.runningTime()",
        ..ANYWHERE
    },
    Row {
        at: &[Is("neopixel")],
        sentence: "There is no `neopixel`: the board has its 25 lights alone.",
        example: "led.plot(2, 2)",
        ..ANYWHERE
    },
    Row {
        at: &[Is("bluetooth")],
        sentence: "The board has no `bluetooth`: it has the radio alone.",
        example: "radio.sendNumber(5)",
        ..ANYWHERE
    },
    Row {
        before: &[Is("new")],
        at: &[Is("Date")],
        sentence: "There is no `Date` and no clock of the day: `input.runningTime` gives the milliseconds of the run.",
        example: "let now = input.runningTime()",
        ..ANYWHERE
    },
];

/// Code 8: what other boards have, part 5.
pub fn drawers_5() -> &'static [Row] {
    &DRAWERS_5
}

static DRAWERS_5: [Row; 2] = [
    Row {
        at: &[Is("JSON"), Is(".")],
        sentence: "There is no `JSON`: show and write the values themselves.",
        example: "serial.writeNumber(5)",
        ..ANYWHERE
    },
    Row {
        at: &[Is("prompt"), Is("(")],
        sentence: "There is no `input` of texts and no `prompt`: buttons and the radio are all that comes in.",
        example: "input.onButtonPressed(Button.A, function () { })",
        ..ANYWHERE
    },
];
