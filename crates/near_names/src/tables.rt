// The words of the language and of the board.

/// The words of the language.
static WORDS: [&str; 27] = [
    "let",
    "const",
    "function",
    "class",
    "extends",
    "constructor",
    "return",
    "if",
    "else",
    "while",
    "do",
    "for",
    "break",
    "continue",
    "new",
    "this",
    "super",
    "null",
    "true",
    "false",
    "number",
    "string",
    "boolean",
    "void",
    "public",
    "private",
    "of",
];

/// What has members on the board.
static OBJECTS: [&str; 11] = [
    "basic",
    "led",
    "input",
    "control",
    "serial",
    "pins",
    "radio",
    "Math",
    "Button",
    "DigitalPin",
    "EventFlags",
];

static TYPES: [&str; 4] = ["number", "string", "boolean", "void"];

static VALUES: [&str; 9] = [
    "true", "false", "null", "break", "continue", "return", "this", "super", "else",
];

static OF_BASIC: [&str; 6] = [
    "pause",
    "forever",
    "showLeds",
    "showNumber",
    "showString",
    "clearScreen",
];

static OF_LED: [&str; 3] = ["plot", "unplot", "toggle"];

static OF_INPUT: [&str; 3] = ["onButtonPressed", "buttonIsPressed", "runningTime"];

static OF_CONTROL: [&str; 8] = [
    "inBackground",
    "onEvent",
    "onEventFlags",
    "raiseEvent",
    "raiseNow",
    "waitForEvent",
    "eventValue",
    "panic",
];

static OF_SERIAL: [&str; 3] = ["writeNumber", "writeString", "writeLine"];

static OF_PINS: [&str; 1] = ["digitalWritePin"];

static OF_RADIO: [&str; 1] = ["sendNumber"];

static OF_MATH: [&str; 3] = ["abs", "min", "max"];

static OF_FLAGS: [&str; 3] = ["Reentrant", "QueueIfBusy", "DropIfBusy"];

static OF_LISTS: [&str; 3] = ["push", "pop", "length"];

pub fn words() -> &'static [&'static str] {
    &WORDS
}

pub fn objects() -> &'static [&'static str] {
    &OBJECTS
}

pub fn types() -> &'static [&'static str] {
    &TYPES
}

pub fn values() -> &'static [&'static str] {
    &VALUES
}

pub fn of_lists() -> &'static [&'static str] {
    &OF_LISTS
}

/// The members of an object of the board; none where it is none, or has names of one or two letters.
pub fn members_of(object: &[u8]) -> &'static [&'static str] {
    match object {
        b"basic" => &OF_BASIC,
        b"led" => &OF_LED,
        b"input" => &OF_INPUT,
        b"control" => &OF_CONTROL,
        b"serial" => &OF_SERIAL,
        b"pins" => &OF_PINS,
        b"radio" => &OF_RADIO,
        b"Math" => &OF_MATH,
        b"EventFlags" => &OF_FLAGS,
        _ => &[],
    }
}

/// The objects that have calls, each with what is written before its members.
pub static CALLED: [(&str, &str); 8] = [
    ("basic", "basic."),
    ("led", "led."),
    ("input", "input."),
    ("control", "control."),
    ("serial", "serial."),
    ("pins", "pins."),
    ("radio", "radio."),
    ("Math", "Math."),
];
