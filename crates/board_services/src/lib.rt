//! The services that a program asks of the board, by the numbers that it asks by.
#![tactic(auto)]

mod numbers;

pub use numbers::{
    ALLOCATE, BUTTON, DIVIDE, END, EVENT_VALUE, LISTEN, LISTEN_IN_MODE, NUMBER_GLYPH, PANIC, PAUSE,
    PLOT, PUSH, RAISE, RAISE_NOW, REMAINDER, SEND, SHOW, SPAWN, TEXT_GLYPH, TIME, WAIT,
    WRITE_NUMBER, WRITE_PIN, WRITE_TEXT, services_are_numbered,
};
