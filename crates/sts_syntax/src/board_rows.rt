// The board's interface as a table: what each of its calls takes, gives and is, and its constants.
ghost use Rattle.std.specs.Prelude.{◌≡◌, ◌&&◌, map};
ghost use Rattle.sts_syntax.specs.BoardTable.{row_of, same_bytes, call_named, constant_named};
ghost use Rattle.sts_syntax.specs.BoardViews.{board_parameter, board_action, constant_of};
ghost use Rattle.sts_syntax.specs.Types.{value_type};

use crate::{BoardCall, Ty};
use board_services::{
    BUTTON, EVENT_VALUE, LISTEN, LISTEN_IN_MODE, NUMBER_GLYPH, PANIC, PAUSE, PLOT, RAISE,
    RAISE_NOW, SEND, SHOW, SPAWN, TEXT_GLYPH, TIME, WAIT, WRITE_NUMBER, WRITE_PIN, WRITE_TEXT,
};

/// What a call takes at one of its places.
#[derive(Clone, Copy)]
pub enum BoardParameter {
    /// a number
    Number,
    /// a text
    Text,
    /// a handler
    Handler,
    /// a text literal that draws a frame
    Drawing,
}

/// What stands at a place of a service.
#[derive(Clone, Copy)]
pub enum ServicePlace {
    /// the next written argument
    Written,
    /// always the same number
    Always(i32),
}

/// What a call is.
#[derive(Clone, Copy)]
pub enum BoardAction {
    /// the service of a number, with what stands at its places
    Service(u8, &'static [ServicePlace]),
    /// the library's function of its name with `$` before it, by that function's number
    Library(u32),
    /// the start of an activity that calls the handler again and again
    Repeats,
}

/// places that are all written
const ONE_WRITTEN: &[ServicePlace] = &[ServicePlace::Written];

const TWO_WRITTEN: &[ServicePlace] = &[ServicePlace::Written, ServicePlace::Written];

const THREE_WRITTEN: &[ServicePlace] = &[
    ServicePlace::Written,
    ServicePlace::Written,
    ServicePlace::Written,
];

const FOUR_WRITTEN: &[ServicePlace] = &[
    ServicePlace::Written,
    ServicePlace::Written,
    ServicePlace::Written,
    ServicePlace::Written,
];

/// the frame without a light
const DARK: &[ServicePlace] = &[ServicePlace::Always(0)];

/// a column and a row, and what becomes of the light there
const LIGHT_OFF: &[ServicePlace] = &[
    ServicePlace::Written,
    ServicePlace::Written,
    ServicePlace::Always(0),
];

const LIGHT_ON: &[ServicePlace] = &[
    ServicePlace::Written,
    ServicePlace::Written,
    ServicePlace::Always(1),
];

const LIGHT_TURNED: &[ServicePlace] = &[
    ServicePlace::Written,
    ServicePlace::Written,
    ServicePlace::Always(2),
];

/// a button, its event of a press, and a handler
const PRESSED: &[ServicePlace] = &[
    ServicePlace::Written,
    ServicePlace::Always(3),
    ServicePlace::Written,
];

/// what calls take that hear of events
const EVENT_HANDLER: &[BoardParameter] = &[
    BoardParameter::Number,
    BoardParameter::Number,
    BoardParameter::Handler,
];

const EVENT_HANDLER_FLAGS: &[BoardParameter] = &[
    BoardParameter::Number,
    BoardParameter::Number,
    BoardParameter::Handler,
    BoardParameter::Number,
];

/// All calls, in the order of the interface's table.
const CALLS: [BoardCall; 31] = [
    BoardCall::Pause,
    BoardCall::Forever,
    BoardCall::ShowLeds,
    BoardCall::ShowNumber,
    BoardCall::ShowString,
    BoardCall::ClearScreen,
    BoardCall::Unplot,
    BoardCall::Plot,
    BoardCall::Toggle,
    BoardCall::OnButtonPressed,
    BoardCall::ButtonIsPressed,
    BoardCall::RunningTime,
    BoardCall::InBackground,
    BoardCall::OnEvent,
    BoardCall::OnEventFlags,
    BoardCall::RaiseEvent,
    BoardCall::RaiseNow,
    BoardCall::WaitForEvent,
    BoardCall::EventValue,
    BoardCall::Panic,
    BoardCall::WriteNumber,
    BoardCall::WriteString,
    BoardCall::WriteLine,
    BoardCall::DigitalWritePin,
    BoardCall::SendNumber,
    BoardCall::Abs,
    BoardCall::Min,
    BoardCall::Max,
    BoardCall::Show,
    BoardCall::NumberGlyph,
    BoardCall::TextGlyph,
];

impl BoardCall {
    /// What stands before the dot in a call; nothing for the library's own calls.
    pub fn space(self) -> &'static [u8]
        ensures { result.now ≡ (row_of self).space }
    {
        match self {
            BoardCall::Pause
            | BoardCall::Forever
            | BoardCall::ShowLeds
            | BoardCall::ShowNumber
            | BoardCall::ShowString
            | BoardCall::ClearScreen => b"basic",
            BoardCall::Unplot | BoardCall::Plot | BoardCall::Toggle => b"led",
            BoardCall::OnButtonPressed | BoardCall::ButtonIsPressed | BoardCall::RunningTime =>
                b"input",
            BoardCall::InBackground
            | BoardCall::OnEvent
            | BoardCall::OnEventFlags
            | BoardCall::RaiseEvent
            | BoardCall::RaiseNow
            | BoardCall::WaitForEvent
            | BoardCall::EventValue
            | BoardCall::Panic => b"control",
            BoardCall::WriteNumber | BoardCall::WriteString | BoardCall::WriteLine => b"serial",
            BoardCall::DigitalWritePin => b"pins",
            BoardCall::SendNumber => b"radio",
            BoardCall::Abs | BoardCall::Min | BoardCall::Max => b"Math",
            BoardCall::Show | BoardCall::NumberGlyph | BoardCall::TextGlyph => b"",
        }
    }

    /// The name behind the dot.
    pub fn name(self) -> &'static [u8]
        ensures { result.now ≡ (row_of self).name }
    {
        match self {
            BoardCall::Pause => b"pause",
            BoardCall::Forever => b"forever",
            BoardCall::ShowLeds => b"showLeds",
            BoardCall::ShowNumber => b"showNumber",
            BoardCall::ShowString => b"showString",
            BoardCall::ClearScreen => b"clearScreen",
            BoardCall::Unplot => b"unplot",
            BoardCall::Plot => b"plot",
            BoardCall::Toggle => b"toggle",
            BoardCall::OnButtonPressed => b"onButtonPressed",
            BoardCall::ButtonIsPressed => b"buttonIsPressed",
            BoardCall::RunningTime => b"runningTime",
            BoardCall::InBackground => b"inBackground",
            BoardCall::OnEvent => b"onEvent",
            BoardCall::OnEventFlags => b"onEventFlags",
            BoardCall::RaiseEvent => b"raiseEvent",
            BoardCall::RaiseNow => b"raiseNow",
            BoardCall::WaitForEvent => b"waitForEvent",
            BoardCall::EventValue => b"eventValue",
            BoardCall::Panic => b"panic",
            BoardCall::WriteNumber => b"writeNumber",
            BoardCall::WriteString => b"writeString",
            BoardCall::WriteLine => b"writeLine",
            BoardCall::DigitalWritePin => b"digitalWritePin",
            BoardCall::SendNumber => b"sendNumber",
            BoardCall::Abs => b"abs",
            BoardCall::Min => b"min",
            BoardCall::Max => b"max",
            BoardCall::Show => b"$show",
            BoardCall::NumberGlyph => b"$numberGlyph",
            BoardCall::TextGlyph => b"$textGlyph",
        }
    }

    /// What it takes at each of its places.
    pub fn takes(self) -> &'static [BoardParameter]
        ensures { map board_parameter result.now ≡ (row_of self).takes }
    {
        match self {
            BoardCall::Pause
            | BoardCall::ShowNumber
            | BoardCall::ButtonIsPressed
            | BoardCall::Panic
            | BoardCall::WriteNumber
            | BoardCall::SendNumber
            | BoardCall::Abs
            | BoardCall::Show => &[BoardParameter::Number],
            BoardCall::Forever | BoardCall::InBackground => &[BoardParameter::Handler],
            BoardCall::ShowLeds => &[BoardParameter::Drawing],
            BoardCall::ShowString | BoardCall::WriteString | BoardCall::WriteLine => &[
                BoardParameter::Text,
            ],
            BoardCall::ClearScreen | BoardCall::RunningTime | BoardCall::EventValue => &[],
            BoardCall::Unplot
            | BoardCall::Plot
            | BoardCall::Toggle
            | BoardCall::RaiseEvent
            | BoardCall::RaiseNow
            | BoardCall::WaitForEvent
            | BoardCall::DigitalWritePin
            | BoardCall::Min
            | BoardCall::Max
            | BoardCall::NumberGlyph => &[BoardParameter::Number, BoardParameter::Number],
            BoardCall::OnButtonPressed => &[BoardParameter::Number, BoardParameter::Handler],
            BoardCall::OnEvent => EVENT_HANDLER,
            BoardCall::OnEventFlags => EVENT_HANDLER_FLAGS,
            BoardCall::TextGlyph => &[BoardParameter::Text, BoardParameter::Number],
        }
    }

    /// The type of what it gives.
    pub fn gives(self) -> Ty
        ensures { value_type result ≡ (row_of self).gives }
    {
        match self {
            BoardCall::Pause
            | BoardCall::Forever
            | BoardCall::ShowLeds
            | BoardCall::ShowNumber
            | BoardCall::ShowString
            | BoardCall::ClearScreen
            | BoardCall::Unplot
            | BoardCall::Plot
            | BoardCall::Toggle
            | BoardCall::OnButtonPressed
            | BoardCall::InBackground
            | BoardCall::OnEvent
            | BoardCall::OnEventFlags
            | BoardCall::RaiseEvent
            | BoardCall::RaiseNow
            | BoardCall::WaitForEvent
            | BoardCall::Panic
            | BoardCall::WriteNumber
            | BoardCall::WriteString
            | BoardCall::WriteLine
            | BoardCall::DigitalWritePin
            | BoardCall::SendNumber
            | BoardCall::Show => Ty::NOTHING,
            BoardCall::ButtonIsPressed => Ty::BOOLEAN,
            BoardCall::RunningTime
            | BoardCall::EventValue
            | BoardCall::Abs
            | BoardCall::Min
            | BoardCall::Max
            | BoardCall::NumberGlyph
            | BoardCall::TextGlyph => Ty::NUMBER,
        }
    }

    /// What it is.
    pub fn action(self) -> BoardAction
        ensures { board_action result ≡ (row_of self).action }
    {
        match self {
            BoardCall::Pause => BoardAction::Service(PAUSE, ONE_WRITTEN),
            BoardCall::Forever => BoardAction::Repeats,
            BoardCall::ShowLeds => BoardAction::Library(0),
            BoardCall::ShowNumber => BoardAction::Library(1),
            BoardCall::ShowString => BoardAction::Library(2),
            BoardCall::ClearScreen => BoardAction::Service(SHOW, DARK),
            BoardCall::Unplot => BoardAction::Service(PLOT, LIGHT_OFF),
            BoardCall::Plot => BoardAction::Service(PLOT, LIGHT_ON),
            BoardCall::Toggle => BoardAction::Service(PLOT, LIGHT_TURNED),
            BoardCall::OnButtonPressed => BoardAction::Service(LISTEN, PRESSED),
            BoardCall::ButtonIsPressed => BoardAction::Service(BUTTON, ONE_WRITTEN),
            BoardCall::RunningTime => BoardAction::Service(TIME, &[]),
            BoardCall::InBackground => BoardAction::Service(SPAWN, ONE_WRITTEN),
            BoardCall::OnEvent => BoardAction::Service(LISTEN, THREE_WRITTEN),
            BoardCall::OnEventFlags => BoardAction::Service(LISTEN_IN_MODE, FOUR_WRITTEN),
            BoardCall::RaiseEvent => BoardAction::Service(RAISE, TWO_WRITTEN),
            BoardCall::RaiseNow => BoardAction::Service(RAISE_NOW, TWO_WRITTEN),
            BoardCall::WaitForEvent => BoardAction::Service(WAIT, TWO_WRITTEN),
            BoardCall::EventValue => BoardAction::Service(EVENT_VALUE, &[]),
            BoardCall::Panic => BoardAction::Service(PANIC, ONE_WRITTEN),
            BoardCall::WriteNumber => BoardAction::Service(WRITE_NUMBER, ONE_WRITTEN),
            BoardCall::WriteString => BoardAction::Service(WRITE_TEXT, ONE_WRITTEN),
            BoardCall::WriteLine => BoardAction::Library(3),
            BoardCall::DigitalWritePin => BoardAction::Service(WRITE_PIN, TWO_WRITTEN),
            BoardCall::SendNumber => BoardAction::Service(SEND, ONE_WRITTEN),
            BoardCall::Abs => BoardAction::Library(4),
            BoardCall::Min => BoardAction::Library(5),
            BoardCall::Max => BoardAction::Library(6),
            BoardCall::Show => BoardAction::Service(SHOW, ONE_WRITTEN),
            BoardCall::NumberGlyph => BoardAction::Service(NUMBER_GLYPH, TWO_WRITTEN),
            BoardCall::TextGlyph => BoardAction::Service(TEXT_GLYPH, TWO_WRITTEN),
        }
    }
}

/// Whether a call has this space and this name.
#[tactic(auto, using(crate::proofs::BoardLookup::same_bytes_is))]
fn is_call(call: BoardCall, space: &[u8], name: &[u8]) -> bool
    ensures { result ≡ (same_bytes (row_of call).space space.now && same_bytes (row_of call).name name.now) }
{
    call.space() == space && call.name() == name
}

/// The call of a space and a name. `space` is what stands before the dot: the library's own calls have none.
pub fn board_call(space: &[u8], name: &[u8]) -> Option<BoardCall>
    ensures { result ≡ call_named space.now name.now }
{
    for call in CALLS {
        if is_call(call, space, name) {
            return Some(call);
        }
    }
    None
}

/// A constant of the interface, by its space and name.
#[derive(Clone, Copy)]
enum BoardConstant {
    ButtonA,
    ButtonB,
    PinP0,
    PinP1,
    PinP2,
    Reentrant,
    QueueIfBusy,
    DropIfBusy,
}

/// All constants, in the order of the interface's table.
const CONSTANTS: [BoardConstant; 8] = [
    BoardConstant::ButtonA,
    BoardConstant::ButtonB,
    BoardConstant::PinP0,
    BoardConstant::PinP1,
    BoardConstant::PinP2,
    BoardConstant::Reentrant,
    BoardConstant::QueueIfBusy,
    BoardConstant::DropIfBusy,
];

impl BoardConstant {
    fn space(self) -> &'static [u8]
        ensures { result.now ≡ (constant_of self).space }
    {
        match self {
            BoardConstant::ButtonA | BoardConstant::ButtonB => b"Button",
            BoardConstant::PinP0 | BoardConstant::PinP1 | BoardConstant::PinP2 => b"DigitalPin",
            BoardConstant::Reentrant | BoardConstant::QueueIfBusy | BoardConstant::DropIfBusy => {
                b"EventFlags"
            }
        }
    }

    fn name(self) -> &'static [u8]
        ensures { result.now ≡ (constant_of self).name }
    {
        match self {
            BoardConstant::ButtonA => b"A",
            BoardConstant::ButtonB => b"B",
            BoardConstant::PinP0 => b"P0",
            BoardConstant::PinP1 => b"P1",
            BoardConstant::PinP2 => b"P2",
            BoardConstant::Reentrant => b"Reentrant",
            BoardConstant::QueueIfBusy => b"QueueIfBusy",
            BoardConstant::DropIfBusy => b"DropIfBusy",
        }
    }

    fn value(self) -> i32
        ensures { result ≡ (constant_of self).value }
    {
        match self {
            BoardConstant::ButtonA => 1,
            BoardConstant::ButtonB => 2,
            BoardConstant::PinP0 => 0,
            BoardConstant::PinP1 => 1,
            BoardConstant::PinP2 => 2,
            BoardConstant::Reentrant => 8,
            BoardConstant::QueueIfBusy => 16,
            BoardConstant::DropIfBusy => 32,
        }
    }
}

/// Whether a constant has this space and this name.
#[tactic(auto, using(crate::proofs::BoardLookup::same_bytes_is))]
fn is_constant(constant: BoardConstant, space: &[u8], name: &[u8]) -> bool
    ensures { result
        ≡ (same_bytes (constant_of constant).space space.now && same_bytes (constant_of constant).name name.now) }
{
    constant.space() == space && constant.name() == name
}

/// The value of a constant, by its space and name.
pub fn board_constant(space: &[u8], name: &[u8]) -> Option<i32>
    ensures { result ≡ constant_named space.now name.now }
{
    for constant in CONSTANTS {
        if is_constant(constant, space, name) {
            return Some(constant.value());
        }
    }
    None
}
