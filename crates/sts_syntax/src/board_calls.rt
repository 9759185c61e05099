// The calls of the board's interface.

/// A call of the board's interface, by its space and name. A parameter is a number unless this says otherwise. A call gives
/// nothing unless it says what it gives.
#[derive(Clone, Copy)]
pub enum BoardCall {
    /// `basic.pause(ms)`: the caller sleeps for so many milliseconds
    Pause,
    /// `basic.forever(h)`: starts an activity that calls the handler again and again, with a pause of 20 ms between
    Forever,
    /// `basic.showLeds(t)`: shows the frame that a text literal draws
    ShowLeds,
    /// `basic.showNumber(n)`: shows a number, digit by digit
    ShowNumber,
    /// `basic.showString(s)`: shows a text, character by character
    ShowString,
    /// `basic.clearScreen()`: all lights off
    ClearScreen,
    /// `led.unplot(x, y)`: one light off
    Unplot,
    /// `led.plot(x, y)`: one light on
    Plot,
    /// `led.toggle(x, y)`: one light changed
    Toggle,
    /// `input.onButtonPressed(b, h)`: the handler listens to clicks of a button
    OnButtonPressed,
    /// `input.buttonIsPressed(b)`, a boolean
    ButtonIsPressed,
    /// `input.runningTime()`, a number of milliseconds
    RunningTime,
    /// `control.inBackground(h)`: starts an activity that calls the handler once
    InBackground,
    /// `control.onEvent(s, v, h)`: the handler listens to an event's source and value
    OnEvent,
    /// `control.onEventFlags(s, v, h, f)`: the same, where the number f says what comes of an event while the handler runs
    OnEventFlags,
    /// `control.raiseEvent(s, v)`: raises an event
    RaiseEvent,
    /// `control.raiseNow(s, v)`: the event's handlers run before the caller goes on
    RaiseNow,
    /// `control.waitForEvent(s, v)`: the caller sleeps up to such an event
    WaitForEvent,
    /// `control.eventValue()`, a number: the value of the event that the caller got last
    EventValue,
    /// `control.panic(n)`: ends the run with a code
    Panic,
    /// `serial.writeNumber(n)`: writes a number in digits
    WriteNumber,
    /// `serial.writeString(s)`: writes a text
    WriteString,
    /// `serial.writeLine(s)`: writes a text and a line end
    WriteLine,
    /// `pins.digitalWritePin(p, v)`: sets a pin
    DigitalWritePin,
    /// `radio.sendNumber(n)`: sends a number
    SendNumber,
    /// `Math.abs(n)`, a number
    Abs,
    /// `Math.min(a, b)`, a number
    Min,
    /// `Math.max(a, b)`, a number
    Max,
    /// `$show(f)`, of the library alone: shows a frame
    Show,
    /// `$numberGlyph(n, i)`, of the library alone, a number: the frame of a character of a number in digits, or -1 past its end
    NumberGlyph,
    /// `$textGlyph(s, i)`, of the library alone, a number: the frame of a character of a text, or -1 past its end
    TextGlyph,
}
