// Services by which a fiber asks the board for something, or tells it something.
ghost use Rattle.std.specs.Prelude.{◌≡◌, ◌<◌, ℕ, ◌^◌, IsSome, if◌then◌else◌, ◌==◌};
ghost use Rattle.board_services.specs.declared.numbers.TheConstants.{RAISE, TIME, EVENT_VALUE, BUTTON, PLOT, SHOW, WRITE_NUMBER, WRITE_PIN, SEND};
ghost use Rattle.bank_model.specs.AllServices.{service};
ghost use Rattle.board_run.specs.Serving.{IsServed, Keeps};

use crate::arguments::{answer, asked_event, number, word};
use crate::end::Stop;
use crate::engine::{Engine, Served};
use armv6m_machine::Fault;
use board_outside::Output;
use board_world::{PIN_LIMIT, plot};

impl Engine {
    /// Service 6: an event joins the queue.
    pub fn raise(&mut self) -> Served
        ensures served { (at : ℕ) → IsServed (λ image. service image at RAISE) result self.old self.new }
        ensures keeps { Keeps self.old self.new }
    {
        let event = asked_event(&self.runtime);
        let _ = self.bus.raise(event);
        Served::Goes(Output::Nothing)
    }

    /// Service 7: the time.
    pub fn time(&mut self) -> Served
        ensures served { (at : ℕ) → IsServed (λ image. service image at TIME) result self.old self.new }
        ensures keeps { Keeps self.old self.new }
    {
        answer(&mut self.runtime, self.clock);
        Served::Goes(Output::Nothing)
    }

    /// Service 8: the value of the latest event.
    pub fn value(&mut self) -> Served
        requires { IsSome self.old.runtime.running }
        ensures served { (at : ℕ) → IsServed (λ image. service image at EVENT_VALUE) result self.old self.new }
        ensures keeps { Keeps self.old self.new }
    {
        let value = self.runtime.event_value();
        answer(&mut self.runtime, value.cast_unsigned());
        Served::Goes(Output::Nothing)
    }

    /// Service 9: whether a button is down.
    pub fn pressed(&mut self) -> Served
        ensures served { (at : ℕ) → IsServed (λ image. service image at BUTTON) result self.old self.new }
        ensures keeps { Keeps self.old self.new }
    {
        let down = self.buttons.is_down(number(&self.runtime, 0));
        answer(&mut self.runtime, u32::from(down));
        Served::Goes(Output::Nothing)
    }

    /// Service 10: one light.
    pub fn plot(&mut self, at: u32) -> Served
        ensures served { IsServed (λ image. service image at PLOT) result self.old self.new }
        ensures keeps { Keeps self.old self.new }
    {
        let mode = word(&self.runtime, 2);
        if mode > 2 {
            return Served::Stops(Stop::Fault(Fault::BadService, at));
        }
        let frame = plot(
            self.display.frame(),
            number(&self.runtime, 0),
            number(&self.runtime, 1),
            mode as u8,
        );
        Served::Goes(self.show_frame(frame))
    }

    /// Service 11: a frame.
    pub fn show(&mut self) -> Served
        ensures served { (at : ℕ) → IsServed (λ image. service image at SHOW) result self.old self.new }
        ensures keeps { Keeps self.old self.new }
    {
        let frame = word(&self.runtime, 0) % 0x0200_0000;
        Served::Goes(self.show_frame(frame))
    }

    /// Service 12: a number to the serial port.
    pub fn write_number(&self) -> Served
        ensures { (at : ℕ) → IsServed (λ image. service image at WRITE_NUMBER) result self.now self.now }
    {
        Served::Goes(Output::Number(number(&self.runtime, 0)))
    }

    /// Service 14: a pin.
    pub fn set_pin(&self) -> Served
        ensures { (at : ℕ) → IsServed (λ image. service image at WRITE_PIN) result self.now self.now }
    {
        let pin = number(&self.runtime, 0);
        let value = number(&self.runtime, 1);
        if pin < 0 || pin as u32 >= PIN_LIMIT {
            return Served::Goes(Output::Nothing);
        }
        Served::Goes(Output::Pin(pin as u8, u8::from(value != 0)))
    }

    /// Service 15: a number by radio.
    pub fn send(&self) -> Served
        ensures { (at : ℕ) → IsServed (λ image. service image at SEND) result self.now self.now }
    {
        Served::Goes(Output::Radio(number(&self.runtime, 0)))
    }
}

ghost use Rattle.board_outside.specs.declared.output.Output.TheVariants.{Nothing, Frame};

impl Engine {
    /// A frame is shown, and seen where it differs from the one before.
    fn show_frame(&mut self, frame: u32) -> Output
        ensures output { result ≡ (if frame == self.old.display then Nothing else Frame frame) }
        ensures after { self.new ≡ record self.old { display = frame } }
    {
        if self.display.show(frame) {
            Output::Frame(frame)
        } else {
            Output::Nothing
        }
    }
}
