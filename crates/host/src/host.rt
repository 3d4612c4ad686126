// The host end: it offers frames to the device and takes the device's answers.
ghost use Rattle.std.specs.Prelude.{◌≡◌, length, is_some};
ghost use Rattle.std.specs.Option.{option_map};
ghost use Rattle.signature.specs.Numbers.{numeral};
ghost use Rattle.machine.specs.declared.phase.Cause.TheVariants.{Start};
ghost use Rattle.machine.specs.HostEnd.{host_advanced, host_composed, host_control, host_judged, host_offer_answer, host_offer_next, host_offer_octets, host_opened, host_press_answer, host_press_next, host_safe, host_started, host_take_answer, host_take_next, host_ticks_answer, host_ticks_next};
ghost use Rattle.machine.specs.Answers.{written};
ghost use Rattle.frame.specs.Held.{framed};
ghost use Rattle.host.specs.View.{HostEnd};

use crate::button::Press;
use block::{CheckedBlock, Setup};
use frame::{Frame, Values, check_length, control, flag, has, octet_at, status};
use machine::{Cause, HostJudged, HostPhase, Outcome, counted};
use refusal::{Reason, Refusal};
use signature::{Number, SignatureKind};
use std::marker::{Model, PhantomData};

// Neither copied nor cloned: one checked block starts one host.
#[derive(Drop)]
pub struct Host<K: SignatureKind> {
    phase: HostPhase,
    number: Number,
    previous: Number,
    toggle: bool,
    ticks: u16,
    stop: bool,
    kept: Option<Frame>,
    answer: Option<Frame>,
    cause: Cause,
    setup: Setup,
    kind: PhantomData<K>,
}

impl<K: SignatureKind> Model for Host<K> {
    ghost Value = { HostEnd };

    ghost view = { λ h. record { setup = h.setup; state = record { phase = h.phase; number = numeral h.number; previous = numeral h.previous; toggle = h.toggle; ticks = h.ticks; stop = h.stop; kept = option_map framed h.kept; answer = option_map framed h.answer; cause = h.cause } } };
}

mod read;

impl<K: SignatureKind> Host<K> {
    // Starts a host from a checked block, which is used up.
    pub fn start(checked: CheckedBlock<K>) -> Host<K>
        ensures { result ≡ record { setup = checked.setup; state = host_started Start } }
    {
        Host::started(checked.into_setup(), Cause::Start)
    }

    // A host in restart, and why.
    fn started(setup: Setup, cause: Cause) -> Host<K>
        ensures { result ≡ record { setup = setup; state = host_started cause } }
    {
        Host {
            phase: HostPhase::Restart,
            number: Number::zero(),
            previous: Number::zero(),
            toggle: false,
            ticks: 0,
            stop: true,
            kept: None,
            answer: None,
            cause,
            setup,
            kind: PhantomData,
        }
    }

    // Back to restart on a fault.
    fn restart(&mut self, cause: Cause)
        ensures { self.new ≡ record self.old { state = host_started cause } }
    {
        *self = Host::started(self.setup, cause);
    }

    // Writes the kept frame again, else composes one, keeps it and writes it. The wish is an octet, since
    // any is answered: one above 1 is refused.
    pub fn offer(&mut self, values: &[u8], wish: u8, buffer: &mut [u8]) -> Result<Outcome, Refusal>
        ensures answer { result ≡ host_offer_answer K.SignatureKind.model self.old.setup self.old.state values.now wish (length buffer.old) }
        ensures next { self.new ≡ record self.old { state = host_offer_next K.SignatureKind.model self.old.setup self.old.state values.now wish (length buffer.old) } }
        ensures buffer { buffer.new ≡ written (host_offer_octets K.SignatureKind.model self.old.setup self.old.state values.now wish (length buffer.old)) buffer.old }
    {
        let values = Values::of(values, self.setup.out_len)?;
        if wish > 1 {
            return Err(Refusal::at(Reason::InputRange, 0));
        }
        if let Some(kept) = &self.kept {
            kept.write(buffer)?;
            return Ok(Outcome::Repeat);
        }
        let frame = self.composed(values, wish);
        frame.write(buffer)?;
        self.kept = Some(frame);
        Ok(Outcome::Fresh)
    }

    // The frame that a fresh offer composes.
    fn composed(&self, values: Values<'_>, wish: u8) -> Frame
        ensures { framed result ≡ host_composed K.SignatureKind.model self.now.setup self.now.state values.entry.octets.now wish }
    {
        let sent = match self.phase {
            HostPhase::Run if !self.safe(wish) => Some(values),
            _ => None,
        };
        let signing = self.setup.signing(self.number);
        Frame::offered::<K>(signing, sent, self.setup.out_len, self.control(wish))
    }

    // The control octet of an offer.
    fn control(&self, wish: u8) -> u8
        ensures { result ≡ host_control self.now.state.phase self.now.state wish }
    {
        match self.phase {
            HostPhase::Restart => control::R_CONS_NR | control::ACTIVATE_FV,
            HostPhase::Run => {
                flag(self.stop && self.answer.is_some(), control::OA_REQ)
                    | flag(self.safe(wish), control::ACTIVATE_FV)
                    | flag(self.toggle, control::TOGGLE_H)
            }
        }
    }

    // Whether an offer in run sends fail-safe values.
    fn safe(&self, wish: u8) -> bool
        ensures { result ≡ host_safe self.now.state wish }
    {
        self.stop || wish == 1
    }

    // A frame handed in.
    pub fn take(&mut self, frame: &[u8]) -> Result<Outcome, Refusal>
        ensures answer { result ≡ host_take_answer K.SignatureKind.model self.old.setup self.old.state frame.now }
        ensures next { self.new ≡ record self.old { state = host_take_next K.SignatureKind.model self.old.setup self.old.state frame.now } }
    {
        check_length::<K>(frame, self.setup.in_len)?;
        let judged = self.judge(frame);
        match (self.phase, judged) {
            (HostPhase::Restart, HostJudged::Current) => {
                self.open();
                Ok(Outcome::Fresh)
            }
            (HostPhase::Restart, _) => Ok(Outcome::Ignored),
            (HostPhase::Run, HostJudged::Unfit) => {
                self.restart(Cause::Signature);
                Ok(Outcome::Fault)
            }
            (HostPhase::Run, HostJudged::Told) => {
                self.restart(Cause::Told);
                Ok(Outcome::Fault)
            }
            (HostPhase::Run, HostJudged::Earlier) => Ok(Outcome::Repeat),
            (HostPhase::Run, HostJudged::Current) => {
                self.advance(Frame::of(frame));
                Ok(Outcome::Fresh)
            }
        }
    }

    // What a frame handed in is to the host.
    fn judge(&self, frame: &[u8]) -> HostJudged
        ensures { result ≡ host_judged K.SignatureKind.model self.now.setup self.now.state frame.now }
    {
        let status = octet_at(frame, usize::from(self.setup.in_len));
        let turned = has(status, status::TOGGLE_D);
        let told = has(status, status::CE_CRC) || has(status, status::WD_TIMEOUT);
        match self.phase {
            HostPhase::Restart => {
                if self.kept.is_some()
                    && self.setup.signing(Number::zero()).fits::<K>(frame)
                    && has(status, status::CONS_NR_R)
                    && !turned
                    && !told
                {
                    HostJudged::Current
                } else {
                    HostJudged::Unfit
                }
            }
            HostPhase::Run => {
                let same = turned == self.toggle;
                let present = self.setup.signing(self.number);
                let kept = present.fits::<K>(frame) && same && self.kept.is_some();
                let earlier = self.setup.signing(self.previous).fits::<K>(frame);
                if !kept && !(earlier && !same) {
                    HostJudged::Unfit
                } else if told {
                    HostJudged::Told
                } else if earlier {
                    HostJudged::Earlier
                } else {
                    HostJudged::Current
                }
            }
        }
    }

    // From restart to run, with number 1.
    fn open(&mut self)
        ensures { self.new ≡ record self.old { state = host_opened self.old.state } }
    {
        self.phase = HostPhase::Run;
        self.number = Number::zero().next();
        self.previous = Number::zero();
        self.toggle = true;
        self.ticks = 0;
        self.kept = None;
    }

    // Takes a frame as the answer, and begins the next number.
    fn advance(&mut self, answer: Frame)
        ensures { self.new ≡ record self.old { state = host_advanced self.old.state (framed answer) } }
    {
        self.previous = self.number;
        self.number = self.number.next();
        self.toggle = !self.toggle;
        self.ticks = 0;
        self.kept = None;
        self.answer = Some(answer);
    }

    // Ticks that have passed; reaching the watch time in run is a fault.
    pub fn tick(&mut self, ticks: u16) -> Result<Outcome, Refusal>
        ensures answer { result ≡ host_ticks_answer self.old.setup self.old.state ticks }
        ensures next { self.new ≡ record self.old { state = host_ticks_next self.old.setup self.old.state ticks } }
    {
        match self.phase {
            HostPhase::Restart => Ok(Outcome::Quiet),
            HostPhase::Run => {
                let Some(sum) = counted(self.setup, self.ticks, ticks) else {
                    self.restart(Cause::Time);
                    return Ok(Outcome::Fault);
                };
                self.ticks = sum;
                Ok(Outcome::Quiet)
            }
        }
    }

    // The operator's press, if there is one: it clears the stop mark if the host awaits it. A press
    // is used up, also by a refusal.
    pub fn press(&mut self, press: Option<Press>) -> Result<Outcome, Refusal>
        ensures answer { result ≡ host_press_answer self.old.state (is_some press) }
        ensures next { self.new ≡ record self.old { state = host_press_next self.old.state (is_some press) } }
    {
        if press.is_none() {
            return Ok(Outcome::Quiet);
        }
        match (self.phase, &self.answer) {
            (HostPhase::Run, Some(_)) if self.stop => {
                self.stop = false;
                Ok(Outcome::Taken)
            }
            _ => Err(Refusal::at(Reason::NoPressAwaited, 0)),
        }
    }
}
