// What a word that is taken does to the state. Each function takes the word's data, or its kind and data.
ghost use Rattle.std.specs.Prelude.{◌≡◌, true, false, ◌&&◌, leb, ℕ, ◌+◌, ◌*◌, ◌≤◌, ◌<◌, max};
ghost use Rattle.words.specs.Kinds.{stop, vdetcom_m, vdetadj_l, sin_m, cos_l, switch, cover};
ghost use Rattle.head.specs.Limits.{step_ticks, readout_of, length_by, length_of};
ghost use Rattle.head.specs.Apply.{after};
ghost use Rattle.head.specs.Row.{registers};
ghost use Rattle.head.specs.ByRow.{place_of};

use crate::range::Ranged;
use crate::state::{Begun, Head, Latches, Motion, Settings, Work};
use crate::word::Known;
use words::kinds::{
    COS_L, COS_M, HK, SIN_L, SIN_M, START, STOP, SWITCH, VDETADJ_L, VDETADJ_M, VDETCOM_L, VDETCOM_M,
};

// The ticks of the IR readout in a window mode.
#[tactic(auto, unfolding(crate::specs::Limits::readout_of))]
fn readout(mode: u16) -> u16
    ensures { result ≡ readout_of mode }
{
    if mode == 0 {
        Head::FULL_READOUT
    } else {
        Head::REDUCED_READOUT
    }
}

// The ticks of one channel's delay, exposure and readout.
fn channel(delay: u16, expo: u16, readout: u16) -> u32
    ensures { result ≡ step_ticks * (delay + expo) + readout }
{
    Head::STEP_TICKS as u32 * (delay as u32 + expo as u32) + readout as u32
}

// The length of an acquisition in ticks, by the settings that give it.
#[tactic(auto, unfolding(crate::specs::Limits::length_by))]
pub fn acquisition_ticks(mode: u16, irdelay: u16, irexpo: u16, ccddelay: u16, ccdexpo: u16) -> u32
    ensures { result ≡ length_by mode irdelay irexpo ccddelay ccdexpo }
{
    let ccd = channel(ccddelay, ccdexpo, Head::CCD_READOUT);
    let ir = channel(irdelay, irexpo, readout(mode));
    let extra = Head::EXTRA_TICKS as u32;
    extra + ccd.max(ir)
}

impl Settings {
    #[tactic(auto, unfolding(crate::specs::Limits::length_of))]
    pub fn acquisition_ticks(self) -> u32
        ensures { result ≡ length_of self }
    {
        acquisition_ticks(
            self.mode,
            self.irdelay,
            self.irexpo,
            self.ccddelay,
            self.ccdexpo,
        )
    }
}

// The place in the row of registers of the one that a word sets, by its kind; 20 for a kind that sets none, or does more. A table, since a `match` by
// the kind costs a word some 50 instructions more.
const PLACE: [u8; 28] = [
    20, // NOP
    20, // START
    20, // HK
    20, // STOP
    0, // IR DETECTOR
    1, // IR WIN MODE
    20, // VDETCOM M
    20, // VDETCOM L
    20, // VDETADJ M
    20, // VDETADJ L
    4, // IR DELAY
    5, // IR EXPO
    8, // WIN X1
    9, // WIN Y1
    10, // WIN X2
    11, // WIN Y2
    6, // CCD DELAY
    7, // CCD EXPO
    12, // CCD LAMP
    13, // IR LAMP
    14, // SHUTTER
    15, // ANNEALING
    20, // SIN M
    20, // SIN L
    20, // COS M
    20, // COS L
    20, // SWITCH
    20, // COVER
];

fn place_of(kind: u8) -> u8
    requires above { stop < kind }
    requires below { kind < sin_m }
    requires no_voltage { (leb vdetcom_m kind && leb kind vdetadj_l) ≡ false }
    ensures value { result ≡ place_of kind }
    ensures upper_bound { result < registers }
{
    PLACE[kind as usize]
}

impl Head {
    // A word that sets the register of its name and nothing else.
    fn set(mut self, word: Known) -> Head
        requires above { stop < word.kind }
        requires below { word.kind < sin_m }
        requires no_voltage { (leb vdetcom_m word.kind && leb word.kind vdetadj_l) ≡ false }
        ensures { result ≡ after self word.kind word.bits }
    {
        let mut row = self.settings.numbers();
        let at = place_of(word.kind);
        row[at as usize] = word.bits;
        self.settings = Settings::from(row);
        self
    }

    // SWITCH: 0 is on and moves the mirror.
    #[tactic(auto, unfolding(crate::specs::Apply::after))]
    fn motor(mut self, bits: u16) -> Head
        ensures { result ≡ after self switch bits }
    {
        self.settings.switch = bits;
        if bits == 0 {
            self.motion.mirror = Head::MIRROR_TICKS;
            return self;
        }
        self
    }

    #[tactic(auto, unfolding(crate::specs::Apply::after))]
    fn cover(mut self, word: Known) -> Head
        ensures { result ≡ after self cover word.bits }
    {
        self.settings.direction = word.bits / 512;
        self.motion.cover = Head::COVER_STEP_TICKS * (word.bits % 128);
        self
    }
}

impl Ranged {
    // START begins an acquisition, HK keeps the head busy, STOP makes it idle, NOP does nothing.
    #[tactic(auto, unfolding(crate::specs::Apply::after))]
    fn control(self, kind: u8) -> Head
        requires { kind ≤ stop }
        ensures { (b : ℕ) → result ≡ after self.head kind b }
    {
        let mut head = self.head;
        match kind {
            START => {
                let ticks = head.settings.acquisition_ticks();
                let busy = ticks as u16;
                head.work = Work {
                    task: Head::ACQUISITION,
                    busy,
                };
                head
            }
            HK => {
                head.work = Work {
                    task: Head::HOUSEKEEPING,
                    busy: Head::HK_TICKS,
                };
                head
            }
            STOP => {
                head.work = Work {
                    task: Head::NO_TASK,
                    busy: 0,
                };
                head
            }
            _ => head,
        }
    }

    // An M word fills a latch, an L word sets the register.
    #[tactic(auto, unfolding(crate::specs::Apply::after))]
    fn voltage(self, word: Known) -> Head
        requires first { vdetcom_m ≤ word.kind }
        requires last { word.kind ≤ vdetadj_l }
        ensures { result ≡ after self.head word.kind word.bits }
    {
        let mut head = self.head;
        let Known { kind, bits } = word;
        match kind {
            VDETCOM_M => {
                head.latches.vdetcom = bits;
                head
            }
            VDETCOM_L => {
                let value = head.latches.vdetcom * 256 + bits;
                head.settings.vdetcom = value;
                head
            }
            VDETADJ_M => {
                head.latches.vdetadj = bits;
                head
            }
            _ => {
                let value = head.latches.vdetadj * 256 + bits;
                head.settings.vdetadj = value;
                head
            }
        }
    }

    // A mirror word in turn; the pair changes at COS L.
    #[tactic(auto, unfolding(crate::specs::Apply::after))]
    fn mirror(self, word: Known) -> Head
        requires first { sin_m ≤ word.kind }
        requires last { word.kind ≤ cos_l }
        ensures { result ≡ after self.head word.kind word.bits }
    {
        let mut head = self.head;
        let Known { kind, bits } = word;
        let begun = head.begun;
        match kind {
            SIN_M => {
                head.begun = Begun {
                    count: 1,
                    sinm: bits,
                    ..Begun::default()
                };
                head
            }
            SIN_L => {
                head.begun = Begun {
                    count: 2,
                    sinl: bits,
                    cosm: 0,
                    ..begun
                };
                head
            }
            COS_M => {
                head.begun = Begun {
                    count: 3,
                    cosm: bits,
                    ..begun
                };
                head
            }
            _ => self.pointed(word),
        }
    }

    // COS L: the begun set becomes the mirror's pair.
    #[tactic(auto, unfolding(crate::specs::Apply::after))]
    fn pointed(self, word: Known) -> Head
        ensures { result ≡ after self.head cos_l word.bits }
    {
        let mut head = self.head;
        let begun = head.begun;
        let sine = begun.sinm * 256 + begun.sinl;
        let cosine = begun.cosm * 256 + word.bits;
        head.settings.sine = sine;
        head.settings.cosine = cosine;
        head.motion.mirror = Head::MIRROR_TICKS;
        head.begun = Begun::default();
        head
    }

    // A word of the mirror or the cover.
    fn moved(self, word: Known) -> Head
        requires { sin_m ≤ word.kind }
        ensures { result ≡ after self.head word.kind word.bits }
    {
        if word.kind <= COS_L {
            return self.mirror(word);
        }
        if word.kind == SWITCH {
            return self.head.motor(word.bits);
        }
        self.head.cover(word)
    }

    // The state after a word, whose data are allowed.
    pub(crate) fn applied(self, word: Known) -> Head
        ensures { result ≡ after self.head word.kind word.bits }
    {
        let kind = word.kind;
        if kind <= STOP {
            return self.control(kind);
        }
        if SIN_M <= kind {
            return self.moved(word);
        }
        let voltage = (VDETCOM_M <= kind) & (kind <= VDETADJ_L);
        if voltage {
            return self.voltage(word);
        }
        self.head.set(word)
    }
}
