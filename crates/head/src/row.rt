// A state as a row of 35 numbers, in the order of its fields, and the registers among them.
ghost use Rattle.std.specs.Prelude.{◌≡◌};
ghost use Rattle.head.specs.Row.{register_numbers, settings_of, numbers_of};

use crate::state::{Head, Settings};

impl Settings {
    pub fn numbers(self) -> [u16; 20]
        ensures { result ≡ register_numbers self }
    {
        [
            self.detector,
            self.mode,
            self.vdetcom,
            self.vdetadj,
            self.irdelay,
            self.irexpo,
            self.ccddelay,
            self.ccdexpo,
            self.x1,
            self.y1,
            self.x2,
            self.y2,
            self.ccdlamp,
            self.irlamp,
            self.shutter,
            self.annealing,
            self.sine,
            self.cosine,
            self.switch,
            self.direction,
        ]
    }
}

// The registers that a row stands for, in range or not.
impl From<[u16; 20]> for Settings {
    ghost from_gives = { λ row settings. settings ≡ settings_of row };

    fn from(row: [u16; 20]) -> Settings {
        Settings {
            detector: row[0],
            mode: row[1],
            vdetcom: row[2],
            vdetadj: row[3],
            irdelay: row[4],
            irexpo: row[5],
            ccddelay: row[6],
            ccdexpo: row[7],
            x1: row[8],
            y1: row[9],
            x2: row[10],
            y2: row[11],
            ccdlamp: row[12],
            irlamp: row[13],
            shutter: row[14],
            annealing: row[15],
            sine: row[16],
            cosine: row[17],
            switch: row[18],
            direction: row[19],
        }
    }
}

impl Head {
    #[tactic(auto, unfolding(crate::specs::Row::numbers_of))]
    pub fn numbers(self) -> [u16; 35]
        ensures { result ≡ numbers_of self }
    {
        let mut row = [0; 35];
        row[..20].copy_from_slice(&self.settings.numbers());
        row[20..].copy_from_slice(&[
            self.latches.vdetcom,
            self.latches.vdetadj,
            self.flags.irtime,
            self.flags.irword,
            self.flags.scan,
            self.flags.vistime,
            self.flags.visword,
            self.work.task,
            self.work.busy,
            self.motion.mirror,
            self.motion.cover,
            self.begun.count,
            self.begun.sinm,
            self.begun.sinl,
            self.begun.cosm,
        ]);
        row
    }
}
