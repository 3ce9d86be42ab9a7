// The requests, numbered in the order of source document 000's table: the code and the least and the greatest value of each.
ghost use Rattle.std.specs.Prelude.{◌≡◌};
ghost use Rattle.requests.specs.Requests.{rows, allows};
ghost use Rattle.requests.specs.Codec.{is_word_of};

pub const REQUESTS: usize = 32;

// A request's code, and the least and the greatest value of its parameter.
#[derive(Clone, Copy)]
pub(crate) struct Row {
    pub(crate) code: u16,
    pub(crate) least: u16,
    pub(crate) most: u16,
}

impl Row {
    // Whether the row allows a value.
    pub(crate) fn is_allowed(self, value: u16) -> bool
        ensures { result ≡ allows self value }
    {
        (self.least <= value) & (value <= self.most)
    }

    // Whether the word with a code and a parameter is one of the row's.
    pub(crate) fn is_word_of(self, code: u16, value: u16) -> bool
        ensures { result ≡ is_word_of self code value }
    {
        (self.code == code) & self.is_allowed(value)
    }
}

// A table of rows [code, least, most].
macro_rules! rows {
    ($([$code:expr, $least:expr, $most:expr],)*) => {
        [$(Row { code: $code, least: $least, most: $most }),*]
    };
}

const TABLE: [Row; REQUESTS] = rows![
    [0b001000, 0, 255], // 0 HSET_Bias
    [0b001001, 0, 255], // 1 HSET_I_Lamp_Spect_T
    [0b001001, 0, 255], // 2 HSET_I_Lamp_Spect_S
    [0b001001, 0, 255], // 3 HSET_I_Lamp_Radio
    [0b001010, 0, 255], // 4 HSET_I_Shutter
    [0b010100, 0, 1023], // 5 HSET_Int_Num1
    [0b010101, 0, 255], // 6 HSET_Int_Num2
    [0b001110, 0, 0], // 7 HINIT_Pix_Map_Upld
    [0b001110, 0, 0], // 8 HINIT_Pix_Map_Dnld
    [0b001100, 0, 255], // 9 HSET_Pix_Map_Data
    [0b001101, 0, 0], // 10 HDNLD_Pix_Map_Data
    [0b011010, 0, 3], // 11 HSET_PEM_Mode
    [0b000000, 0, 0], // 12 HNOP
    [0b000001, 0, 0], // 13 HSTART_S
    [0b000010, 0, 0], // 14 HSTART_HK
    [0b000011, 0, 0], // 15 HSTOP_Readout
    [0b001000, 0, 0], // 16 HRESYNC
    [0b010001, 1, 1], // 17 HSET_Det/On
    [0b010001, 0, 0], // 18 HSET_Det/Off
    [0b011011, 1, 1], // 19 HSET_Shutter/On
    [0b011011, 0, 0], // 20 HSET_Shutter/Off
    [0b011111, 0, 1], // 21 HSET_Shutter_Status
    [0b011100, 1, 1], // 22 HSET_FPA_Htr/On
    [0b011100, 0, 0], // 23 HSET_FPA_Htr/Off
    [0b011101, 1, 1], // 24 HSET_Lamp_Spect_T/On
    [0b011101, 2, 2], // 25 HSET_Lamp_Spect_S/On
    [0b011101, 4, 4], // 26 HSET_Lamp_Radio/On
    [0b011101, 0, 0], // 27 HSET_Cal/Off
    [0b011110, 1, 1], // 28 HSET_Det_Temp/On
    [0b011110, 0, 0], // 29 HSET_Det_Temp/Off
    [0b010010, 0, 1023], // 30 HSET_Cover
    [0b010011, 0, 1023], // 31 HSET_Test_Init
];

pub(crate) fn table() -> [Row; REQUESTS]
    ensures { result ≡ rows }
{
    TABLE
}
