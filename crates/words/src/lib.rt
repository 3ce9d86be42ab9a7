// The 28 command words of VIRTIS-M, to and from words (document 01, "The words").
#![tactic(auto)]

pub mod groups;
pub mod kinds;
pub mod upper_byte;

ghost use Rattle.std.specs.Prelude.{◌≡◌, ◌<◌};
ghost use Rattle.words.specs.Kinds.{allowed, greatest, identifier, kind_of, least};
ghost use Rattle.words.specs.Codec.{decode_error_number, encode_error_number, meaning_of, decode_of, encode_of, decoded_number, encoded_number, finding_number, encoding_number};

use kinds::{
    ANNEALING, CCD_DELAY, CCD_EXPO, CCD_LAMP, COS_L, COS_M, COVER, HK, IR_DELAY, IR_DETECTOR,
    IR_EXPO, IR_LAMP, IR_WIN_MODE, KINDS, LEAST_CCD_DELAY, MOST_STEPS, NONE, NOP, SHUTTER, SIN_L,
    SIN_M, START, STOP, SWITCH, VDETADJ_L, VDETADJ_M, VDETCOM_L, VDETCOM_M, WIN_X1, WIN_X2, WIN_Y1,
    WIN_Y2,
};

// The identifier of each kind.
const IDENTIFIER: [u16; 28] = [
    0x00, // NOP
    0x20, // START
    0x10, // HK
    0x30, // STOP
    0x36, // IR DETECTOR
    0x24, // IR WIN MODE
    0x34, // VDETCOM M
    0x0C, // VDETCOM L
    0x2C, // VDETADJ M
    0x1C, // VDETADJ L
    0x3C, // IR DELAY
    0x02, // IR EXPO
    0x0A, // WIN X1
    0x2A, // WIN Y1
    0x1A, // WIN X2
    0x3A, // WIN Y2
    0x06, // CCD DELAY
    0x26, // CCD EXPO
    0x16, // CCD LAMP
    0x22, // IR LAMP
    0x32, // SHUTTER
    0x12, // ANNEALING
    0x08, // SIN M
    0x28, // SIN L
    0x18, // COS M
    0x38, // COS L
    0x14, // SWITCH
    0x04, // COVER
];

// A known kind, and data that it allows.
#[derive(Clone, Copy, Debug, PartialEq, Eq)]
pub struct Word {
    pub kind: u8,
    pub bits: u16,
}

// Why a word means nothing: its identifier is no kind's, or the kind does not allow its data.
#[derive(Clone, Copy, Debug, PartialEq, Eq)]
pub enum DecodeError {
    Unknown,
    OutOfRange { kind: u8 },
}

// Why a kind and its data have no word: the kind does not allow the data.
#[derive(Clone, Copy, Debug, PartialEq, Eq)]
pub enum EncodeError {
    OutOfRange,
}

// Document 01's numbers.
impl DecodeError {
    #[tactic(auto, unfolding(crate::specs::Codec::decode_error_number))]
    pub fn number(self) -> u8
        ensures { result ≡ decode_error_number self }
    {
        match self {
            DecodeError::Unknown => 23,
            DecodeError::OutOfRange { kind: _ } => 24,
        }
    }
}

impl EncodeError {
    #[tactic(auto, unfolding(crate::specs::Codec::encode_error_number))]
    pub fn number(self) -> u8
        ensures { result ≡ encode_error_number self }
    {
        match self {
            EncodeError::OutOfRange => 24,
        }
    }
}

// The least data of each kind.
fn least(kind: u8) -> u16
    requires { kind < 28 }
    ensures { result ≡ least kind }
{
    if kind == CCD_DELAY {
        LEAST_CCD_DELAY
    } else {
        0
    }
}

// The greatest data of each kind.
#[tactic(auto, using(crate::proofs::Allowed::greatest_at, crate::proofs::Allowed::greatest_last), unfolding(crate::specs::Kinds::greatest))]
fn greatest(kind: u8) -> u16
    requires { kind < 28 }
    ensures { result ≡ greatest kind }
{
    match kind {
        NOP => 0x0,
        START => 0x0,
        HK => 0x0,
        STOP => 0x0,
        IR_DETECTOR => 0x1,
        IR_WIN_MODE => 0x1,
        VDETCOM_M => 0xF,
        VDETCOM_L => 0xFF,
        VDETADJ_M => 0xF,
        VDETADJ_L => 0xFF,
        IR_DELAY => 0x3FF,
        IR_EXPO => 0x3FF,
        WIN_X1 => 0x3FF,
        WIN_Y1 => 0x1FF,
        WIN_X2 => 0x3FF,
        WIN_Y2 => 0x1FF,
        CCD_DELAY => 0x3FF,
        CCD_EXPO => 0x3FF,
        CCD_LAMP => 0x7,
        IR_LAMP => 0x1F,
        SHUTTER => 0x1F,
        ANNEALING => 0x7F,
        SIN_M => 0x1F,
        SIN_L => 0xFF,
        COS_M => 0xF,
        COS_L => 0xFF,
        SWITCH => 0x1,
        _ => 0x3FF, // COVER
    }
}

// Whether a word of this kind may hold these data. A number that is no kind allows none: a kind is a number here and below, since callers,
// C among them, may pass any.
pub fn allows(kind: u8, bits: u16) -> bool
    ensures { result ≡ allowed kind bits }
{
    if KINDS <= kind {
        return false;
    }
    let steps = (kind != COVER) | (bits % 128 <= MOST_STEPS);
    (least(kind) <= bits) & (bits <= greatest(kind)) & steps
}

// The kind of a word's identifier; NONE where no kind has it.
#[tactic(auto, using(crate::proofs::Codec::kind_at, crate::proofs::Codec::no_kind), unfolding(crate::specs::Kinds::kind_of, crate::specs::Kinds::kind_from, crate::specs::Kinds::rows))]
pub fn kind_of(word: u16) -> u8
    ensures { result ≡ kind_of (identifier word) }
{
    match word / 1024 {
        0x00 => NOP,
        0x02 => IR_EXPO,
        0x04 => COVER,
        0x06 => CCD_DELAY,
        0x08 => SIN_M,
        0x0A => WIN_X1,
        0x0C => VDETCOM_L,
        0x10 => HK,
        0x12 => ANNEALING,
        0x14 => SWITCH,
        0x16 => CCD_LAMP,
        0x18 => COS_M,
        0x1A => WIN_X2,
        0x1C => VDETADJ_L,
        0x20 => START,
        0x22 => IR_LAMP,
        0x24 => IR_WIN_MODE,
        0x26 => CCD_EXPO,
        0x28 => SIN_L,
        0x2A => WIN_Y1,
        0x2C => VDETADJ_M,
        0x30 => STOP,
        0x32 => SHUTTER,
        0x34 => VDETCOM_M,
        0x36 => IR_DETECTOR,
        0x38 => COS_L,
        0x3A => WIN_Y2,
        0x3C => IR_DELAY,
        _ => NONE,
    }
}

// What the data of a word mean under the kind of its identifier; NONE has no words.
fn meaning(kind: u8, bits: u16) -> Result<Word, DecodeError>
    ensures { result ≡ meaning_of kind bits }
{
    if KINDS <= kind {
        return Err(DecodeError::Unknown);
    }
    if allows(kind, bits) {
        Ok(Word { kind, bits })
    } else {
        Err(DecodeError::OutOfRange { kind })
    }
}

// It says its three outcomes itself: through `meaning` it takes 62.7 instructions and not 41.6, and a word of the head 300.7 and not 279.7.
pub fn decode(word: u16) -> Result<Word, DecodeError>
    ensures value { result ≡ decode_of word }
    ensures result_value { decoded_number result ≡ finding_number word }
{
    let kind = kind_of(word);
    if KINDS <= kind {
        return Err(DecodeError::Unknown);
    }
    let bits = word % 1024;
    if allows(kind, bits) {
        Ok(Word { kind, bits })
    } else {
        Err(DecodeError::OutOfRange { kind })
    }
}

pub fn encode(kind: u8, bits: u16) -> Result<u16, EncodeError>
    ensures value { result ≡ encode_of kind bits }
    ensures result_value { encoded_number result ≡ encoding_number kind bits }
{
    if allows(kind, bits) {
        Ok(IDENTIFIER[kind as usize] * 1024 + bits)
    } else {
        Err(EncodeError::OutOfRange)
    }
}
