// The second decoder: the kind of a word by its upper byte (document 02, request P2).
ghost use Rattle.std.specs.Prelude.{◌≡◌};
ghost use Rattle.words.specs.Codec.{decode_of, decoded_number, finding_number};
ghost use Rattle.words.specs.UpperByte.{kind_of_byte};

use crate::kinds::{
    ANNEALING, CCD_DELAY, CCD_EXPO, CCD_LAMP, COS_L, COS_M, COVER, HK, IR_DELAY, IR_DETECTOR,
    IR_EXPO, IR_LAMP, IR_WIN_MODE, NONE, NOP, SHUTTER, SIN_L, SIN_M, START, STOP, SWITCH,
    VDETADJ_L, VDETADJ_M, VDETCOM_L, VDETCOM_M, WIN_X1, WIN_X2, WIN_Y1, WIN_Y2,
};
use crate::{DecodeError, Word, meaning};

// The kind of the words with each upper byte, or NONE where no kind has their identifier. Four bytes in a row have the same identifier.
const KIND_OF_BYTE: [u8; 256] = [
    // 00 to 0F: NOP, none, IR EXPO, none
    NOP, // 00
    NOP, // 01
    NOP, // 02
    NOP, // 03
    NONE, // 04
    NONE, // 05
    NONE, // 06
    NONE, // 07
    IR_EXPO, // 08
    IR_EXPO, // 09
    IR_EXPO, // 0A
    IR_EXPO, // 0B
    NONE, // 0C
    NONE, // 0D
    NONE, // 0E
    NONE, // 0F
    // 10 to 1F: COVER, none, CCD DELAY, none
    COVER, // 10
    COVER, // 11
    COVER, // 12
    COVER, // 13
    NONE, // 14
    NONE, // 15
    NONE, // 16
    NONE, // 17
    CCD_DELAY, // 18
    CCD_DELAY, // 19
    CCD_DELAY, // 1A
    CCD_DELAY, // 1B
    NONE, // 1C
    NONE, // 1D
    NONE, // 1E
    NONE, // 1F
    // 20 to 2F: SIN M, none, WIN X1, none
    SIN_M, // 20
    SIN_M, // 21
    SIN_M, // 22
    SIN_M, // 23
    NONE, // 24
    NONE, // 25
    NONE, // 26
    NONE, // 27
    WIN_X1, // 28
    WIN_X1, // 29
    WIN_X1, // 2A
    WIN_X1, // 2B
    NONE, // 2C
    NONE, // 2D
    NONE, // 2E
    NONE, // 2F
    // 30 to 3F: VDETCOM L, none, none, none
    VDETCOM_L, // 30
    VDETCOM_L, // 31
    VDETCOM_L, // 32
    VDETCOM_L, // 33
    NONE, // 34
    NONE, // 35
    NONE, // 36
    NONE, // 37
    NONE, // 38
    NONE, // 39
    NONE, // 3A
    NONE, // 3B
    NONE, // 3C
    NONE, // 3D
    NONE, // 3E
    NONE, // 3F
    // 40 to 4F: HK, none, ANNEALING, none
    HK, // 40
    HK, // 41
    HK, // 42
    HK, // 43
    NONE, // 44
    NONE, // 45
    NONE, // 46
    NONE, // 47
    ANNEALING, // 48
    ANNEALING, // 49
    ANNEALING, // 4A
    ANNEALING, // 4B
    NONE, // 4C
    NONE, // 4D
    NONE, // 4E
    NONE, // 4F
    // 50 to 5F: SWITCH, none, CCD LAMP, none
    SWITCH, // 50
    SWITCH, // 51
    SWITCH, // 52
    SWITCH, // 53
    NONE, // 54
    NONE, // 55
    NONE, // 56
    NONE, // 57
    CCD_LAMP, // 58
    CCD_LAMP, // 59
    CCD_LAMP, // 5A
    CCD_LAMP, // 5B
    NONE, // 5C
    NONE, // 5D
    NONE, // 5E
    NONE, // 5F
    // 60 to 6F: COS M, none, WIN X2, none
    COS_M, // 60
    COS_M, // 61
    COS_M, // 62
    COS_M, // 63
    NONE, // 64
    NONE, // 65
    NONE, // 66
    NONE, // 67
    WIN_X2, // 68
    WIN_X2, // 69
    WIN_X2, // 6A
    WIN_X2, // 6B
    NONE, // 6C
    NONE, // 6D
    NONE, // 6E
    NONE, // 6F
    // 70 to 7F: VDETADJ L, none, none, none
    VDETADJ_L, // 70
    VDETADJ_L, // 71
    VDETADJ_L, // 72
    VDETADJ_L, // 73
    NONE, // 74
    NONE, // 75
    NONE, // 76
    NONE, // 77
    NONE, // 78
    NONE, // 79
    NONE, // 7A
    NONE, // 7B
    NONE, // 7C
    NONE, // 7D
    NONE, // 7E
    NONE, // 7F
    // 80 to 8F: START, none, IR LAMP, none
    START, // 80
    START, // 81
    START, // 82
    START, // 83
    NONE, // 84
    NONE, // 85
    NONE, // 86
    NONE, // 87
    IR_LAMP, // 88
    IR_LAMP, // 89
    IR_LAMP, // 8A
    IR_LAMP, // 8B
    NONE, // 8C
    NONE, // 8D
    NONE, // 8E
    NONE, // 8F
    // 90 to 9F: IR WIN MODE, none, CCD EXPO, none
    IR_WIN_MODE, // 90
    IR_WIN_MODE, // 91
    IR_WIN_MODE, // 92
    IR_WIN_MODE, // 93
    NONE, // 94
    NONE, // 95
    NONE, // 96
    NONE, // 97
    CCD_EXPO, // 98
    CCD_EXPO, // 99
    CCD_EXPO, // 9A
    CCD_EXPO, // 9B
    NONE, // 9C
    NONE, // 9D
    NONE, // 9E
    NONE, // 9F
    // A0 to AF: SIN L, none, WIN Y1, none
    SIN_L, // A0
    SIN_L, // A1
    SIN_L, // A2
    SIN_L, // A3
    NONE, // A4
    NONE, // A5
    NONE, // A6
    NONE, // A7
    WIN_Y1, // A8
    WIN_Y1, // A9
    WIN_Y1, // AA
    WIN_Y1, // AB
    NONE, // AC
    NONE, // AD
    NONE, // AE
    NONE, // AF
    // B0 to BF: VDETADJ M, none, none, none
    VDETADJ_M, // B0
    VDETADJ_M, // B1
    VDETADJ_M, // B2
    VDETADJ_M, // B3
    NONE, // B4
    NONE, // B5
    NONE, // B6
    NONE, // B7
    NONE, // B8
    NONE, // B9
    NONE, // BA
    NONE, // BB
    NONE, // BC
    NONE, // BD
    NONE, // BE
    NONE, // BF
    // C0 to CF: STOP, none, SHUTTER, none
    STOP, // C0
    STOP, // C1
    STOP, // C2
    STOP, // C3
    NONE, // C4
    NONE, // C5
    NONE, // C6
    NONE, // C7
    SHUTTER, // C8
    SHUTTER, // C9
    SHUTTER, // CA
    SHUTTER, // CB
    NONE, // CC
    NONE, // CD
    NONE, // CE
    NONE, // CF
    // D0 to DF: VDETCOM M, none, IR DETECTOR, none
    VDETCOM_M, // D0
    VDETCOM_M, // D1
    VDETCOM_M, // D2
    VDETCOM_M, // D3
    NONE, // D4
    NONE, // D5
    NONE, // D6
    NONE, // D7
    IR_DETECTOR, // D8
    IR_DETECTOR, // D9
    IR_DETECTOR, // DA
    IR_DETECTOR, // DB
    NONE, // DC
    NONE, // DD
    NONE, // DE
    NONE, // DF
    // E0 to EF: COS L, none, WIN Y2, none
    COS_L, // E0
    COS_L, // E1
    COS_L, // E2
    COS_L, // E3
    NONE, // E4
    NONE, // E5
    NONE, // E6
    NONE, // E7
    WIN_Y2, // E8
    WIN_Y2, // E9
    WIN_Y2, // EA
    WIN_Y2, // EB
    NONE, // EC
    NONE, // ED
    NONE, // EE
    NONE, // EF
    // F0 to FF: IR DELAY, none, none, none
    IR_DELAY, // F0
    IR_DELAY, // F1
    IR_DELAY, // F2
    IR_DELAY, // F3
    NONE, // F4
    NONE, // F5
    NONE, // F6
    NONE, // F7
    NONE, // F8
    NONE, // F9
    NONE, // FA
    NONE, // FB
    NONE, // FC
    NONE, // FD
    NONE, // FE
    NONE, // FF
];

// The kind of the words with this upper byte; NONE where they have none.
pub fn kind_of_byte(byte: u8) -> u8
    ensures { result ≡ kind_of_byte byte }
{
    KIND_OF_BYTE[byte as usize]
}

// Unknown, out of range and a word as in the first decoder, by the same judging of data.
pub fn decode_by_byte(word: u16) -> Result<Word, DecodeError>
    ensures value { result ≡ decode_of word }
    ensures result_value { decoded_number result ≡ finding_number word }
{
    meaning(kind_of_byte((word / 256) as u8), word % 1024)
}
