// The fields of the status words, each with its lowest bit and its width in document 01's numbering, beside the names of source
// document 000's drawing. The rows are numbered as the values of the fields are.
use bitfields::Field;

// A table of rows [lowest bit, width].
macro_rules! rows {
    ($([$lowest:expr, $width:expr],)*) => {
        [$(Field { lowest: $lowest, width: $width }),*]
    };
}

// M_IR_LAMP_SHUTTER
pub(crate) const LAMP_SHUTTER: [Field; 4] = rows![
    [0, 4], // 0 M_IR_LAMP_CURR: lamp current
    [4, 1], // 1 M_IR_LAMP_ST: lamp on
    [8, 4], // 2 M_SHUTTER_CURR: shutter current
    [12, 1], // 3 M_SHUTTE_ST: closed
];

// M_MIRROR_SIN_HK
pub(crate) const SINE: [Field; 2] = rows![
    [0, 12], // 0 V: magnitude
    [12, 1], // 1 S: sign
];

// M_IR_FLAG_ST
pub(crate) const IR_FLAGS: [Field; 11] = rows![
    [0, 1], // 0 M_IR_SCAN_FLAG: after an acquisition
    [1, 1], // 1 M_IR_H/K_FLAG: always set
    [2, 1], // 2 M_IR_CMD_TIME_ERROR: time
    [3, 1], // 3 M_IR_CMD_WORD_ERROR: word
    [4, 1], // 4 M_SCAN_CMD_WORD_ERROR: scan
    [5, 1], // 5 M_IR_DETECT_ST: detector
    [6, 1], // 6 M_IR_ADC_LTC: latch-up
    [9, 1], // 7 M_IR_ANN_ST: annealing
    [12, 1], // 8 M_COVER_ST: cover direction
    [13, 1], // 9 M_COVER_ST, HES1: not closed
    [14, 1], // 10 M_COVER_ST, HES2: not open
];

// M_VIS_FLAG_ST
pub(crate) const VIS_FLAGS: [Field; 6] = rows![
    [0, 1], // 0 M_CCD_SCAN_FLAG: after an acquisition
    [1, 1], // 1 M_VIS_H/K_FLAG: always set
    [2, 1], // 2 M_VIS_CMD_TIME_ERROR: time
    [3, 1], // 3 M_VIS_CMD_WORD_ERROR: word
    [4, 1], // 4 M_VIS_ADC_LTC: latch-up
    [8, 1], // 5 M_CCD_LAMP_ST: CCD lamp
];

// The value of M_IR_H/K_FLAG and of M_VIS_H/K_FLAG.
pub(crate) const ALWAYS_SET: u16 = 1;
