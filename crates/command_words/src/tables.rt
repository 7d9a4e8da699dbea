//! The operands of each command: for each name the form of its numbers, their range, and the default.
use crate::rules::{Form, Name, Range, Rule, rule};
use crate::transmission_tables::{
    G_LIST, G_NUMBER, NIR_NUMBER, NL_LIST, NL_NUMBER, QM_LIST, QM_NUMBER, RV_LIST, RV_OF_ONE,
    TB_NUMBER,
};

// The decoding: the most windows of a code block and the most iterations, and the threads that decode a code
// block, or transport blocks.
pub const WINDOWS_NUMBER: Rule = rule!(Windows, Number, Between(1, 64), Some(8));

pub const LIMIT_NUMBER: Rule = rule!(Limit, Number, Between(1, 16), Some(8));

pub const WORKERS_NUMBER: Rule = rule!(Workers, Number, Between(1, 16), Some(1));

pub const PIPES_NUMBER: Rule = rule!(Pipes, Number, Between(1, 8), Some(2));

// The channel: the soft value of a bit 0, the strength of the noise, and the seed of all random draws.
pub const AMP_NUMBER: Rule = rule!(Amp, Number, Between(1, 127), None);

pub const NOISE_NUMBER: Rule = rule!(Noise, Number, Between(0, 127), None);

pub const SEED_NUMBER: Rule = rule!(Seed, Number, Between(0, 18_446_744_073_709_551_615), None);

// The blocks of a trial.
pub const BLOCKS_NUMBER: Rule = rule!(Blocks, Number, Between(1, 4_096), None);

// Scrambling: n_RNTI, q, n_s and the cell's identity of 36.211 6.3.1.
pub const RNTI_NUMBER: Rule = rule!(Rnti, Number, Between(0, 65_535), None);

pub const Q_NUMBER: Rule = rule!(Q, Number, Between(0, 1), None);

pub const SLOT_NUMBER: Rule = rule!(Slot, Number, Between(0, 19), None);

pub const CELL_NUMBER: Rule = rule!(Cell, Number, Between(0, 503), None);

/// The operands of `codeword`.
pub const CODEWORD: [Rule; 3] = [G_NUMBER, QM_NUMBER, RV_OF_ONE];

/// The operands of `encode`.
pub const ENCODE: [Rule; 6] = [TB_NUMBER, G_LIST, QM_LIST, RV_LIST, NL_LIST, NIR_NUMBER];

/// The operands of `decode`.
pub const DECODE: [Rule; 3] = [WINDOWS_NUMBER, LIMIT_NUMBER, WORKERS_NUMBER];

/// The operands of `batch`.
pub const BATCH: [Rule; 3] = [WINDOWS_NUMBER, LIMIT_NUMBER, PIPES_NUMBER];

/// The operands of `channel` and `points`.
pub const CHANNEL: [Rule; 3] = [AMP_NUMBER, NOISE_NUMBER, SEED_NUMBER];

/// The operands of `upgrade`.
pub const UPGRADE: [Rule; 0] = [];

/// The operands of `trial`.
pub const TRIAL: [Rule; 12] = [
    SEED_NUMBER,
    BLOCKS_NUMBER,
    TB_NUMBER,
    G_NUMBER,
    QM_NUMBER,
    RV_LIST,
    NL_NUMBER,
    NIR_NUMBER,
    AMP_NUMBER,
    NOISE_NUMBER,
    WINDOWS_NUMBER,
    LIMIT_NUMBER,
];

/// The operands of `scramble`.
pub const SCRAMBLE: [Rule; 4] = [RNTI_NUMBER, Q_NUMBER, SLOT_NUMBER, CELL_NUMBER];
