//! How the transmissions of a block are given: G, Q_m, the redundancy version, N_L, the bytes of the greatest
//! payload, and N_IR, which is 0 for a full buffer.
use crate::rules::{Form, Name, Range, Rule, for_transmissions, rule};

pub const G_NUMBER: Rule = rule!(G, Number, Between(1, 1_000_000), None);

pub const QM_NUMBER: Rule = rule!(Qm, Number, Even(2, 6), None);

pub const RV_OF_ONE: Rule = rule!(Rv, ListOfOne, Between(0, 3), None);

pub const NL_NUMBER: Rule = rule!(Nl, Number, Between(1, 2), Some(1));

pub const TB_NUMBER: Rule = rule!(Tb, Number, Between(1, 18_722), None);

pub const NIR_NUMBER: Rule = rule!(Nir, Number, Between(0, 1_000_000), Some(0));

// The same with a number for each transmission.
pub const G_LIST: Rule = for_transmissions!(G_NUMBER);

pub const QM_LIST: Rule = for_transmissions!(QM_NUMBER);

pub const RV_LIST: Rule = for_transmissions!(RV_OF_ONE);

pub const NL_LIST: Rule = for_transmissions!(NL_NUMBER);
