//! The operands of each command: for each name the form of its numbers, their range, and the default.
ghost use Rattle.std.specs.Prelude.{◌≡◌, ◌<◌, ◌^◌, ◌≤◌, IsTrue};
ghost use Rattle.command_words.specs.Rules.{name_text, most, in_range, in_form};

/// The names of operands.
#[derive(Clone, Copy, Debug, PartialEq, Eq)]
pub enum Name {
    /// The greatest payload in bytes.
    Tb,
    /// G.
    G,
    /// Q_m.
    Qm,
    /// The redundancy version.
    Rv,
    /// N_L.
    Nl,
    /// N_IR, 0 for a full buffer.
    Nir,
    /// The maximum number of windows of a code block.
    Windows,
    /// The maximum number of iterations.
    Limit,
    /// The threads that decode a code block.
    Workers,
    /// The threads that decode transport blocks.
    Pipes,
    /// The soft value of a bit 0.
    Amp,
    /// The strength of the noise.
    Noise,
    /// The seed of the generator.
    Seed,
    /// The blocks of a trial.
    Blocks,
    /// The receiver's identity, n_RNTI.
    Rnti,
    /// The codeword's number, q.
    Q,
    /// The slot in the radio frame, n_s.
    Slot,
    /// The cell's identity.
    Cell,
}

impl Name {
    pub fn text(self) -> &'static str
        ensures { result.now ≡ name_text self }
    {
        match self {
            Name::Tb => "tb",
            Name::G => "g",
            Name::Qm => "qm",
            Name::Rv => "rv",
            Name::Nl => "nl",
            Name::Nir => "nir",
            Name::Windows => "windows",
            Name::Limit => "limit",
            Name::Workers => "workers",
            Name::Pipes => "pipes",
            Name::Amp => "amp",
            Name::Noise => "noise",
            Name::Seed => "seed",
            Name::Blocks => "blocks",
            Name::Rnti => "rnti",
            Name::Q => "q",
            Name::Slot => "slot",
            Name::Cell => "cell",
        }
    }
}

/// How numbers are spelt.
#[derive(Clone, Copy, Debug, PartialEq, Eq)]
pub enum Form {
    /// A number.
    Number,
    /// A list of exactly one number.
    ListOfOne,
    /// A list of one to eight numbers, one for each transmission of a block.
    ForTransmissions,
}

impl Form {
    /// Returns the maximum count of numbers.
    pub fn most(self) -> usize
        ensures value { result ≡ most self }
        ensures few { result ≤ 8 }
    {
        match self {
            Form::Number | Form::ListOfOne => 1,
            Form::ForTransmissions => 8,
        }
    }
}

/// Which numbers are accepted.
#[derive(Clone, Copy, Debug, PartialEq, Eq)]
pub enum Range {
    Between { least: u64, greatest: u64 },
    Even { least: u64, greatest: u64 },
}

impl Range {
    pub fn has(self, number: u128) -> bool
        ensures value { result ≡ in_range self number }
        ensures small { IsTrue result → number < 2 ^ 64 }
    {
        match self {
            Range::Between { least, greatest } => {
                (u128::from(least)..=u128::from(greatest)).contains(&number)
            }
            Range::Even { least, greatest } => {
                (u128::from(least)..=u128::from(greatest)).contains(&number) && number % 2 == 0
            }
        }
    }
}

/// An operand of a command.
#[derive(Clone, Copy, Debug, PartialEq, Eq)]
pub struct Rule {
    pub name: Name,
    pub form: Form,
    pub range: Range,
    /// The default, or `None` if the operand is required.
    pub default: Option<u64>,
}

impl Rule {
    /// Returns the same rule for numbers in another form.
    pub fn in_form(self, form: Form) -> Rule
        ensures { result ≡ in_form form self }
    {
        Rule { form, ..self }
    }
}

// A rule by its name, its form, its range and its default. A macro, since a constant calls no function.
macro_rules! rule {
    ($name:ident, $form:ident, $range:ident($least:expr, $greatest:expr), $default:expr) => {
        Rule {
            name: Name::$name,
            form: Form::$form,
            range: Range::$range {
                least: $least,
                greatest: $greatest,
            },
            default: $default,
        }
    };
}

pub(crate) use rule;

// The same rule for the numbers of the transmissions of a block.
macro_rules! for_transmissions {
    ($rule:expr) => {
        Rule {
            form: Form::ForTransmissions,
            ..$rule
        }
    };
}

pub(crate) use for_transmissions;
