//! The work of a command, a round at a time.
ghost use Rattle.std.specs.Prelude.{◌≡◌, ◌≤◌, ◌<◌, ℕ, List, [], Some, IfOk, IfErr};
ghost use Rattle.std.specs.declared.option.Option.{Option};
ghost use Rattle.run_loop.specs.Answer.{Answer};
ghost use Rattle.run_loop.specs.Edges.{told};

use crate::Status;
use edge_io::{Sink, Source};
use std::alloc::Global;

/// A part of a command's answer.
#[derive(Debug, Drop)]
pub struct Part {
    /// Its bytes for `out`.
    pub text: Vec<u8>,
    /// Its bytes for the report.
    pub line: Vec<u8>,
    /// The number of input bytes that it takes.
    pub size: usize,
    /// The number of bytes that must be read before this part is final, where the end of the input counts as
    /// one.
    pub wants: usize,
}

/// How a round stops after its parts.
#[derive(Debug, Drop)]
pub enum Stop {
    /// More is to come.
    Go,
    /// The input was read to its end: the closing text of `out`, the report's last line, and whether some
    /// block of the whole run failed.
    End {
        closing: Vec<u8>,
        last: Vec<u8>,
        failed: bool,
    },
    /// The run ends with this status after these parts: the input is refused at a byte, the source failed, or
    /// memory ran out.
    Fails(Status),
}

/// The result of a round: parts in their order, and how it stops after them.
#[derive(Debug, Drop)]
pub struct Round {
    pub parts: Vec<Part>,
    pub stop: Stop,
}

impl Round {
    /// Returns a round without parts.
    pub fn stopped(alloc: Global, stop: Stop) -> Self
        ensures parts { result.parts.items ≡ [] }
        ensures stop { result.stop ≡ stop }
    {
        Round {
            parts: Vec::new(alloc),
            stop,
        }
    }
}

/// The work of a command once it was opened, a round at a time. A round reads one block or several,
/// and they are written before the next round begins.
pub trait Work: Drop {
    ghost use Rattle.edge_io.specs.Edge.{TakesBytes};
    ghost use Rattle.run_loop.specs.Step.{FailsBy, Fewer, Steps, StopsBy};

    // The answer that is still to come, for the input that is left.
    ghost answer: { Self → List ℕ → Answer };

    // Whether a round may be run, whether or not the source's bytes are known.
    ghost ready: { Self → Type 0 } = { λ _. Unit {0} };

    // How many rounds may still come.
    ghost budget: { Self → ℕ };

    /// Reads the input of the next blocks and computes them. All memory that the ending needs is allocated
    /// before its bytes are read. An `Err` is the status of a run that ends in a round without parts: the
    /// input is refused at a byte, the source failed, or memory ran out.
    fn round<S: Source>(&mut self, alloc: Global, source: &mut S) -> Result<Round, Status>
        requires { ready self.old }
        ensures step { (input : List ℕ) → S.left source.old ≡ Some input →
            Steps (answer self.old input) (answer self.new) (S.left source.old) (S.left source.new) result }
        ensures ready { IfOk result (λ round. round.stop ≡ Stop.Go → ready self.new) }
        ensures fewer { IfOk result (λ round. Fewer (budget self.old) (budget self.new) round.stop) }
        ensures moved { TakesBytes (S.left source.old) (S.left source.new) }
        ensures later { S.faults source.old ≤ S.faults source.new }
        ensures stops { IfOk result
            (λ round. StopsBy (S.faults source.old) (S.faults source.new) round.stop) }
        ensures fails { IfErr result (FailsBy (S.faults source.old) (S.faults source.new)) };
}

/// A command that reads a source.
pub trait Open {
    ghost use Rattle.run_loop.specs.Step.{Opens};

    /// Its work once it was opened.
    type Rounds: Work;

    // Its answer to an input.
    ghost answer: { Self → List ℕ → Answer };

    // Whether it may be opened.
    ghost able: { Self → Type 0 } = { λ _. Unit {0} };

    /// Reads a header, if the command has one, and writes the opening text of `out`. It allocates nothing.
    fn open<S: Source, D: Sink>(
        self,
        alloc: Global,
        source: &mut S,
        out: &mut D,
    ) -> Result<Self::Rounds, Status>
        requires { able self }
        ensures opens { (report : Option (List ℕ)) (reports : ℕ) → Opens (answer self) Self.Rounds.answer
            (told (S.left source.old) (D.held out.old) report
            (S.faults source.old) (D.faults out.old) reports)
            (told (S.left source.new) (D.held out.new) report
            (S.faults source.new) (D.faults out.new) reports)
            result }
        ensures ready { IfOk result Self.Rounds.ready };
}
