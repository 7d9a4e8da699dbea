//! Laws of converted streams. Each function computes nothing: its contract is the law.
ghost use Rattle.std.specs.Prelude.{◌≡◌, ℕ, ◌<◌, List};
ghost use Rattle.model_sender.specs.CircularBuffer.{Match};
ghost use Rattle.rate_match.specs.Matching.{IsMatch};
ghost use Rattle.soft_channel.specs.Channel.{NoiseChannel};
ghost use Rattle.coded_stream.specs.Header.{Header};
ghost use Rattle.coded_stream.specs.Blocks.{Block, IsBlock, IsTransmission, block_text};
ghost use Rattle.coded_stream.specs.Opening.{opening};
ghost use Rattle.coded_stream.specs.Stream.{AreBytes};
ghost use Rattle.coded_stream.specs.declared.kind.Kind.TheVariants as kind;
ghost use Rattle.coded_stream.specs.declared.kind.Want.TheVariants as want;
ghost use Rattle.stream_loop.specs.Handling.{stream_answer};
ghost use Rattle.command_relay.specs.Channel.{channel, noisy_text};
ghost use Rattle.command_relay.specs.Points.{points, received_text, HasTwoBitsAPoint};
ghost use Rattle.command_relay.specs.Conversions.{converted};
ghost use Rattle.command_relay.specs.Upgrade.{as_read};

/// An upgraded stream has the very blocks that were read.
pub fn an_upgrade_keeps_the_blocks()
    ensures { (h : Header) (number : ℕ) (b : Block) → IsBlock h b →
        (converted as_read h number b).text ≡ block_text b }
{}

/// A transmission of two bits a point is sent by `points` just as by `channel`.
pub fn two_bits_a_point_are_sent_as_by_themselves()
    ensures { (c : NoiseChannel) (h : Header) (block number : ℕ) (m : Match) (bytes : List ℕ) →
        0 < c.amp → m.qm ≡ 2 → IsMatch m → IsTransmission kind.Hard m.g bytes →
        received_text c h block number m bytes ≡ noisy_text c h block number m bytes }
{}

/// Where each transmission of a stream has two bits a point, `points` answers just what `channel`
/// does.
pub fn streams_of_two_bits_a_point_are_sent_as_by_themselves()
    ensures { (c : NoiseChannel) (input : List ℕ) → 0 < c.amp → AreBytes input →
        HasTwoBitsAPoint (opening want.Hard input) →
        stream_answer (points c) input ≡ stream_answer (channel c) input }
{}
