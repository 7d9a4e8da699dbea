//! The parameters of a trial.
ghost use Rattle.std.specs.Prelude.{◌≡◌, ◌≤◌, true};
ghost use Rattle.segmentation.specs.declared.planning.TheConstants.{MOST_BYTES};
ghost use Rattle.rate_match.specs.Sendings.{AreSendings, common};
ghost use Rattle.rate_match.specs.Fitting.{fits_all};

use block_receive::DecoderLimits;
use rate_match::Sends;
use soft_channel::NoiseChannel;

/// The parameters of a trial: how many blocks, 1 to 4,096, of how many bytes, 1 to 18,722, each sent in which
/// transmissions, whose soft buffer fits them; the channel, from whose seed the payloads come too; and the
/// limits of the decoder.
#[derive(Clone, Copy, Debug)]
pub struct Trial {
    pub blocks: usize,
    pub tb: usize,
    pub sends: Sends,
    pub channel: NoiseChannel,
    pub limits: DecoderLimits,
    pub ghost few_blocks: { blocks ≤ 4096 },
    pub ghost some: { 1 ≤ tb },
    pub ghost few: { tb ≤ MOST_BYTES },
    pub ghost sent: { AreSendings sends },
    pub ghost fits: { fits_all (common sends).limit tb ≡ true },
}
