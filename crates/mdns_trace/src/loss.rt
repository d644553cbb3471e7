//! What a capture lost, and what to do about it.

ghost use Rattle.std.specs.{Prelude.{◌≡◌, ◌++◌, OnOk, string_bytes}, List.{flat_map}};
ghost use Rattle.mdns_trace.specs.Loss.{cure_of, loss_text, lost_to, words_of};

use mdns_capture::Cause;
use mdns_message::Want;
use mdns_survey::outcome::SkipReason;
use mdns_survey::reading::Reading;

/// What packets are lost to.
#[derive(Clone, Copy)]
pub(crate) enum Loss {
    /// The check that their frames fail first.
    Check(Cause),
    /// Damage of their messages, of any kind.
    Damage,
}

/// The losses in their order.
pub(crate) const LOSSES: &[Loss] = &[
    Loss::Check(Cause::EthernetCut),
    Loss::Check(Cause::VlanTag),
    Loss::Check(Cause::HeaderCut),
    Loss::Check(Cause::IpHeader),
    Loss::Check(Cause::TotalLength),
    Loss::Check(Cause::DatagramCut),
    Loss::Check(Cause::Fragment),
    Loss::Check(Cause::FragmentHeader),
    Loss::Check(Cause::UdpLength),
    Loss::Damage,
];

impl Loss {
    /// Returns how many packets of a capture were lost to it.
    pub(crate) fn count(self, reading: &Reading) -> u32
        ensures { result ≡ lost_to self reading.now }
    {
        match self {
            Loss::Check(cause) => reading.skips.count(SkipReason::Frame(cause)),
            Loss::Damage => reading.summary.tally.refused,
        }
    }

    /// Returns it in words.
    pub(crate) fn words(self) -> &'static str
        ensures { result.now ≡ words_of self }
    {
        match self {
            Loss::Check(cause) => SkipReason::Frame(cause).words(),
            Loss::Damage => "refused",
        }
    }

    /// Returns in words what to do about it.
    pub(crate) fn cure(self) -> &'static str
        ensures { result.now ≡ cure_of self }
    {
        match self {
            Loss::Check(Cause::EthernetCut | Cause::HeaderCut | Cause::DatagramCut) => {
                "bytes are missing, record with tcpdump -s 0"
            }
            Loss::Check(Cause::VlanTag) => {
                "take one VLAN: tcpdump --nano -r FILE -w TAGGED vlan ID; then editcap -F nsecpcap -L -C 12:4 TAGGED NEW"
            }
            Loss::Check(Cause::IpHeader | Cause::TotalLength | Cause::UdpLength) => {
                "a broken sender, or a damaged capture"
            }
            Loss::Check(Cause::Fragment | Cause::FragmentHeader) => {
                "what it told is missing, unless another message told it"
            }
            Loss::Damage => { "a broken sender, or a damaged capture; mdnswhy packets tells where" }
            Loss::Check(_) => "",
        }
    }
}

/// Appends a line for each loss of a file, if it lost packets to it.
pub(crate) fn push_losses(
    to: &mut String,
    file: &str,
    reading: &Reading,
    losses: &[Loss],
) -> Result<(), Want>
    ensures { OnOk result (string_bytes to.new
        ≡ string_bytes to.old ++ flat_map (loss_text file.now reading.now) losses.now) }
{
    for loss in losses {
        push_loss(to, file, reading, *loss)?;
    }
    Ok(())
}

#[tactic(auto, unfolding(crate::specs::Loss::loss_text))]
fn push_loss(to: &mut String, file: &str, reading: &Reading, loss: Loss) -> Result<(), Want>
    ensures { OnOk result (string_bytes to.new ≡ string_bytes to.old ++ loss_text file.now reading.now loss) }
{
    let count = loss.count(reading);
    if count == 0 {
        return Ok(());
    }
    write!(
        to,
        "{file} lost {count} {}: {}\n",
        loss.words(),
        loss.cure()
    )?;
    Ok(())
}
