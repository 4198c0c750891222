//! The text of the digests of a run.

ghost use Rattle.std.specs.Prelude.{◌≡◌, [], ◌∷◌, map, get_or, IfOk, string_bytes};
ghost use Rattle.path_runner.specs.Packets.{told_of};
ghost use Rattle.report_writer.specs.Texts.{reports_of};
ghost use Rattle.forward_texts.specs.Rows.{report_of};

use network_file::Network;
use path_runner::Told;
use report_writer::{ReportRow, reports_text};
use std::alloc::{AllocError, Global};

/// The name of a switch; nothing where there is none.
pub fn switch_name(network: &Network, switch: u16) -> &str
    ensures { result.now ≡ get_or network.now.names switch [] }
{
    if switch < network.count() {
        network.name(switch)
    } else {
        ""
    }
}

/// The line of a digest.
pub fn digest_text<'a>(
    alloc: Global,
    network: &'a Network,
    told: &'a Told,
) -> Result<String, AllocError>
    ensures { IfOk result (λ s. string_bytes s ≡ reports_of (report_of network.now.names (told_of told.now) ∷ [])) }
{
    let row = ReportRow {
        packet: told.packet,
        switch: switch_name(network, told.switch),
        number: told.digest.receiver,
        values: told.digest.values.as_slice(),
    };
    reports_text(alloc, &[row])
}

/// The digests, a line each.
pub fn digests_text(alloc: Global, network: &Network, told: &[Told]) -> Result<String, AllocError>
    ensures { IfOk result (λ s. string_bytes s ≡ reports_of (map (report_of network.now.names) (map told_of told.now))) }
{
    let mut text = String::new(alloc);
    for x in told {
        let line = digest_text(alloc, network, x)?;
        text.push_str(line.as_str())?;
    }
    Ok(text)
}
