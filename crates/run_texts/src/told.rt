//! The texts of what switches told.

ghost use Rattle.std.specs.Prelude.{◌≡◌, [], ◌∷◌, map, IfOk, string_bytes};
ghost use Rattle.path_runner.specs.Packets.{told_of};
ghost use Rattle.report_writer.specs.Texts.{reports_of};
ghost use Rattle.run_texts.specs.Told.{digests_lines, is_told_report, number_in, report_in, reports_lines, values_in};

use bit_values::Bits;
use forward_texts::{digest_text, switch_name};
use network_file::Network;
use path_runner::Told;
use report_writer::{ReportRow, reports_text as lines_text};
use std::alloc::{AllocError, Global};

/// The receiver of digests that are reports: the letters `HYDR`.
const REPORT_RECEIVER: u32 = 1_213_809_746;

/// Whether a digest is a report.
pub(crate) fn is_report(told: &Told) -> bool
    ensures { result ≡ is_told_report (told_of told.now) }
{
    told.digest.receiver == REPORT_RECEIVER
}

/// The number of a report.
fn number_in(values: &[Bits]) -> u32
    ensures { result ≡ number_in values.now }
{
    match values {
        [] => 0,
        [word, _others @ ..] => word.cast(32).value as u32,
    }
}

/// What a report tells.
fn values_in(values: &[Bits]) -> &[Bits]
    ensures { result.now ≡ values_in values.now }
{
    match values {
        [] => values,
        [_word, others @ ..] => others,
    }
}

/// The line of a report.
fn report_text<'a>(
    alloc: Global,
    network: &'a Network,
    told: &'a Told,
) -> Result<String, AllocError>
    ensures { IfOk result (λ s. string_bytes s ≡ reports_of (report_in network.now.names (told_of told.now) ∷ [])) }
{
    let values = told.digest.values.as_slice();
    let row = ReportRow {
        packet: told.packet,
        switch: switch_name(network, told.switch),
        number: number_in(values),
        values: values_in(values),
    };
    lines_text(alloc, &[row])
}

/// The same of a digest that is a report; of others nothing.
fn text_if_report(alloc: Global, network: &Network, told: &Told) -> Result<String, AllocError>
    ensures { IfOk result (λ s. string_bytes s ≡ reports_lines network.now.names (told_of told.now ∷ [])) }
{
    if is_report(told) {
        report_text(alloc, network, told)
    } else {
        Ok(String::new(alloc))
    }
}

/// The line of a digest that is no report; of others nothing.
fn text_if_digest(alloc: Global, network: &Network, told: &Told) -> Result<String, AllocError>
    ensures { IfOk result (λ s. string_bytes s ≡ digests_lines network.now.names (told_of told.now ∷ [])) }
{
    if is_report(told) {
        Ok(String::new(alloc))
    } else {
        digest_text(alloc, network, told)
    }
}

/// The reports, a line each.
pub fn reports_text(alloc: Global, network: &Network, told: &[Told]) -> Result<String, AllocError>
    ensures { IfOk result (λ s. string_bytes s ≡ reports_lines network.now.names (map told_of told.now)) }
{
    let mut text = String::new(alloc);
    for x in told {
        let line = text_if_report(alloc, network, x)?;
        text.push_str(line.as_str())?;
    }
    Ok(text)
}

/// The digests that are no reports, a line each.
pub fn digests_text(alloc: Global, network: &Network, told: &[Told]) -> Result<String, AllocError>
    ensures { IfOk result (λ s. string_bytes s ≡ digests_lines network.now.names (map told_of told.now)) }
{
    let mut text = String::new(alloc);
    for x in told {
        let line = text_if_digest(alloc, network, x)?;
        text.push_str(line.as_str())?;
    }
    Ok(text)
}
