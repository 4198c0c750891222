//! A property at a hop.

ghost use Rattle.std.specs.Prelude.{◌≡◌, map, IfOk, OnOk};
ghost use Rattle.network_run.specs.Hop.{exit_behind, hop_run};
ghost use Rattle.indus_tree.specs.Law.{law_of};
ghost use Rattle.indus_tree.specs.Reports.{HasShortReports};
ghost use Rattle.indus_tree.specs.View.{decl_of, property_of};
ghost use Rattle.indus_values.specs.View.{IsShaped, doing_of, entry_reads, exit_reads, reads_in, sensors_of, tele_of};

use crate::run::run_part;
use bit_values::Bits;
use indus_tree::Property;
use indus_values::{HopResult, HopView, SensorState, TeleState};
use std::alloc::{AllocError, Global};

/// The exit part, behind what was done before.
fn exit_part(
    alloc: Global,
    p: &Property,
    view: &HopView,
    values: &[Bits],
    tele: &mut TeleState,
    sensors: &mut SensorState,
    out: &mut HopResult,
) -> Result<(), AllocError>
    requires shaped { IsShaped (map decl_of p.now.decls.items) tele.old sensors.old }
    requires short { HasShortReports (property_of p.now) }
    ensures shaped { OnOk result (IsShaped (map decl_of p.now.decls.items) tele.new sensors.new) }
    ensures does { let ds = map decl_of p.now.decls.items in
        OnOk result (doing_of ds tele.new sensors.new out.new ≡ exit_behind (law_of (property_of p.now)) (reads_in ds view.now view.now.last values.now) (doing_of ds tele.old sensors.old out.old)) }
{
    run_part(
        alloc, p, &p.tele, view, view.last, values, tele, sensors, out,
    )?;
    out.rejected = false;
    if view.last {
        run_part(
            alloc, p, &p.check, view, view.last, values, tele, sensors, out,
        )
    } else {
        Ok(())
    }
}

/// Runs a property at a hop: its entry part on the entry view, and then, unless forwarding drops
/// the packet, its exit part on the exit view. In the entry part `last_hop` is false, as it is not
/// known yet where forwarding sends the packet.
pub fn hop_step(
    alloc: Global,
    p: &Property,
    view: &HopView,
    tele: &mut TeleState,
    sensors: &mut SensorState,
) -> Result<HopResult, AllocError>
    requires shaped { IsShaped (map decl_of p.now.decls.items) tele.old sensors.old }
    requires short { HasShortReports (property_of p.now) }
    ensures shaped { IfOk result (λ _. IsShaped (map decl_of p.now.decls.items) tele.new sensors.new) }
    ensures does { let ds = map decl_of p.now.decls.items in
        IfOk result (λ r. doing_of ds tele.new sensors.new r ≡ hop_run (law_of (property_of p.now)) (entry_reads ds view.now) (exit_reads ds view.now) (tele_of ds tele.old) (sensors_of ds sensors.old)) }
{
    let mut out = HopResult {
        rejected: false,
        reports: Vec::new(alloc),
    };
    if view.first {
        run_part(
            alloc,
            p,
            &p.init,
            view,
            false,
            &view.entry_,
            tele,
            sensors,
            &mut out,
        )?;
    }
    if let Some(values) = &view.exit_ {
        exit_part(alloc, p, view, values, tele, sensors, &mut out)?;
    }
    Ok(out)
}
