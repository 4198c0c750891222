//! The sums of the switches, and whether they are too large.

ghost use Rattle.std.specs.Prelude.{◌≡◌, ◌+◌, ◌*◌, ◌≤◌, ◌<◌, ◌^◌, nat_lt, map, length, sum, position};
ghost use Rattle.indus_tree.specs.Hops.{same_kind};
ghost use Rattle.indus_tree.specs.View.{decl_of, property_of};
ghost use Rattle.indus_tree.specs.declared.tree.DeclKind.TheVariants.{Control};
ghost use Rattle.indus_types.specs.Sums.{cut, IsControl};
ghost use Rattle.indus_values.specs.View.{contents_of};
ghost use Rattle.network_file.specs.Events.{event_of};
ghost use Rattle.table_items.specs.Items.{reads_of, too_many_of, within_limits};
ghost use Rattle.table_items.specs.Steps.{cap, added, with_variable, with_variables};
ghost use Rattle.table_items.specs.Views.{contents_view};

use crate::fault::TooMany;
use crate::greatest::greatest;
use indus_tree::DeclKind;
use indus_types::TypedProperty;
use indus_values::ControlValue;
use network_file::Event;

/// The greatest number of switches.
const MOST_SWITCHES: usize = 256;

/// The greatest number of table items of one switch.
const MOST_ITEMS: u64 = 65_536;

/// The greatest number of table items of all switches together.
const MOST_IN_ALL: u64 = 1_048_576;

fn is_control(kind: DeclKind) -> bool
    ensures { result ≡ same_kind Control kind }
{
    match kind {
        DeclKind::Control => true,
        DeclKind::Tele | DeclKind::Sensor | DeclKind::Header => false,
    }
}

/// How often the control variable of a number is read, cut at the greatest number.
fn reads(p: &TypedProperty, variable: usize) -> u32
    requires { IsControl (property_of p.now) variable }
    ensures reads { result ≡ cut (reads_of (property_of p.now) variable) }
    ensures small { 0 < result → variable < 2 ^ 32 }
{
    if variable > u32::MAX as usize {
        return 0;
    }
    p.lookups(variable as u32)
}

/// The sum, or the first number that is too large for a switch.
fn capped(sum: u64, reads: u32, items: usize) -> u64
    ensures { result ≡ cap (sum + reads * items) }
{
    let more = (reads as u64).saturating_mul(items as u64);
    sum.saturating_add(more).min(MOST_ITEMS + 1)
}

fn start(sums: &mut [u64], entries: &[u32])
    requires { length sums.old ≡ length entries.now }
    ensures { sums.new ≡ map cap entries.now }
{
    for switch in 0..entries.len() {
        sums[switch] = (entries[switch] as u64).min(MOST_ITEMS + 1);
    }
}

/// Adds what each switch has to hold for a variable that is read so often.
fn add(sums: &mut [u64], reads: u32, most: &[usize])
    requires { length sums.old ≡ length most.now }
    ensures { sums.new ≡ added reads sums.old most.now }
{
    for switch in 0..most.len() {
        sums[switch] = capped(sums[switch], reads, most[switch]);
    }
}

fn total(sums: &[u64]) -> u64
    requires { sum sums.now < 2 ^ 64 }
    ensures { result ≡ sum sums.now }
{
    sums.iter().sum()
}

fn first_over(sums: &[u64]) -> Option<usize>
    ensures { result ≡ position (λ n. nat_lt 65536 n) sums.now }
{
    sums.iter().position(|sum| *sum > MOST_ITEMS)
}

fn within(sums: &[u64]) -> Result<(), TooMany>
    requires few { length sums.now ≤ 256 }
    requires sum { sum sums.now < 2 ^ 64 }
    ensures { result ≡ too_many_of sums.now }
{
    let over = first_over(sums);
    let is_much = total(sums) > MOST_IN_ALL;
    match over {
        Some(switch) => Err(TooMany {
            switch: switch as u16,
        }),
        None if is_much => Err(TooMany {
            switch: sums.len() as u16,
        }),
        None => Ok(()),
    }
}

/// Adds what each switch has to hold for the control variable of a number, where `seat` is its place
/// among the control variables.
fn add_variable(
    p: &TypedProperty,
    sums: &mut [u64],
    most: &mut [usize],
    control: &[Vec<ControlValue>],
    events: &[Event],
    variable: usize,
    seat: usize,
)
    requires control { IsControl (property_of p.now) variable }
    requires sums { length sums.old ≡ length control.now }
    requires most { length most.old ≡ length control.now }
    ensures { sums.new ≡ with_variable (property_of p.now) (map contents_view control.now)
        (map event_of events.now) variable seat sums.old }
{
    let reads = reads(p, variable);
    if reads > 0 {
        greatest(most, variable as u32, seat, control, events);
        add(sums, reads, most);
    }
}

/// Adds what each switch has to hold for all control variables.
fn add_variables(
    p: &TypedProperty,
    sums: &mut [u64],
    most: &mut [usize],
    control: &[Vec<ControlValue>],
    events: &[Event],
)
    requires sums { length sums.old ≡ length control.now }
    requires most { length most.old ≡ length control.now }
    ensures { sums.new ≡ with_variables (property_of p.now) (map contents_view control.now)
        (map event_of events.now) 0 0 sums.old (property_of p.now).decls }
{
    let mut seat = 0;
    for (variable, decl) in p.property().decls.iter().enumerate() {
        if is_control(decl.kind) {
            add_variable(p, sums, most, control, events, variable, seat);
            seat += 1;
        }
    }
}

/// Whether the tables of the switches hold too many items, where `entries` has how many entries each
/// switch is given, `control` the contents of the control variables at each switch, in order of
/// declaration, and `events` what is set later. A control variable has at a switch its greatest number
/// of items, as often as the property reads it. Takes no memory, and time for each variable that is
/// read, times the switches and events.
///
/// # Errors
///
/// The first switch with more than 65,536 items, exactly where there is one; else the number of
/// switches, exactly where all together have more than 1,048,576.
pub fn table_items(
    p: &TypedProperty,
    entries: &[u32],
    control: &[Vec<ControlValue>],
    events: &[Event],
) -> Result<(), TooMany>
    requires few { length control.now ≤ 256 }
    requires one_each { length entries.now ≡ length control.now }
    ensures { result ≡ within_limits (property_of p.now) entries.now (map contents_view control.now)
        (map event_of events.now) }
{
    let mut sums = [0; MOST_SWITCHES];
    let mut most = [0; MOST_SWITCHES];
    let sums = &mut sums[..control.len()];
    let most = &mut most[..control.len()];
    start(sums, entries);
    add_variables(p, sums, most, control, events);
    within(sums)
}
