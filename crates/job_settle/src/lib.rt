// The net read, checked and covered: 9 to 11, 21, 12 or 22, and the cover kept in slices.
#![tactic(auto)]

ghost use Rattle.std.specs.Prelude.{◌≡◌, ◌+◌, ◌≤◌, length};
ghost use Rattle.limits.specs.Limits.{most_table};
ghost use Rattle.net_model.specs.Arrays.{net_in};
ghost use Rattle.net_reader.specs.ReadAnswer.{arrays_of};
ghost use Rattle.label_aim.specs.Aims.{mode_of};
ghost use Rattle.cover_records.specs.Outcomes.{unmet};
ghost use Rattle.cover_records.specs.Rows.{kept_in};
ghost use Rattle.job_plan.specs.Planned.{Roomy};
ghost use Rattle.refusals.specs.Refusals.{number_of, code_of};
ghost use Rattle.job_settle.specs.Settling.{Settling, SettledNet, SettledAs};

use job_plan::plan;
use net_checks::check_graph;
use net_reader::NetSizes;
use refusals::Refusal;

// What is asked of a net: the most leaves of a LUT, a target, whether covers are to be forward, and whether a run is wanted that the net has no section for.
#[derive(Drop)]
pub struct Call {
    pub k: usize,
    pub target: usize,
    pub forward: bool,
    pub lacks: bool,
}

// What is told where no cover meets the target.
fn unmet_of(forward: bool) -> Refusal
    ensures { number_of result ≡ unmet (mode_of forward) }
{
    if forward {
        Refusal::UnmetForward
    } else {
        Refusal::Unmet
    }
}

// Checks 9 to 11, 21 where a section is lacking, 12 or 22, and the cover: its period, or what is wrong by the first that fails. The checks use seen and noted, a number a gate.
pub fn settle(
    z: NetSizes,
    net: &mut [usize],
    tables: &[u64],
    seen: &mut [usize],
    noted: &mut [usize],
    call: Call,
    work: &mut [u8],
    labels: &mut [i64],
    rows: &mut [usize],
    luts: &mut [u64],
) -> Result<usize, Refusal>
    requires settling { Settling call.k call.target z net.old tables.now }
    requires gates_in_bounds { (z.gates ≤ length seen.old) × (z.gates ≤ length noted.old) }
    requires most_table_in_bounds { (most_table ≤ length work.old) × (z.inputs + z.gates ≤ length labels.old) × Roomy z.gates rows.old luts.old }
    ensures settled_as { SettledAs (mode_of call.forward) call.lacks call.k call.target (net_in (arrays_of z net.old tables.now)) (λ period. kept_in z.inputs z.gates period labels.new rows.new luts.new) result }
    ensures settled_net { SettledNet z net.old net.new (code_of result) }
{
    let gates = z.gates;
    check_graph(z, net, &mut seen[..gates], &mut noted[..gates])?;
    if call.lacks {
        return Err(Refusal::NoSection);
    }
    match plan(
        z,
        net,
        tables,
        call.k,
        call.target,
        call.forward,
        work,
        labels,
        rows,
        luts,
    ) {
        Some(period) => Ok(period),
        None => Err(unmet_of(call.forward)),
    }
}
