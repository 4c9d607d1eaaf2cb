// The least period of a net read, with checks 9 to 11 and without a cover: what mark asks of a net.
#![tactic(auto)]

ghost use Rattle.std.specs.Prelude.{◌≤◌, length};
ghost use Rattle.limits.specs.Limits.{most_table};
ghost use Rattle.net_model.specs.Arrays.{net_in};
ghost use Rattle.net_model.specs.PackedNet.{NetKept};
ghost use Rattle.net_reader.specs.ReadAnswer.{arrays_of};
ghost use Rattle.cover_theory.specs.Covers.{LeastPeriod};
ghost use Rattle.job_plan.specs.Planned.{Planning};
ghost use Rattle.job_settle.specs.Settling.{Settling, LeastOf};
ghost use Rattle.job_least.specs.Asked.{LeastAsked, LeastTold};

use cut_circuit::{Extent, link};
use job_plan::{MEMBERS, extent};
use job_scratch::clear_first;
use label_aim::Aim;
use label_period::least_period;
use limits::{GATES, HELD, LIST, NODES, STACK, TABLE};
use net_checks::check_graph;
use net_reader::NetSizes;
use refusals::Refusal;

// The least period of a net with n outputs, with the engine's table lent.
fn least_in(s: Extent, n: usize, net: &[usize], k: usize, table: &mut [u8]) -> usize
    requires { LeastAsked s n net.now k table.old }
    ensures { LeastTold s n net.now k result }
{
    let all = s.inputs + s.gates;
    let end = all * s.width;
    let mut slots = [0u32; HELD];
    let mut list = [0u32; LIST];
    let mut stack = [0u32; STACK];
    let mut counts = [0u32; NODES];
    let mut members = [0u32; MEMBERS];
    let mut labels = [0i64; NODES];
    let a = Aim {
        phi: 0,
        k,
        outputs: n,
        cap: None,
        forward: false,
        trial: false,
    };
    least_period(
        s,
        net,
        &mut slots,
        &mut table[..end],
        &mut list,
        &mut stack,
        &mut counts,
        &mut members,
        &mut labels[..all],
        a,
    )
}

// The same for a net that passed the checks, with its chains made. The first bytes of work are the engine's table.
fn least(z: NetSizes, net: &mut [usize], tables: &[u64], k: usize, work: &mut [u8]) -> usize
    requires planning { Planning k 0 z net.old tables.now }
    requires most_table_in_bounds { most_table ≤ length work.old }
    ensures least_period { LeastPeriod (net_in (arrays_of z net.old tables.now)) k result }
    ensures net_kept { NetKept z.inputs z.gates net.old net.new }
{
    link(z.inputs + z.gates, z.gates, net);
    let s = extent(z, net, k);
    let end = TABLE;
    clear_first(work, end);
    least_in(s, z.outputs, net, k, &mut work[..end])
}

// Checks 9 to 11 and the least period, or what is wrong by the first that fails.
pub fn least_of(
    z: NetSizes,
    net: &mut [usize],
    tables: &[u64],
    k: usize,
    work: &mut [u8],
) -> Result<usize, Refusal>
    requires settling { Settling k 0 z net.old tables.now }
    requires most_table_in_bounds { most_table ≤ length work.old }
    ensures least_of { LeastOf k (net_in (arrays_of z net.old tables.now)) result }
    ensures net_kept { NetKept z.inputs z.gates net.old net.new }
{
    let mut seen = [0usize; GATES];
    let mut noted = [0usize; GATES];
    let gates = z.gates;
    check_graph(z, net, &mut seen[..gates], &mut noted[..gates])?;
    Ok(least(z, net, tables, k, work))
}
