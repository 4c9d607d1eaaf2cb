// The LUT over given leaves: whether they are a cut of a gate, and the full table over the cone between. The full tables of a cover's LUTs.
// The first bytes of work are the walk's table of marks: all 0 before and after.
#![tactic(auto)]

ghost use Rattle.std.specs.Prelude.{◌*◌, ◌≤◌, ◌<◌, length, get_or, drop};
ghost use Rattle.limits.specs.Limits.{most_pins, most_table};
ghost use Rattle.cone_copies.specs.CopyLists.{SmallWires, copies_in};
ghost use Rattle.net_model.specs.Copies.{Rising};
ghost use Rattle.net_model.specs.Arrays.{stride, copies_from};
ghost use Rattle.net_model.specs.PackedNet.{sources_at, counts_at, nexts_at};
ghost use Rattle.cover_records.specs.Rows.{sizes_in, nodes_in, backs_in, row_room};
ghost use Rattle.cone_descent.specs.Descent.{Clear};
ghost use Rattle.cone_luts.specs.Luts.{Row, LutTried, GateTable, Tabulates, Tabulated};

use cone_copies::CopyList;
use cone_descent::{clear, walk};
use cone_table::table;
use limits::{BEYOND, PINS, REACH};

// The full table of the LUT of gate g over these leaves, or none where they are no cut.
fn try_lut(
    inputs: usize,
    gates: usize,
    net: &[usize],
    tables: &[u64],
    leaves: CopyList,
    g: usize,
    work: &mut [u8],
) -> Option<u64>
    requires small_wires { SmallWires inputs gates net.now (drop (sources_at gates) net.now) (drop (counts_at gates) net.now) × (gates ≤ length tables.now) × (leaves.len ≤ most_pins) × (leaves.len ≤ length leaves.nodes.now) × (leaves.len ≤ length leaves.backs.now) × (g < gates) × Rising (copies_in leaves.nodes.now leaves.backs.now leaves.len) }
    requires most_table_in_bounds { (most_table ≤ length work.old) × Clear work.old }
    ensures lut_tried { LutTried inputs gates net.now (drop (sources_at gates) net.now) (drop (counts_at gates) net.now) tables.now (copies_in leaves.entry.nodes.now leaves.entry.backs.now leaves.entry.len) g result }
    ensures clear { Clear work.new }
{
    let cone = walk(
        inputs,
        gates,
        net,
        leaves.nodes,
        leaves.backs,
        leaves.len,
        g,
        work,
    )?;
    let t = table(
        inputs,
        gates,
        net,
        tables,
        leaves.nodes,
        leaves.backs,
        leaves.len,
        cone,
        work,
    );
    clear(&cone.nodes, &cone.backs, cone.len, REACH + BEYOND, work);
    Some(t)
}

// The same for the leaves in row i of n.
pub fn try_row(
    inputs: usize,
    gates: usize,
    net: &[usize],
    tables: &[u64],
    rows: &[usize],
    n: usize,
    i: usize,
    g: usize,
    work: &mut [u8],
) -> Option<u64>
    requires small_wires { SmallWires inputs gates net.now (drop (sources_at gates) net.now) (drop (counts_at gates) net.now) × (gates ≤ length tables.now) × Row (sizes_in n rows.now) (nodes_in n rows.now) (backs_in n rows.now) i × (g < gates) }
    requires gates_in_bounds { (nexts_at gates ≤ length net.now) × (i < n) × (row_room n ≤ length rows.now) }
    requires most_table_in_bounds { (most_table ≤ length work.old) × Clear work.old }
    ensures lut_tried { LutTried inputs gates net.now (drop (sources_at gates) net.now) (drop (counts_at gates) net.now) tables.now (copies_from (nodes_in n rows.now) (backs_in n rows.now) (stride * i) (get_or (sizes_in n rows.now) i 0)) g result }
    ensures clear { Clear work.new }
{
    let a = 2 * n + PINS * i;
    let b = (2 + PINS) * n + PINS * i;
    let leaves = CopyList {
        nodes: &rows[a..],
        backs: &rows[b..],
        len: rows[n + i],
    };
    try_lut(inputs, gates, net, tables, leaves, g, work)
}

// The full table of the LUT of gate g, 0 where it has no mark.
fn gate_table(
    inputs: usize,
    gates: usize,
    net: &[usize],
    tables: &[u64],
    rows: &[usize],
    g: usize,
    work: &mut [u8],
) -> u64
    requires tabulates { Tabulates inputs gates net.now (drop (sources_at gates) net.now) (drop (counts_at gates) net.now) tables.now rows.now (sizes_in gates rows.now) (nodes_in gates rows.now) (backs_in gates rows.now) × (g < gates) }
    requires gates_in_bounds { (nexts_at gates ≤ length net.now) × (row_room gates ≤ length rows.now) }
    requires most_table_in_bounds { (most_table ≤ length work.old) × Clear work.old }
    ensures gate_table { GateTable inputs gates net.now (drop (sources_at gates) net.now) (drop (counts_at gates) net.now) tables.now rows.now (sizes_in gates rows.now) (nodes_in gates rows.now) (backs_in gates rows.now) g result }
    ensures clear { Clear work.new }
{
    if rows[g] == 0 {
        return 0;
    }
    let t = try_row(inputs, gates, net, tables, rows, gates, g, g, work);
    t.unwrap_or(0)
}

// The full tables of all gates with a mark.
pub fn tabulate(
    inputs: usize,
    gates: usize,
    net: &[usize],
    tables: &[u64],
    rows: &[usize],
    luts: &mut [u64],
    work: &mut [u8],
)
    requires tabulates { Tabulates inputs gates net.now (drop (sources_at gates) net.now) (drop (counts_at gates) net.now) tables.now rows.now (sizes_in gates rows.now) (nodes_in gates rows.now) (backs_in gates rows.now) × (gates ≤ length luts.old) }
    requires gates_in_bounds { (nexts_at gates ≤ length net.now) × (row_room gates ≤ length rows.now) }
    requires most_table_in_bounds { (most_table ≤ length work.old) × Clear work.old }
    ensures tabulated { Tabulated inputs gates net.now (drop (sources_at gates) net.now) (drop (counts_at gates) net.now) tables.now rows.now (sizes_in gates rows.now) (nodes_in gates rows.now) (backs_in gates rows.now) luts.new gates }
    ensures clear { Clear work.new }
{
    for g in 0..gates {
        luts[g] = gate_table(inputs, gates, net, tables, rows, g, work);
    }
}
