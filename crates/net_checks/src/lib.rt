// Checks 9, 10 and 11 of a net in one slice, in this order. What they find is stored in the slice: the gates in order, the first pins, the tops. The two arrays lent have a number a gate.
#![tactic(auto)]

ghost use Rattle.std.specs.Prelude.{◌≡◌, length};
ghost use Rattle.refusals.specs.Refusals.{code_of};
ghost use Rattle.net_checks.specs.Graphs.{Checkable, Lent, Placed, Reached, Headed, NineTold, TenTold, ElevenTold, GraphTold};
ghost use Rattle.net_checks.specs.Lowering.{Counting, Lowered};

use limits::PINS;
use net_leading::check_leading;
use net_loops::check_loops;
use net_marks::store;
use net_reached::check_reached;
use net_reader::{NetSizes, delays_at, order_at, outs_at, tops_at};
use refusals::Refusal;

// Check 9.
fn check_nine(s: NetSizes, net: &[usize], seen: &mut [usize], order: &mut [usize]) -> bool
    requires { Checkable s net.now × Lent s seen.old order.old }
    ensures { Placed s net.now seen.new order.new result }
{
    let a = 2 * s.gates;
    let b = (2 + PINS) * s.gates;
    check_loops(s.inputs, s.gates, net, &net[a..], &net[b..], seen, order)
}

// Check 10.
fn check_ten(s: NetSizes, net: &[usize], first: &mut [usize], ranks: &mut [usize]) -> bool
    requires { Checkable s net.now × Lent s first.old ranks.old }
    ensures { Reached s net.now first.new ranks.new result }
{
    let a = 2 * s.gates;
    let b = (2 + PINS) * s.gates;
    check_reached(s.inputs, s.gates, net, &net[a..], &net[b..], first, ranks)
}

// Check 11.
fn check_eleven(s: NetSizes, net: &[usize], tops: &mut [usize]) -> bool
    requires { Checkable s net.now × (length tops.old ≡ s.gates) }
    ensures { Headed s net.now tops.new result }
{
    let a = 2 * s.gates;
    let b = (2 + PINS) * s.gates;
    let o = outs_at(s, net);
    let d = delays_at(s, net);
    check_leading(
        s.inputs,
        s.gates,
        s.outputs,
        net,
        &net[a..],
        &net[b..],
        &net[o..],
        &net[d..],
        tops,
    )
}

// Pins from 1 on become pins from 0 on.
fn lower(marks: &mut [usize])
    requires { Counting marks.old }
    ensures { Lowered marks.old marks.new (length marks.old) }
{
    for m in marks.iter_mut() {
        *m -= 1;
    }
}

// Check 9, with the order stored.
fn store_nine(s: NetSizes, net: &mut [usize], seen: &mut [usize], noted: &mut [usize]) -> bool
    requires { Checkable s net.old × Lent s seen.old noted.old }
    ensures { NineTold s net.old net.new result }
{
    if !check_nine(s, net, seen, noted) {
        return false;
    }
    let at = order_at(s, net);
    store(noted, s.gates, net, at);
    true
}

// Check 10, with the first pins stored.
fn store_ten(s: NetSizes, net: &mut [usize], seen: &mut [usize], noted: &mut [usize]) -> bool
    requires { Checkable s net.old × Lent s seen.old noted.old }
    ensures { TenTold s net.old net.new result }
{
    if !check_ten(s, net, noted, seen) {
        return false;
    }
    lower(noted);
    store(noted, s.gates, net, s.gates);
    true
}

// Check 11, with the tops stored.
fn store_eleven(s: NetSizes, net: &mut [usize], seen: &mut [usize]) -> bool
    requires { Checkable s net.old × (length seen.old ≡ s.gates) }
    ensures { ElevenTold s net.old net.new result }
{
    if !check_eleven(s, net, seen) {
        return false;
    }
    let at = tops_at(s, net);
    store(seen, s.gates, net, at);
    true
}

// Checks 9, 10 and 11 in this order: what is wrong is told of the first that fails.
pub fn check_graph(
    s: NetSizes,
    net: &mut [usize],
    seen: &mut [usize],
    noted: &mut [usize],
) -> Result<(), Refusal>
    requires { Checkable s net.old × Lent s seen.old noted.old }
    ensures { GraphTold s net.old net.new (code_of result) }
{
    if !store_nine(s, net, seen, noted) {
        return Err(Refusal::OpenLoop);
    }
    if !store_ten(s, net, seen, noted) {
        return Err(Refusal::Unreached);
    }
    if !store_eleven(s, net, seen) {
        return Err(Refusal::LeadsNowhere);
    }
    Ok(())
}
