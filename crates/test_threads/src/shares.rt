//! Shares of one buffer: a worked split, round trips, and shares that threads write.
ghost use Rattle.std.specs.Prelude.{◌≡◌, ◌≤◌, map, length, All, IfOk};
ghost use Prim.Native.Nat.{◌∣◌};
ghost use Rattle.cell_shares.specs.Orders.{IsOrderOf};
ghost use Rattle.cell_shares.specs.Shares.{name_of, cell_values, share_label, share_values};

use crate::meeting_gate::MeetingGate;
use cell_shares::{Cells, Order, Share, join};
use lte_bits::{List, NoMemory};
use qpp_table::qpp;
use std::alloc::Global;
use std::test::Fail;
use std::thread;
use std::thread::Threads;

/// Returns the numbers below `n`.
fn numbers(alloc: Global, n: usize) -> Result<List<usize>, NoMemory>
    ensures { IfOk result (λ list. length list ≡ n) }
{
    let mut values = vec![in alloc; 0; n]?;
    for (i, value) in values.iter_mut().enumerate() {
        *value = i;
    }
    Ok(List::from_vec(values))
}

/// Returns whether `cells` are the numbers below `n`, but for `v` at place `at`.
fn are_numbers(cells: &Cells<usize>, n: usize, at: usize, v: usize) -> bool
    requires { n ≡ length (cell_values cells.now) }
{
    for i in 0..n {
        if cells.get(i) != (if i == at { v } else { i }) {
            return false;
        }
    }
    true
}

#[test]
fn size_40_in_four_windows(rt: HostRuntime) -> Result<(), Fail> {
    let order = Order::Interleaved(qpp(40).expect(&rt, "40 is a size"));
    let mut shares = Cells::new(rt.alloc(), numbers(rt.alloc(), 40)?, 4)?.split(order);
    let row = [
        shares[0].get(1),
        shares[1].get(1),
        shares[2].get(1),
        shares[3].get(1),
    ];
    assert_eq!(rt; row, [13, 3, 33, 23]);
    let place = order.place(40, 21);
    assert_eq!(rt; (place, shares[2].get_at(1, place)), (33, 33));
    shares[2].set(1, 99);
    assert!(rt; are_numbers(&join(shares), 40, 33, 99));
    Ok(())
}

/// Returns cells 0 to 47, split in an order and joined.
fn split_and_joined(alloc: Global, windows: usize, order: Order) -> Result<Cells<usize>, NoMemory>
    requires least { 1 ≤ windows }
    requires most { windows ≤ 64 }
    requires divides { windows ∣ 48 }
    requires order { IsOrderOf 48 order }
    ensures { IfOk result (λ cells. (name_of cells).count ≡ 48) }
{
    let cells = Cells::new(alloc, numbers(alloc, 48)?, windows)?;
    Ok(join(cells.split(order)))
}

#[test]
fn one_and_16_windows_come_back(rt: HostRuntime) -> Result<(), Fail> {
    for windows in [1, 16] {
        let q = qpp(48).expect(&rt, "48 is a size");
        assert!(rt; 1 <= windows && windows <= 64 && 48 % windows == 0);
        let cells = split_and_joined(rt.alloc(), windows, Order::Natural)?;
        assert!(rt; are_numbers(&cells, 48, 48, 48), "{windows}, natural");
        let cells = split_and_joined(rt.alloc(), windows, Order::Interleaved(q))?;
        assert!(rt; are_numbers(&cells, 48, 48, 48), "{windows}, interleaved");
    }
    Ok(())
}

/// Passes the gate, and then writes into each of a share's `width` cells the share's number and the cell's.
fn sign(gate: &MeetingGate, share: &mut Share<(usize, usize)>, width: usize, number: usize)
    requires { width ≡ length (share_values share.old) }
    ensures { share_label share.new ≡ share_label share.old }
{
    gate.pass();
    for j in 0..width {
        share.set(j, (number, j));
    }
}

/// Signs all shares, each on a thread.
fn sign_all<R: Threads + Sync>(
    rt: &R,
    gate: &MeetingGate,
    shares: &mut [Share<(usize, usize)>],
    width: usize,
)
    requires { All (λ s. width ≡ length (share_values s)) shares.old }
    ensures { map share_label shares.new ≡ map share_label shares.old }
{
    thread::for_each_mut(
        rt,
        shares,
        4,
        &|number, share| sign(gate, share, width, number),
    );
}

/// Returns whether each of 40 cells tells its place in an order for four shares.
fn are_signed(cells: &Cells<(usize, usize)>, order: &Order) -> bool
    requires cells { length (cell_values cells.now) ≡ 40 }
    requires order { IsOrderOf 40 order.now }
{
    for i in 0..40 {
        if cells.get(order.place(40, i)) != (i / 10, i % 10) {
            return false;
        }
    }
    true
}

#[test]
fn each_share_is_written_by_a_thread(rt: HostRuntime) -> Result<(), Fail> {
    let values = List::from_vec(vec![in rt.alloc(); (0, 0); 40]?);
    let order = Order::Interleaved(qpp(40).expect(&rt, "40 is a size"));
    let mut shares = Cells::new(rt.alloc(), values, 4)?.split(order);
    let gate = MeetingGate::new(4);
    sign_all(&rt, &gate, shares.as_mut_slice(), 10);
    assert!(rt; gate.met());
    assert!(rt; are_signed(&join(shares), &order));
    Ok(())
}
