//! The bins that a search has come to and not settled, the nearest first.
ghost use Rattle.std.specs.Prelude.{◌≡◌, ◌<◌, ◌≤◌, ◌⊎◌, ◌∷◌, List, [], ℕ, Contains, length, IfSome, IfNone, OnOk, OnErr, OnSome};
ghost use Rattle.std.specs.List.Sorted.{IsPermutation};

use std::alloc::{AllocError, Global};
use std::cmp::Reverse;
use std::collections::BinaryHeap;
use std::marker::Model;

/// Bins with a distance, the nearest first and of equally near ones the first that came. Contracts see the list of the
/// entries, in no order.
#[derive(Drop)]
pub struct Frontier {
    heap: BinaryHeap<Reverse<(u64, u64, usize)>>,
    entered: u64,
}

impl Model for Frontier {
    ghost use Rattle.std.specs.Prelude.{List, ℕ, map};
    ghost use Rattle.std.specs.BinaryHeap.{heap_items, IsHeap};
    ghost use Rattle.std.specs.Ordering.{nat_cmp, ordering_then};
    ghost use Rattle.std.specs.declared.cmp.Reverse.{Reverse};

    ghost Value = { List (ℕ × ℕ) };

    ghost view = { λ f. map (λ (r : Reverse (ℕ × ℕ × ℕ)). (r.0.0, r.0.2)) (heap_items f.heap) };

    ghost invariant = { λ f. IsHeap (λ x y. ordering_then (ordering_then (nat_cmp y.0.0 x.0.0) (nat_cmp y.0.1 x.0.1)) (nat_cmp y.0.2 x.0.2)) (heap_items f.heap) };
}

impl Frontier {
    pub fn new(alloc: Global) -> Frontier
        ensures { result ≡ [] }
    {
        Frontier {
            heap: BinaryHeap::new(alloc),
            entered: 0,
        }
    }

    pub fn clear(&mut self)
        ensures { self.new ≡ [] }
    {
        self.heap.clear();
        self.entered = 0;
    }

    pub fn push(&mut self, distance: u64, bin: usize) -> Result<(), AllocError>
        ensures kept { OnOk result ((e : ℕ × ℕ) → Contains self.old e → Contains self.new e) }
        ensures added { OnOk result (Contains self.new (distance, bin)) }
        ensures once { OnOk result (IsPermutation ((distance, bin) ∷ self.old) self.new) }
        ensures err { OnErr result (self.new ≡ self.old) }
    {
        self.heap.push(Reverse((distance, self.entered, bin)))?;
        self.entered = self.entered.wrapping_add(1);
        Ok(())
    }

    pub fn pop(&mut self) -> Option<(u64, usize)>
        ensures least { IfSome result (λ r. (e : ℕ × ℕ) → Contains self.old e → r.0 ≤ e.0) }
        ensures rest { IfSome result (λ r. (e : ℕ × ℕ) → Contains self.old e → (e ≡ r) ⊎ Contains self.new e) }
        ensures none { IfNone result (self.old ≡ []) }
        ensures taken { IfSome result (λ r. IsPermutation self.old (r ∷ self.new)) }
        ensures shorter { OnSome result (length self.new < length self.old) }
        ensures empty { IfNone result (self.new ≡ []) }
    {
        let Reverse((distance, _, bin)) = self.heap.pop()?;
        Some((distance, bin))
    }
}
