//! A list whose memory is taken once, when it is made. From then on an item is added without a fault.
#![tactic(auto)]

ghost use Rattle.std.specs.Prelude.{◌≡◌, ℕ, ◌+◌, ◌<◌, ◌↔◌, [], ◌∷◌, ◌++◌, length, slice_get, slice_index_or, slice_set, replicate, IsTrue, IsOk, IfOk};
ghost use Rattle.std.specs.Borrow.{sem};

use std::alloc::{AllocError, Global};
use std::marker::Model;

/// A list with room for a number of items that was fixed when it was made. It is seen as its `items`, in order, and the
/// number `spare` of items that still fit.
#[derive(Drop)]
pub struct Room<T> {
    items: Vec<T>,
}

impl<T> Model for Room<T> {
    ghost use Rattle.std.specs.Prelude.{◌-◌, vec_len, vec_capacity};
    ghost use Rattle.gt_room.specs.Contents.{Contents, contents_code};

    ghost Value = { Contents T };

    ghost coded = { contents_code T.code };

    ghost view = { λ r. record {
      items = r.items.items;
      spare = vec_capacity r.items - vec_len r.items;
    } };
}

impl<T> Room<T> {
    ghost use Rattle.gt_room.specs.Lending.{LendsItem};

    /// An empty room for `n` items. It takes their memory here, or fails for want of it; no later call takes any.
    pub fn with_room(alloc: Global, n: usize) -> Result<Room<T>, AllocError>
        ensures empty { IfOk result (λ room. room.items ≡ []) }
        ensures spare { IfOk result (λ room. room.spare ≡ n) }
        ensures needs_none { n ≡ 0 → IsOk result }
    {
        let items = Vec::with_capacity(alloc, n)?;
        Ok(Room { items })
    }

    /// Adds an item at the end.
    pub fn put(&mut self, x: T)
        requires { 0 < self.old.spare }
        ensures items { self.new.items ≡ self.old.items ++ x ∷ [] }
        ensures spare { self.new.spare + 1 ≡ self.old.spare }
    {
        self.items.push_reserved(x);
    }

    /// The number of items.
    pub fn len(&self) -> usize
        ensures { result ≡ length self.now.items }
    {
        self.items.len()
    }

    /// Whether there is no item.
    pub fn is_empty(&self) -> bool
        ensures { IsTrue result ↔ (self.now.items ≡ []) }
    {
        self.items.is_empty()
    }

    /// The items, in order.
    pub fn as_slice(&self) -> &[T]
        ensures { result.now ≡ self.now.items }
    {
        self.items.as_slice()
    }

    /// The item at place `i`.
    pub fn at(&self, i: usize) -> &T
        requires { i < length self.now.items }
        ensures value { slice_get self.now.items i ≡ Some result.now }
        ensures by_index { (d : T) → result.now ≡ slice_index_or self.now.items i d }
    {
        &self.items[i]
    }

    /// The item at place `i`, for writing.
    pub fn at_mut(&mut self, i: usize) -> &mut T
        requires { i < length self.old.items }
        ensures* writes_back { sem 𝓛 (LendsItem T.row self.entry i result) }
        ensures value { slice_get self.old.items i ≡ Some result.now }
        ensures by_index { (d : T) → result.now ≡ slice_index_or self.old.items i d }
    {
        &mut self.items[i]
    }

    /// Replaces the item at place `i`, and drops the one that was there.
    pub fn set(&mut self, i: usize, x: T)
    where
        T: Drop,
        requires { i < length self.old.items }
        ensures items { self.new.items ≡ slice_set self.old.items i x }
        ensures spare { self.new.spare ≡ self.old.spare }
    {
        self.items[i] = x;
    }
}

impl<T: Copy> Room<T> {
    /// A room that holds `n` copies of `x`, with room for no more. It takes its memory here, or fails for want of it.
    pub fn fill(alloc: Global, n: usize, x: T) -> Result<Room<T>, AllocError>
        ensures items { IfOk result (λ room. room.items ≡ replicate n x) }
        ensures spare { IfOk result (λ room. room.spare ≡ 0) }
        ensures needs_none { n ≡ 0 → IsOk result }
    {
        let mut room = Room::with_room(alloc, n)?;
        for _ in 0..n {
            room.put(x);
        }
        Ok(room)
    }
}
