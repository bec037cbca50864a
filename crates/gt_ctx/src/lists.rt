//! Lists of names, linked through the names.
ghost use Rattle.std.specs.Prelude.{◌≡◌, ℕ, ◌+◌, ◌<◌, ◌≤◌, ◌^◌, [], ◌∷◌, ◌++◌, length, slice_set, replicate, vec_len, vec_capacity, false, IfOk, IfSome};
ghost use Rattle.gt_ctx.specs.Links.{items_of, has, joined_to};

use std::alloc::{AllocError, Global};
use std::marker::Model;

/// A list for each name. A name is in one of them at most. They are seen as these lists, by number.
#[derive(Drop)]
pub struct Lists {
    firsts: Vec<Option<u32>>,
    nexts: Vec<Option<u32>>,
}

impl Model for Lists {
    ghost use Rattle.std.specs.Prelude.{List, ℕ};
    ghost use Rattle.gt_ctx.specs.Links.{spelled, AreSpelled};

    ghost Value = { List (List ℕ) };

    ghost view = { λ l. spelled l.firsts.items l.nexts.items };

    ghost invariant = { λ l. AreSpelled l.firsts.items l.nexts.items };
}

impl Lists {
    /// An empty list for each of `names` names. It alone takes memory.
    pub fn with_names(alloc: Global, names: usize) -> Result<Lists, AllocError>
        ensures { IfOk result (λ made. made ≡ replicate names []) }
    {
        Ok(Lists {
            firsts: vec![in alloc; None; names]?,
            nexts: vec![in alloc; None; names]?,
        })
    }

    /// Puts `item` at the front of a list.
    pub fn join(&mut self, list: u32, item: u32)
        requires list { list < length self.old }
        requires item { item < length self.old }
        requires alone { (k : ℕ) → has (items_of self.old k) item ≡ false }
        requires short { length (items_of self.old list) < length self.old }
        ensures { self.new ≡ slice_set self.old list (item ∷ items_of self.old list) }
    {
        self.nexts[item as usize] = self.firsts[list as usize];
        self.firsts[list as usize] = Some(item);
    }

    /// Puts `item` at the front of a list, where one is named.
    pub fn join_to(&mut self, list: Option<u32>, item: u32)
        requires list { IfSome list (λ list. list < length self.old) }
        requires item { item < length self.old }
        requires alone { (k : ℕ) → has (items_of self.old k) item ≡ false }
        requires short { IfSome list (λ list. length (items_of self.old list) < length self.old) }
        ensures { self.new ≡ joined_to self.old list item }
    {
        if let Some(list) = list {
            self.join(list, item);
        }
    }

    /// Adds the items of a list at the end of `out`.
    pub fn push_items(&self, list: u32, out: &mut Vec<u32>)
        requires list { list < length self.now }
        requires room { vec_len out.old + length (items_of self.now list) ≤ vec_capacity out.old }
        ensures items { out.new.items ≡ out.old.items ++ items_of self.now list }
        ensures capacity { vec_capacity out.new ≡ vec_capacity out.old }
    {
        let mut next = self.firsts[list as usize];
        while let Some(item) = next {
            out.push_reserved(item);
            next = self.nexts[item as usize];
        }
    }
}
