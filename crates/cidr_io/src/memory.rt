//! The memory of a run.
ghost use Rattle.std.specs.Prelude.{◌≡◌, ◌+◌, ◌≤◌, ◌∷◌, ◌++◌, [], Bool, IsOk, OnErr, OnOk, false, true};
ghost use Rattle.std.specs.Vec.{vec_capacity, vec_len};

use std::alloc::{AllocError, Global};
use std::marker::Model;

/// Allocates, and remembers whether an allocation was refused. By it a program tells that there is no memory only where
/// that is so.
pub trait Memory {
    /// Whether an allocation was refused.
    ghost refused: { Self → Bool };

    /// The allocator, for what needs no room yet.
    fn alloc(&self) -> Global;

    /// Makes room for `more` items behind those that are there, which stay as they are. An error is an allocation that
    /// was refused, and is remembered; where there is the room already, there is none.
    fn reserve<T>(&mut self, items: &mut Vec<T>, more: usize) -> Result<(), AllocError>
        ensures items { items.new.items ≡ items.old.items }
        ensures room { OnOk result (vec_len items.new + more ≤ vec_capacity items.new) }
        ensures kept { OnOk result (refused self.new ≡ refused self.old) }
        ensures enough { vec_len items.old + more ≤ vec_capacity items.old → IsOk result }
        ensures refused { OnErr result (refused self.new ≡ true) };

    /// Passes on what a call has returned that allocates from `alloc`, and whose only error is an allocation that was
    /// refused; the error is remembered.
    fn watch<T>(&mut self, made: Result<T, AllocError>) -> Result<T, AllocError>
        ensures made { result ≡ made }
        ensures kept { OnOk result (refused self.new ≡ refused self.old) }
        ensures refused { OnErr result (refused self.new ≡ true) };

    /// Appends an item. An error is an allocation that was refused: the item is dropped, and the others stay as they are.
    fn push<T: Drop>(&mut self, items: &mut Vec<T>, item: T) -> Result<(), AllocError>
        ensures pushed { OnOk result (items.new.items ≡ items.old.items ++ item ∷ []) }
        ensures items { OnErr result (items.new.items ≡ items.old.items) }
        ensures kept { OnOk result (refused self.new ≡ refused self.old) }
        ensures refused { OnErr result (refused self.new ≡ true) }
    {
        self.reserve(items, 1)?;
        let Ok(()) = items.push(item) else {
            unreachable!()
        };
        Ok(())
    }
}

/// The memory that the system gives.
#[derive(Drop)]
pub struct Heap {
    alloc: Global,
    refused: bool,
}

impl Model for Heap {
    ghost use Rattle.std.specs.Prelude.{Bool};

    ghost Value = { Bool };

    ghost view = { λ h. h.refused };
}

impl Heap {
    /// The memory of a run, of which nothing was refused yet.
    pub fn new(alloc: Global) -> Self
        ensures { result ≡ false }
    {
        Heap {
            alloc,
            refused: false,
        }
    }
}

impl Memory for Heap {
    ghost refused = { λ h. h };

    fn alloc(&self) -> Global {
        self.alloc
    }

    fn reserve<T>(&mut self, items: &mut Vec<T>, more: usize) -> Result<(), AllocError> {
        let made = items.reserve(more);
        if made.is_err() {
            self.refused = true;
        }
        made
    }

    fn watch<T>(&mut self, made: Result<T, AllocError>) -> Result<T, AllocError> {
        if made.is_err() {
            self.refused = true;
        }
        made
    }
}
